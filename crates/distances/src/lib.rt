// The distances between the vertices of a graph.
#![tactic(auto)]

ghost use Rattle.std.specs.Prelude.{◌≡◌};
ghost use Rattle.refusals.specs.Refusals.{number_of};
ghost use Rattle.graph.specs.Graph.{graph_of};
ghost use Rattle.distances.specs.Distances.{distances_refusal, distances_table};

pub mod records;

use floyd_warshall::fill_distances;
use graph::{Graph, edges};
pub use records::{EdgeRecord, distances_of_records};
use refusals::Refusal;

// Fills the first n × n places of `out` with the distances, row i from place i × n.
pub fn distances(g: &Graph<'_>, out: &mut [u32]) -> Result<(), Refusal>
    ensures { (number_of result ≡ distances_refusal (graph_of g.now) out.old)
        × (out.new ≡ distances_table (graph_of g.now) out.old) }
{
    let mut parents = [0u32; 64];
    let mut edge = [0u32; 64];
    let room = edges::square_fits(g.n, out.len());
    graph_checks::check(g, room, &mut parents, &mut edge)?;
    fill_distances(g, out);
    Ok(())
}
