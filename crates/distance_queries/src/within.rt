// The vertices within reach of a start.
ghost use Rattle.refusals.specs.Refusals.{number_of};
ghost use Rattle.graph.specs.Graph.{graph_of};
ghost use Rattle.distance_queries.specs.Within.{FoundWithin, mask_of};

use crate::checked::checked_distances;
use graph::Graph;
use refusals::Refusal;
use vertex_set::word_of;

// The word of all vertices whose distance from `start` is at most `reach`.
pub fn vertices_within(g: &Graph<'_>, start: usize, reach: u32) -> Result<u64, Refusal>
    ensures { FoundWithin (graph_of g.now) start reach (number_of result) (mask_of result) }
{
    let distances = checked_distances(g, true, start)?;
    if start >= g.n {
        return Err(Refusal::Start);
    }
    Ok(word_of(g.n, |v| distances[v] <= reach))
}
