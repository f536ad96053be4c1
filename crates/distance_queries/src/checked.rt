// Checks 1 to 5, and the distances from a vertex: one search gives both.
ghost use Rattle.std.specs.Prelude.{◌≡◌, ◌<◌, IfOk};
ghost use Rattle.arithmetic.specs.Refusal.{refusal};
ghost use Rattle.refusals.specs.Refusals.{number_of};
ghost use Rattle.graph.specs.Graph.{graph_of};
ghost use Rattle.graph.specs.Checks.{graph_checks};
ghost use Rattle.distance_queries.specs.Steps.Checked.{SearchesFrom, DistancesFrom};

use dijkstra::distances_from;
use graph::Graph;
use refusals::Refusal;

// Where the search begins: at the start, or at vertex 0 if that is no vertex.
fn search_start(n: usize, start: usize) -> usize
    requires { 0 < n }
    ensures { SearchesFrom n start result }
{
    if start < n { start } else { 0 }
}

// Checks 1 to 5, and the distances from the start, if that is a vertex; `tables` says whether the caller's own tables pass check 2.
pub fn checked_distances(g: &Graph<'_>, tables: bool, start: usize) -> Result<[u32; 64], Refusal>
    ensures number { number_of result ≡ refusal (graph_checks (graph_of g.now) tables) }
    ensures table { IfOk result (DistancesFrom (graph_of g.now) start) }
{
    g.check_sizes(tables)?;
    if !g.edges_fit() {
        return Err(Refusal::Edges);
    }
    if !g.lengths_fit() {
        return Err(Refusal::Lengths);
    }
    let from = search_start(g.n, start);
    distances_from(g, from).ok_or(Refusal::Unconnected)
}
