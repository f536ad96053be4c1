// Checks 1 to 5 of a graph.
#![tactic(auto)]

ghost use Rattle.std.specs.Prelude.{◌≤◌, length};
ghost use Rattle.refusals.specs.Refusals.{number_of};
ghost use Rattle.graph.specs.Graph.{graph_of};
ghost use Rattle.graph.specs.Checks.{edge_checks, graph_checks};
ghost use Rattle.graph.specs.Steps.Accepted.{Sized};
ghost use Rattle.graph_checks.specs.Steps.Checked.{Checked};

use graph::Graph;
use refusals::Refusal;
use shortest_paths::shortest_path_tree;

// Checks 3 to 5.
#[tactic(auto, unfolding(arithmetic::specs::Refusal::refusal, graph::specs::Checks::edge_checks))]
pub fn check_edges(g: &Graph<'_>, parents: &mut [u32], edge: &mut [u32]) -> Result<(), Refusal>
    requires { Sized (graph_of g.now) × ((64 ≤ length parents.old) × (64 ≤ length edge.old)) }
    ensures { Checked (graph_of g.now)
        (edge_checks (graph_of g.now)) (number_of result) parents.new edge.new }
{
    if !g.edges_fit() {
        return Err(Refusal::Edges);
    }
    if !g.lengths_fit() {
        return Err(Refusal::Lengths);
    }
    let mut labels = [0u32; 64];
    if !shortest_path_tree(g, 0, parents, edge, &mut labels) {
        return Err(Refusal::Unconnected);
    }
    Ok(())
}

// Checks 1 to 5; `tables` says whether the caller's own tables pass check 2.
pub fn check(
    g: &Graph<'_>,
    tables: bool,
    parents: &mut [u32],
    edge: &mut [u32],
) -> Result<(), Refusal>
    requires { (64 ≤ length parents.old) × (64 ≤ length edge.old) }
    ensures { Checked (graph_of g.now)
        (graph_checks (graph_of g.now) tables) (number_of result) parents.new edge.new }
{
    g.check_sizes(tables)?;
    check_edges(g, parents, edge)
}
