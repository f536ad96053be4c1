// Shortest paths from a vertex: Bellman and Ford's method, with Yen's sweeps up and down in turn. One search from vertex 0 gives check 5, the distances from it and
// the tree that the search for a best tree starts from.
#![tactic(auto)]

ghost use Rattle.graph.specs.Graph.{graph_of};
ghost use Rattle.path_labels.specs.Steps.ShortestPathTree.{CanFindPaths, Searched};

use graph::Graph;

// The tree of shortest paths from `start`; says whether every vertex can be reached.
pub fn shortest_path_tree(
    g: &Graph<'_>,
    start: usize,
    parents: &mut [u32],
    edge: &mut [u32],
    labels: &mut [u32],
) -> bool
    requires { CanFindPaths (graph_of g.now) start parents.old edge.old labels.old }
    ensures { Searched (graph_of g.now) start result
        parents.new edge.new labels.new }
{
    path_labels::initialize(start, parents, labels);
    path_labels::sweep_up(g, parents, edge, labels);
    while path_labels::round(g, parents, edge, labels) {}
    path_labels::all_reached(g.n, labels)
}
