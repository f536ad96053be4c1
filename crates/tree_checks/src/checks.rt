// Checks 8 to 10: the parents of a tree.
ghost use Rattle.std.specs.Prelude.{◌≡◌, true, ◌||◌, ◌≤◌, ◌<◌, eqb, length};
ghost use Rattle.arithmetic.specs.Bools.{all};
ghost use Rattle.arithmetic.specs.Table.{at};
ghost use Rattle.arithmetic.specs.Refusal.{refusal};
ghost use Rattle.refusals.specs.Refusals.{number_of};
ghost use Rattle.graph.specs.Graph.{graph_of};
ghost use Rattle.graph.specs.Checks.{lists_ok, edges_ok, marked};
ghost use Rattle.tree_checks.specs.Checks.{parents_ok, tree_edges_ok, tree_checks};
ghost use Rattle.tree_checks.specs.Steps.ParentEdges.{unmarked, Noted, NotedTo, Lengths};

use crate::chains;
use graph::Graph;
use refusals::Refusal;

// check 8
pub fn parents_ok(n: usize, root: usize, parents: &[u32]) -> bool
    requires { n ≤ length parents.now }
    ensures { result ≡ parents_ok n root (at parents.now) }
{
    if root >= n {
        return false;
    }
    if parents[root] as usize != root {
        return false;
    }
    for x in 0..n {
        let y = parents[x] as usize;
        if y >= n {
            return false;
        }
        if y == x {
            if x != root {
                return false;
            }
        }
    }
    true
}

// notes an edge of the given length between x and y, if y is the parent of x
fn note(parents: &[u32], x: u32, y: u32, size: u32, above: &mut [u32], joined: &mut [bool])
    requires { (x < length parents.now) × ((x < length above.old) × (x < length joined.old)) }
    ensures { Noted (at parents.now) x y size above.old above.new joined.old joined.new }
{
    let at = x as usize;
    if parents[at] == y {
        above[at] = size;
        joined[at] = true;
    }
}

// notes every edge between a vertex and its parent, in one pass over the edges
fn note_edges(g: &Graph<'_>, parents: &[u32], above: &mut [u32], joined: &mut [bool])
    requires n_in_bounds { (g.now.n ≤ length parents.now) × ((g.now.n ≤ length above.old) × (g.now.n ≤ length joined.old)) }
    requires lists { (length g.now.a.now ≤ 512) × ((length g.now.b.now ≡ length g.now.a.now) × (length g.now.lengths.now ≡ length g.now.a.now)) }
    requires order { edges_ok (graph_of g.now) ≡ true }
    requires fresh { unmarked joined.old ≡ true }
    ensures { NotedTo (graph_of g.now) (at parents.now)
        (length g.now.a.now) above.old above.new joined.old joined.new }
{
    for e in 0..g.a.len() {
        let s = g.a[e];
        let t = g.b[e];
        let size = g.lengths[e];
        note(parents, s, t, size, above, joined);
        note(parents, t, s, size, above, joined);
    }
}

// whether every vertex but the root is marked
fn all_joined(n: usize, root: usize, joined: &[bool]) -> bool
    requires { n ≤ length joined.now }
    ensures { result ≡ all n (λ x. eqb x root || marked joined.now x) }
{
    for x in 0..n {
        if x != root {
            if !joined[x] {
                return false;
            }
        }
    }
    true
}

// check 9; fills in the length of the edge from each vertex but the root to its parent
pub fn tree_edges_ok(g: &Graph<'_>, root: usize, parents: &[u32], above: &mut [u32]) -> bool
    requires n_bound { (g.now.n ≤ 64) × ((g.now.n ≤ length parents.now) × (g.now.n ≤ length above.old)) }
    requires graph { (lists_ok (graph_of g.now) ≡ true) × (edges_ok (graph_of g.now) ≡ true) }
    ensures answer { result ≡ tree_edges_ok (graph_of g.now) root (at parents.now) }
    ensures table { result ≡ true → Lengths (graph_of g.now) root (at parents.now)
        above.old above.new }
{
    let mut joined = [false; 64];
    note_edges(g, parents, above, &mut joined);
    all_joined(g.n, root, &joined)
}

// checks 8 to 10; where they accept the tree, `above` has the length of the edge from each vertex but the root to its parent
#[tactic(auto, unfolding(arithmetic::specs::Refusal::refusal, crate::specs::Checks::tree_checks))]
pub fn check_tree(
    g: &Graph<'_>,
    root: usize,
    parents: &[u32],
    above: &mut [u32],
) -> Result<(), Refusal>
    requires n_bound { (g.now.n ≤ 64) × ((g.now.n ≤ length parents.now) × (g.now.n ≤ length above.old)) }
    requires graph { (lists_ok (graph_of g.now) ≡ true) × (edges_ok (graph_of g.now) ≡ true) }
    ensures answer { number_of result ≡ refusal (tree_checks (graph_of g.now) root (at parents.now)) }
    ensures table { number_of result ≡ 0 → Lengths (graph_of g.now) root (at parents.now)
        above.old above.new }
{
    if !parents_ok(g.n, root, parents) {
        return Err(Refusal::Parents);
    }
    if !tree_edges_ok(g, root, parents, above) {
        return Err(Refusal::TreeEdges);
    }
    if !chains::chains_reach(g.n, root, parents) {
        return Err(Refusal::Chains);
    }
    Ok(())
}
