// The ratio test: the edge that leaves the tree, where another enters.
#![tactic(auto)]

ghost use Rattle.std.specs.Prelude.{◌≡◌, ◌≤◌, ◌<◌, ◌↔◌, IsTrue};
ghost use Rattle.arithmetic.specs.Table.{at};
ghost use Rattle.arithmetic.specs.Steps.Mask.{bit};
ghost use Rattle.tree_pivot.specs.Steps.Basis.{tables_of};
ghost use Rattle.tree_pivot.specs.Steps.PathWalk.{CanWalk};
ghost use Rattle.ratio_test.specs.Steps.CommonAncestor.{CanMeet, LowestCommonAncestor};
ghost use Rattle.ratio_test.specs.Steps.Leaving.{FlowUp, PathLeast, IsLess, CanLeave, Exchanged};

use pricing::Edge;
use tree_pivot::{Basis, Exchange};

// Whether y is in the subtree with the given mask.
fn in_subtree(mask: u64, y: usize) -> bool
    requires { y < 64 }
    ensures { result ≡ bit mask y }
{
    mask >> y & 1 == 1
}

// The lowest common ancestor of s and t: climb from s until t is below.
fn lowest_common_ancestor(n: usize, basis: &Basis, s: usize, t: usize) -> usize
    requires { CanMeet n basis.now.parents basis.now.subtrees.masks s t }
    ensures { LowestCommonAncestor n (at basis.now.parents) s t result }
{
    let mut x = s;
    while !in_subtree(basis.subtrees.masks[x], t) {
        x = basis.parents[x] as usize;
    }
    x
}

// A vertex of a path and the flow up from it.
#[derive(Clone, Copy)]
struct PathFlow {
    vertex: usize,
    flow: u64,
}

// The flow up from x, if there is one.
fn flow_up(x: usize, more: u64, less: u64) -> Option<PathFlow>
    ensures { FlowUp x more less result }
{
    if less < more {
        Some(PathFlow {
            vertex: x,
            flow: more - less,
        })
    } else {
        None
    }
}

// Whether a flow is less than another, where none is more than any.
fn is_less(flow: Option<PathFlow>, other: Option<PathFlow>) -> bool
    ensures { IsTrue result ↔ IsLess flow other }
{
    match flow {
        None => false,
        Some(f) => match other {
            None => true,
            Some(g) => f.flow < g.flow,
        },
    }
}

// The least flow up from a vertex on the path from a vertex to one above it, the last excluded, if there is one.
fn least_flow(
    n: usize,
    parents: &[u32; 64],
    from: usize,
    to: usize,
    more: &[u64; 64],
    less: &[u64; 64],
) -> Option<PathFlow>
    requires { (n ≤ 64) × CanWalk n 0 (at parents.now) from to }
    ensures { PathLeast n (at parents.now) (at more.now) (at less.now) from to result }
{
    let mut least: Option<PathFlow> = None;
    let mut x = from;
    while x != to {
        let up = flow_up(x, more[x], less[x]);
        if is_less(up, least) {
            least = up;
        }
        x = parents[x] as usize;
    }
    least
}

// The exchange where an edge enters: the edge with the least flow against the cycle leaves.
pub fn exchange(n: usize, edge: Edge, basis: &Basis) -> Exchange
    requires { let t = tables_of basis.now in CanLeave n t.parents t.supply t.demand t.masks edge.s edge.t }
    ensures { (result.long ≡ edge.long)
        × Exchanged n (at basis.now.parents) (at basis.now.subtrees.supply) (at basis.now.subtrees.demand)
        edge.s edge.t result.a result.b result.leaving result.ancestor result.rises }
{
    let ancestor = lowest_common_ancestor(n, basis, edge.s, edge.t);
    let subtrees = &basis.subtrees;
    let up = least_flow(
        n,
        &basis.parents,
        edge.s,
        ancestor,
        &subtrees.supply,
        &subtrees.demand,
    );
    let down = least_flow(
        n,
        &basis.parents,
        edge.t,
        ancestor,
        &subtrees.demand,
        &subtrees.supply,
    );
    if is_less(down, up) {
        Exchange {
            a: edge.t,
            b: edge.s,
            leaving: down.unwrap().vertex,
            ancestor,
            long: edge.long,
            rises: true,
        }
    } else {
        Exchange {
            a: edge.s,
            b: edge.t,
            leaving: up.unwrap().vertex,
            ancestor,
            long: edge.long,
            rises: false,
        }
    }
}
