// The distances from a vertex by Dijkstra's method. The frontier is the word of the vertices that are reached and not settled: the nearest of them is settled next, and
// its edges lower the labels of their other ends. Each edge is looked at twice, and the frontier as often as there are vertices: O(n² + m).
#![tactic(auto)]

ghost use Rattle.std.specs.Prelude.{◌≡◌, ◌≤◌, ◌<◌, true, false, length, MatchOption};
ghost use Rattle.arithmetic.specs.Table.{at};
ghost use Rattle.graph.specs.Graph.{graph_of};
ghost use Rattle.graph.specs.Checks.{connected};
ghost use Rattle.dijkstra.specs.Steps.Relaxing.{IsWord, NearestOf, Lowered, CanRelax, Relaxed};
ghost use Rattle.dijkstra.specs.Steps.Search.{CanSearch, CanSearchLinked, Found};

use forward_star::ForwardStar;
use graph::Graph;
use path_labels::all_reached;
use vertex_set::{lowest_vertex, without_lowest};

// The label of a vertex that is not reached: more than any shortest path's length. It stays a number in place of a None, as labels are only compared.
const UNREACHED: u32 = 1 << 30;

// A vertex of the frontier with the least label. A loop, as it goes through the word's bits alone, which no slice or range of the library does.
fn nearest(frontier: u64, labels: &[u32]) -> usize
    requires { IsWord frontier × (frontier ≡ 0 → ⊥) × (64 ≤ length labels.now) }
    ensures { NearestOf frontier (at labels.now) result }
{
    let mut x = lowest_vertex(64, frontier);
    let mut least = labels[x];
    let mut left = without_lowest(64, frontier);
    while left != 0 {
        let v = lowest_vertex(64, left);
        left = without_lowest(64, left);
        let near = labels[v];
        if near < least {
            x = v;
            least = near;
        }
    }
    x
}

// Lowers the label of y to `near`, if that is less, and puts y into the frontier then.
fn relax(y: usize, near: u32, frontier: u64, labels: &mut [u32]) -> u64
    requires { (y < 64) × (64 ≤ length labels.old) }
    ensures { Lowered y near frontier labels.old result labels.new }
{
    if labels[y] <= near {
        return frontier;
    }
    labels[y] = near;
    frontier | (1u64 << y)
}

// Relaxes each edge at x, whose label is `near`; the frontier after it. The other end of an edge is the sum of its ends without x.
fn relax_edges(
    x: usize,
    near: u32,
    g: &Graph<'_>,
    star: &ForwardStar,
    frontier: u64,
    labels: &mut [u32],
) -> u64
    requires { CanRelax g.now.a.now g.now.b.now g.now.lengths.now star.now.last star.now.before x near frontier labels.old }
    ensures { Relaxed g.now.a.now g.now.b.now g.now.lengths.now x near frontier labels.old 0 result labels.new }
{
    let mut word = frontier;
    let mut k = star.last[x] as usize;
    while k > 0 {
        k -= 1;
        let e = k / 2;
        let y = g.a[e] as usize + g.b[e] as usize - x;
        word = relax(y, near + g.lengths[e], word, labels);
        k = star.before[k] as usize;
    }
    word
}

// The search, on linked arcs.
fn search(g: &Graph<'_>, start: usize, star: &ForwardStar) -> Option<[u32; 64]>
    requires { CanSearchLinked (graph_of g.now) start star.now.last star.now.before }
    ensures { MatchOption result (connected (graph_of g.now) ≡ false)
        (λ table. Found (graph_of g.now) start true table) }
{
    let mut labels = [UNREACHED; 64];
    labels[start] = 0;
    let mut frontier = 1u64 << start;
    while frontier != 0 {
        let x = nearest(frontier, &labels);
        let near = labels[x];
        frontier = frontier - (1u64 << x);
        frontier = relax_edges(x, near, g, star, frontier, &mut labels);
    }
    all_reached(g.n, &labels).then_some(labels)
}

// The distances from `start`, if every vertex can be reached.
pub fn distances_from(g: &Graph<'_>, start: usize) -> Option<[u32; 64]>
    requires { CanSearch (graph_of g.now) start }
    ensures { MatchOption result (connected (graph_of g.now) ≡ false)
        (λ table. Found (graph_of g.now) start true table) }
{
    let star = ForwardStar::link_edges(g.a, g.b);
    search(g, start, &star)
}
