// All distances of a graph by Floyd and Warshall's method, in place in the answer table.
#![tactic(auto)]

ghost use Rattle.std.specs.Prelude.{◌≡◌, true, cond, ◌+◌, ◌*◌, ◌≤◌, ◌<◌, min, eqb, length, set};
ghost use Rattle.arithmetic.specs.Steps.Table.{cell};
ghost use Rattle.arithmetic.specs.Steps.Matrix.{filled};
ghost use Rattle.graph.specs.Graph.{joined, edge_length, graph_of};
ghost use Rattle.graph.specs.Checks.{vertices_ok, lists_ok, edges_ok, lengths_ok};
ghost use Rattle.graph.specs.Distance.{via, distance};
ghost use Rattle.floyd_warshall.specs.Steps.FloydWarshall.{Bounded, shorter};

use graph::Graph;
use tables::fill_table;

// Stands for "no path": more than any shortest path's length. It stays a number in place of a None: the table is the caller's, and the definition `via` has it.
const FAR: u32 = 429_496_700;

// Stores v in row i, column j.
#[tactic(auto, using(arithmetic::proofs::Laws::Table::cell_below))]
fn put(n: usize, i: usize, j: usize, v: u32, out: &mut [u32])
    requires { (i < n) × (j < n) × (n * n ≤ length out.old) }
    ensures { out.new ≡ set out.old (i * n + j) v }
{
    out[i * n + j] = v;
}

// The edges, both ways.
fn put_edges(g: &Graph<'_>, out: &mut [u32])
    requires { (lists_ok (graph_of g.now) ≡ true)
        × (edges_ok (graph_of g.now) ≡ true) × (g.now.n * g.now.n ≤ length out.old) }
    ensures { out.new ≡ filled g.now.n
        (λ i j. cond (joined (graph_of g.now) i j)
        (edge_length (graph_of g.now) i j) (cell g.now.n out.old i j))
        out.old }
{
    for e in 0..g.a.len() {
        let x = g.a[e] as usize;
        let y = g.b[e] as usize;
        let s = g.lengths[e];
        put(g.n, x, y, s, out);
        put(g.n, y, x, s, out);
    }
}

// From each vertex to itself, 0.
fn zero_diagonal(n: usize, out: &mut [u32])
    requires { n * n ≤ length out.old }
    ensures { out.new ≡ filled n (λ i j. cond (eqb i j) 0 (cell n out.old i j)) out.old }
{
    for i in 0..n {
        put(n, i, i, 0, out);
    }
}

// The paths of at most one edge.
fn start(g: &Graph<'_>, out: &mut [u32])
    requires { (lists_ok (graph_of g.now) ≡ true)
        × (edges_ok (graph_of g.now) ≡ true) × (g.now.n * g.now.n ≤ length out.old) }
    ensures { out.new
        ≡ filled g.now.n (via (graph_of g.now) 0) out.old }
{
    fill_table(g.n, FAR, out);
    put_edges(g, out);
    zero_diagonal(g.n, out);
}

// Row i of phase k.
fn relax_row(n: usize, k: usize, i: usize, out: &mut [u32])
    requires { (k < n) × (i < n) × Bounded n out.old }
    ensures { out.new ≡ filled n
        (λ x y. cond (eqb x i) (shorter (cell n out.old) k x y) (cell n out.old x y)) out.old }
{
    let row = i * n;
    let by = k * n;
    let first = out[row + k];
    for j in 0..n {
        let p = row + j;
        let second = out[by + j];
        out[p] = out[p].min(first + second);
    }
}

// Phase k: paths may now pass vertex k. Row k and column k do not move in it.
fn phase(n: usize, k: usize, out: &mut [u32])
    requires { (k < n) × Bounded n out.old × (cell n out.old k k ≡ 0) }
    ensures { out.new ≡ filled n (shorter (cell n out.old) k) out.old }
{
    for i in 0..n {
        relax_row(n, k, i, out);
    }
}

// Fills the first n × n places with the distances, row i from place i × n, and leaves the rest.
pub fn fill_distances(g: &Graph<'_>, out: &mut [u32])
    requires { (vertices_ok g.now.n ≡ true) × (lists_ok (graph_of g.now) ≡ true)
        × (edges_ok (graph_of g.now) ≡ true) × (lengths_ok (graph_of g.now) ≡ true)
        × (g.now.n * g.now.n ≤ length out.old) }
    ensures { out.new
        ≡ filled g.now.n (distance (graph_of g.now)) out.old }
{
    start(g, out);
    for k in 0..g.n {
        phase(g.n, k, out);
    }
}
