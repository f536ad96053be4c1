// Pricing: the edge that enters the tree.
#![tactic(auto)]

ghost use Rattle.std.specs.Prelude.{◌≡◌, ℕ, ◌+◌, ◌*◌, ◌^◌, ◌<◌, ◌≤◌, min, length};
ghost use Rattle.arithmetic.specs.Table.{at};
ghost use Rattle.arithmetic.specs.Steps.Table.{EachBelow};
ghost use Rattle.graph.specs.Graph.{graph_of};
ghost use Rattle.graph.specs.Steps.Accepted.{Accepted};
ghost use Rattle.pricing.specs.Steps.Entering.{EdgeFits, Downhill, Scaled, AllScaled, scaled_violation, half_unit, Found, Entering};

use graph::Graph;
use tree_pivot::Basis;

// Edges are looked at in blocks of so many.
const BLOCK: usize = 64;

// A potential of 1, scaled: there is room beside it for flows, by which edges that are violated equally are told apart.
const UNIT: u64 = 1 << 36;

// More than flows make up, and less than a violation.
const HALF: u64 = 1 << 35;

// An edge from s to t.
#[derive(Clone, Copy)]
pub struct Edge {
    pub s: usize,
    pub t: usize,
    pub long: u32,
}

// Edge e, from its end with the higher potential.
pub fn downhill_edge(g: &Graph<'_>, potential: &[u32; 64], e: usize) -> Edge
    requires { EdgeFits (graph_of g.now) e }
    ensures { Downhill (graph_of g.now) potential.now e result.s result.t result.long }
{
    let x = g.a[e] as usize;
    let y = g.b[e] as usize;
    let long = g.lengths[e];
    if potential[y] < potential[x] {
        Edge { s: x, t: y, long }
    } else {
        Edge { s: y, t: x, long }
    }
}

// How much more flow goes up from a vertex than down. It decides between equal violations alone, so nothing but its bound is promised of it.
fn tie_break(supply: u64, demand: u64) -> u64
    ensures { result < 2 ^ 34 }
{
    (1u64 << 33).wrapping_add(supply).wrapping_sub(demand) % (1 << 34)
}

// A potential in units of 2 ^ 36, and beside it the flow.
fn scaled(potential: u32, supply: u64, demand: u64) -> u64
    requires { potential < 2 ^ 24 }
    ensures { Scaled potential result }
{
    UNIT * potential as u64 + tie_break(supply, demand)
}

// The scaled potential of every vertex.
fn scale_potential(n: usize, basis: &Basis, out: &mut [u64; 64])
    requires { (n ≤ 64) × (length out.old ≡ 64) × EachBelow n (at basis.now.potential) (2 ^ 24) }
    ensures { AllScaled n basis.now.potential out.new }
{
    let subtrees = &basis.subtrees;
    for x in 0..n {
        out[x] = scaled(basis.potential[x], subtrees.supply[x], subtrees.demand[x]);
    }
}

// The scaled violation of edge e: what the scaled potential changes along it beyond its scaled length.
fn scaled_violation(g: &Graph<'_>, potential: &[u64; 64], e: usize) -> u64
    requires { EdgeFits (graph_of g.now) e }
    ensures { result ≡ scaled_violation (graph_of g.now) potential.now e }
{
    let x = g.a[e] as usize;
    let y = g.b[e] as usize;
    let change = potential[x].abs_diff(potential[y]);
    change.saturating_sub(UNIT * g.lengths[e] as u64)
}

// Where the block that begins at edge `first` of m ends.
fn block_end(first: usize, m: usize) -> usize
    requires { first ≤ 512 }
    ensures { result ≡ min (first + 64) m }
{
    m.min(first + BLOCK)
}

// The edge of a block with the largest scaled violation, if one there is violated.
fn most_violated(g: &Graph<'_>, potential: &[u64; 64], block: usize) -> Option<usize>
    requires { Accepted (graph_of g.now) × (64 * block < length g.now.a.now) }
    ensures { Found (length g.now.a.now) (scaled_violation (graph_of g.now) potential.now)
        half_unit (64 * block) (64 * block + 64) result }
{
    let mut found = None;
    let mut most = HALF;
    let start = BLOCK * block;
    let end = block_end(start, g.a.len());
    for e in start..end {
        let here = scaled_violation(g, potential, e);
        if most < here {
            found = Some(e);
            most = here;
        }
    }
    found
}

// The same of the first block that has a violated edge, of the blocks from `first` to before `last`.
fn most_violated_from(
    g: &Graph<'_>,
    potential: &[u64; 64],
    first: usize,
    last: usize,
) -> Option<usize>
    requires { Accepted (graph_of g.now) × ((k : ℕ) → k < last → 64 * k < length g.now.a.now) }
    ensures { Found (length g.now.a.now) (scaled_violation (graph_of g.now) potential.now)
        half_unit (64 * first) (64 * last) result }
{
    for block in first..last {
        if let Some(e) = most_violated(g, potential, block) {
            return Some(e);
        }
    }
    None
}

// The block behind that of edge e.
pub fn next_block(e: usize) -> usize
    requires { e < 512 }
    ensures { 64 * result < e + 65 }
{
    e / BLOCK + 1
}

// The next edge to enter, by Dantzig's rule in blocks: of the first block from `block` on, round all of them, that has a violated edge, the one that the potential
// violates the most; none if it violates none. Of equal violations the one with the most flow up from its higher end, less that from its lower end, is taken.
pub fn entering_edge(g: &Graph<'_>, basis: &Basis, block: usize) -> Option<usize>
    requires { Accepted (graph_of g.now) × (64 * block < length g.now.a.now + 64)
        × EachBelow g.now.n (at basis.now.potential) (2 ^ 24) }
    ensures { Entering (graph_of g.now) basis.now.potential result }
{
    let mut scaled = [0u64; 64];
    scale_potential(g.n, basis, &mut scaled);
    let blocks = g.a.len().div_ceil(BLOCK);
    match most_violated_from(g, &scaled, block, blocks) {
        Some(e) => Some(e),
        None => most_violated_from(g, &scaled, 0, block),
    }
}
