// The figures of a tree: imbalance, cost and potential, from tables. `above` holds the length from each vertex to its parent, `supply` and
// `demand` the masses of mu and nu below it, `masks` the words of the vertices below each.
// Tables of 64 entries stand for lists of n: a rule of the project, no heap. n stands beside them, since by each clause a table may be longer.
#![tactic(auto)]

ghost use Rattle.std.specs.Prelude.{◌≡◌, ◌++◌, ◌*◌, ◌^◌, ◌≤◌, ◌<◌, pos, length, drop, get_or};
ghost use Rattle.std.proofs.Math.IntN.{sub_ℕ};
ghost use Rattle.std.specs.Int.Signed.{mag};
ghost use Rattle.arithmetic.specs.Sum.{pick};
ghost use Rattle.arithmetic.specs.Steps.Fill.{Filled};
ghost use Rattle.arithmetic.specs.Steps.Product.{gap};
ghost use Rattle.arithmetic.specs.Table.{at, tab};
ghost use Rattle.arithmetic.specs.Steps.Table.{EachBelow};
ghost use Rattle.vertex_set.specs.Steps.Sets.{VertexSets};
ghost use Rattle.tree_figures.specs.Steps.Tables.{Short, Moderate, cost_from, rises, falls, slope, potential_from};

use numbers::{difference, gap, pick};
use subtree_sums::word_heights;

// the imbalance of each vertex
pub fn write_imbalance(n: usize, supply: &[u64], demand: &[u64], out: &mut [i32])
    requires n_in_bounds { (n ≤ length supply.now) × ((n ≤ length demand.now) × (n ≤ length out.old)) }
    requires masses { EachBelow n (at supply.now) (2 ^ 31) × EachBelow n (at demand.now) (2 ^ 31) }
    ensures { out.new ≡ tab n (λ x. sub_ℕ (at supply.now x) (at demand.now x)) ++ drop n out.old }
{
    for x in 0..n {
        out[x] = difference(supply[x], demand[x]);
    }
}

// the tree cost
pub fn tree_cost(n: usize, root: usize, above: &[u32], supply: &[u64], demand: &[u64]) -> u64
    requires n_bound { (n ≤ 64) × ((n ≤ length above.now) × ((n ≤ length supply.now) × (n ≤ length demand.now))) }
    requires lengths { Short n root (at above.now) }
    requires masses { EachBelow n (at supply.now) (2 ^ 31) × EachBelow n (at demand.now) (2 ^ 31) }
    ensures { result ≡ cost_from n root (at above.now) (at supply.now) (at demand.now) }
{
    let mut cost: u64 = 0;
    for x in 0..n {
        if x != root {
            cost += above[x] as u64 * gap(supply[x], demand[x]);
        }
    }
    cost
}

// what the potential rises by to each vertex from its parent, and what it falls by: the length between them or 0, and 0 at the root
fn write_slopes(
    n: usize,
    root: usize,
    above: &[u32],
    imbalance: &[i32],
    rising: &mut [u32],
    falling: &mut [u32],
)
    requires n_in_bounds { (n ≤ length above.now) × ((n ≤ length imbalance.now) × Moderate n imbalance.now) }
    requires room { (n ≤ length rising.old) × (n ≤ length falling.old) }
    ensures up { Filled n (slope root (at above.now) (λ x. rises (get_or imbalance.now x (pos 0)))) rising.old rising.new }
    ensures down { Filled n (slope root (at above.now) (λ x. falls (get_or imbalance.now x (pos 0)))) falling.old falling.new }
{
    for x in 0..n {
        let length = pick(x != root, above[x]);
        rising[x] = pick(0 < imbalance[x], length);
        falling[x] = pick(imbalance[x] < 0, length);
    }
}

// more than the lengths of a tree: heights from here stay above 0
const GROUND: u32 = 1 << 23;

// the potential of each vertex, from the imbalances and the words: what it rises by to the vertices that it is below, less what it falls by
pub fn write_potential(
    n: usize,
    root: usize,
    masks: &[u64],
    above: &[u32],
    imbalance: &[i32],
    out: &mut [i32],
)
    requires n_bound { (n ≤ 64) × (n ≤ length out.old) }
    requires long { VertexSets n masks.now × ((n ≤ length above.now) × (n ≤ length imbalance.now)) }
    requires lengths { Short n root (at above.now) × Moderate n imbalance.now }
    ensures { out.new
        ≡ tab n (potential_from n root (at masks.now) (at above.now) (λ x. get_or imbalance.now x (pos 0)))
        ++ drop n out.old }
{
    let mut rising = [0u32; 64];
    let mut falling = [0u32; 64];
    write_slopes(n, root, above, imbalance, &mut rising, &mut falling);
    let heights = word_heights(n, GROUND, masks, &rising, &falling);
    for y in 0..n {
        out[y] = difference(heights[y] as u64, GROUND as u64);
    }
}
