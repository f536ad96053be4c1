// The first basis of the search, from a spanning tree of the graph.
#![tactic(auto)]

ghost use Rattle.std.specs.Prelude.{◌≡◌, List, ℕ, ◌+◌, ◌*◌, ◌^◌, ◌≤◌, ◌<◌, eqb, cond, length};
ghost use Rattle.arithmetic.specs.Table.{at};
ghost use Rattle.rooted_tree.specs.Steps.Subtotal.{subtotal};
ghost use Rattle.graph.specs.Graph.{graph};
ghost use Rattle.arithmetic.specs.Steps.Fill.{Filled};
ghost use Rattle.tree_pivot.specs.Steps.Basis.{IsBasis, Places, tables_of};
ghost use Rattle.first_basis.specs.Steps.Perturbed.{supply_of, demand_of, perturbed};
ghost use Rattle.first_basis.specs.Steps.FirstBasis.{CanMeasure, LengthsAbove, CanPerturb, CanWeigh, CanStart, StartInput, subtree_mask};

mod potential;

use tree_pivot::{Basis, Subtrees};

// The length of the edge above each vertex.
fn lengths_above(n: usize, lengths: &[u32], edge: &[u32; 64], out: &mut [u32; 64])
    requires { CanMeasure n lengths.now edge.now out.old }
    ensures { LengthsAbove lengths.now edge.now out.old out.new n }
{
    for x in 1..n {
        out[x] = lengths[edge[x] as usize];
    }
}

// 64 times the mass of y and some grains: `first` at 0, `rest` elsewhere.
fn perturbed(first: u64, rest: u64, y: usize, mass: u64) -> u64
    requires { (mass ≤ 2 ^ 24) × (first ≤ 64) × (rest ≤ 64) }
    ensures { result ≡ 64 * mass + cond (eqb y 0) first rest }
{
    if y == 0 {
        64 * mass + first
    } else {
        64 * mass + rest
    }
}

// The perturbed mass of each vertex.
fn perturb(n: usize, first: u64, rest: u64, masses: &[u64], out: &mut [u64; 64])
    requires { CanPerturb n first rest masses.now out.old }
    ensures { Filled n (perturbed first rest (at masses.now)) out.old out.new }
{
    for y in 0..n {
        out[y] = perturbed(first, rest, y, masses[y]);
    }
}

// The perturbed masses below each vertex, and the masks of the subtrees.
fn fill_subtrees(n: usize, parents: &[u32; 64], mu: &[u64], nu: &[u64], subtrees: &mut Subtrees)
    requires { CanWeigh n parents.now mu.now nu.now subtrees.old.supply subtrees.old.demand subtrees.old.masks }
    ensures first { Filled n (subtotal (at parents.now) n (supply_of (at mu.now))) subtrees.old.supply subtrees.new.supply }
    ensures second { Filled n (subtotal (at parents.now) n (demand_of n (at nu.now))) subtrees.old.demand subtrees.new.demand }
    ensures bits { Filled n (subtree_mask n (at parents.now)) subtrees.old.masks subtrees.new.masks }
{
    let mut sent = [0u64; 64];
    let mut taken = [0u64; 64];
    let mut depth = [0u32; 64];
    perturb(n, 0, 1, mu, &mut sent);
    perturb(n, n as u64 - 1, 0, nu, &mut taken);
    subtree_sums::subtree_tables(
        n,
        0,
        parents,
        &sent,
        &taken,
        &mut depth,
        &mut subtrees.masks,
        &mut subtrees.supply,
        &mut subtrees.demand,
    );
}

// Fills in what a basis has beside the parents of its spanning tree, from the edges to them: in place, as a basis is too large to be moved for nothing.
pub fn fill_basis(
    n: usize,
    lengths: &[u32],
    mu: &[u64],
    nu: &[u64],
    edge: &[u32; 64],
    basis: &mut Basis,
)
    requires { StartInput n lengths.now mu.now nu.now basis.old.parents edge.now × Places (tables_of basis.old) }
    ensures tree { basis.new.parents ≡ basis.old.parents }
    ensures basis { (a b : List ℕ)
        → CanStart (graph n a b lengths.now) mu.now nu.now basis.old.parents edge.now
        → IsBasis (graph n a b lengths.now) (supply_of (at mu.now)) (demand_of n (at nu.now)) (tables_of basis.new) }
{
    lengths_above(n, lengths, edge, &mut basis.above);
    fill_subtrees(n, &basis.parents, mu, nu, &mut basis.subtrees);
    potential::potential(
        n,
        &basis.parents,
        &basis.above,
        &basis.subtrees,
        &mut basis.potential,
    );
}

// The basis of a spanning tree, given by the parents and the edges to them.
pub fn tree_basis(
    n: usize,
    lengths: &[u32],
    mu: &[u64],
    nu: &[u64],
    parents: &[u32; 64],
    edge: &[u32; 64],
) -> Basis
    requires { StartInput n lengths.now mu.now nu.now parents.now edge.now }
    ensures tree { result.parents ≡ parents.now }
    ensures basis { (a b : List ℕ)
        → CanStart (graph n a b lengths.now) mu.now nu.now parents.now edge.now
        → IsBasis (graph n a b lengths.now) (supply_of (at mu.now)) (demand_of n (at nu.now)) (tables_of result) }
{
    let mut basis = Basis {
        parents: *parents,
        above: [0; 64],
        subtrees: Subtrees {
            supply: [0; 64],
            demand: [0; 64],
            masks: [0; 64],
        },
        potential: [0; 64],
    };
    fill_basis(n, lengths, mu, nu, edge, &mut basis);
    basis
}
