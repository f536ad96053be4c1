// Sums on a tree: the masses below each vertex, by the depths, and what is raised and lowered above one, by the words.
#![tactic(auto)]

ghost use Rattle.std.specs.Prelude.{◌≡◌, ◌^◌, ◌≤◌, ◌<◌, length};
ghost use Rattle.arithmetic.specs.Sum.{sum};
ghost use Rattle.arithmetic.specs.Table.{at};
ghost use Rattle.arithmetic.specs.Mask.{mask};
ghost use Rattle.arithmetic.specs.Steps.Fill.{Filled};
ghost use Rattle.vertex_set.specs.Steps.Sets.{VertexSets};
ghost use Rattle.rooted_tree.specs.Chain.{below, depth};
ghost use Rattle.rooted_tree.specs.Steps.Rooted.{Rooted};
ghost use Rattle.rooted_tree.specs.Steps.Subtotal.{subtotal};
ghost use Rattle.subtree_sums.specs.Steps.Sums.{Light, Layered, Slopes, Heights, SubtreeRoom};

use tree_walks::walk::subtree_masks;
use vertex_set::{lowest_vertex, shift_word};

// The first n numbers of a list. The library's `copy_from_slice` calls memmove here, and the archives need memcpy and memset alone.
fn copy(n: usize, from: &[u64], to: &mut [u64])
    requires { (n ≤ length from.now) × (n ≤ length to.old) }
    ensures { Filled n (at from.now) to.old to.new }
{
    for x in 0..n {
        to[x] = from[x];
    }
}

// by falling depth each vertex adds its two masses to those of its parent: so they become the masses below each vertex
fn sum_below(n: usize, parents: &[u32], depths: &[u32], supply: &mut [u64], demand: &mut [u64])
    requires n_bound { (n ≤ 64) × ((n ≤ length parents.now) × Layered n (at parents.now) depths.now) }
    requires masses { Light n supply.old × Light n demand.old }
    ensures first { Filled n (subtotal (at parents.now) n (at supply.old)) supply.old supply.new }
    ensures second { Filled n (subtotal (at parents.now) n (at demand.old)) demand.old demand.new }
{
    let layers = vertex_set::layers(n, depths);
    for d in (1..n).rev() {
        let mut left = layers[d];
        while left != 0 {
            let x = lowest_vertex(n, left);
            let z = parents[x] as usize;
            supply[z] += supply[x];
            demand[z] += demand[x];
            left -= 1u64 << x;
        }
    }
}

// for each vertex the ground, raised and lowered for each vertex whose word holds it
pub fn word_heights(
    n: usize,
    ground: u32,
    masks: &[u64],
    rising: &[u32],
    falling: &[u32],
) -> [u32; 64]
    requires n_bound { (n ≤ 64) × VertexSets n masks.now }
    requires slopes { Slopes n ground rising.now falling.now }
    ensures { (length result ≡ 64) × Heights n ground (at masks.now) (at rising.now) (at falling.now) (at result) }
{
    let mut heights = [ground; 64];
    for x in 0..n {
        shift_word(
            n,
            masks[x],
            0 < rising[x],
            rising[x] + falling[x],
            &mut heights,
        );
    }
    heights
}

// the depths of all vertices and the words below them, by one climb from each, and the masses below them
pub fn subtree_tables(
    n: usize,
    root: usize,
    parents: &[u32],
    mu: &[u64],
    nu: &[u64],
    depths: &mut [u32],
    masks: &mut [u64],
    supply: &mut [u64],
    demand: &mut [u64],
)
    requires n_bound { (n ≤ 64) × ((n ≤ length parents.now) × (n ≤ length depths.old)) }
    requires tree { Rooted n root (at parents.now) }
    requires places { SubtreeRoom n masks.old supply.old demand.old }
    requires masses { (n ≤ length mu.now) × ((n ≤ length nu.now) × ((sum n (at mu.now) < 2 ^ 64) × (sum n (at nu.now) < 2 ^ 64))) }
    ensures filled { Filled n (depth (at parents.now) root n) depths.old depths.new }
    ensures bits { Filled n (λ x. mask n (λ y. below (at parents.now) n y x)) masks.old masks.new }
    ensures first { Filled n (subtotal (at parents.now) n (at mu.now)) supply.old supply.new }
    ensures second { Filled n (subtotal (at parents.now) n (at nu.now)) demand.old demand.new }
{
    subtree_masks(n, root, parents, depths, masks);
    copy(n, mu, supply);
    copy(n, nu, demand);
    sum_below(n, parents, depths, supply, demand);
}
