// Climbs up the parents of a rooted tree: depths, and the masks of the subtrees.
ghost use Rattle.std.specs.Prelude.{◌≡◌, ◌^◌, ◌≤◌, ◌<◌, length, set};
ghost use Rattle.std.specs.Int.Bits.{bit_or};
ghost use Rattle.arithmetic.specs.Table.{at};
ghost use Rattle.arithmetic.specs.Mask.{mask};
ghost use Rattle.rooted_tree.specs.Chain.{below, depth};
ghost use Rattle.rooted_tree.specs.Steps.Rooted.{Rooted};
ghost use Rattle.arithmetic.specs.Steps.Fill.{Filled};
ghost use Rattle.tree_walks.specs.Steps.Walk.{WalkedUp};

// sets y's bit in the mask of x
fn mark(x: usize, y: usize, masks: &mut [u64])
    requires { (x < length masks.old) × (y < 64) }
    ensures { masks.new ≡ set masks.old x (bit_or (at masks.old x) (2 ^ y)) }
{
    masks[x] |= 1u64 << y;
}

// climbs from y to the root: sets y's bit in the mask of each x that y is below, and changes no other bit. Returns the steps: the depth of y.
pub fn walk_up(n: usize, root: usize, parents: &[u32], y: usize, masks: &mut [u64]) -> u32
    requires n_bound { (n ≤ 64) × ((n ≤ length parents.now) × ((n ≤ length masks.old) × (y < n))) }
    requires tree { Rooted n root (at parents.now) }
    ensures steps { result ≡ depth (at parents.now) root n y }
    ensures bits { WalkedUp n (at parents.now) y masks.old masks.new }
{
    let mut x = y;
    let mut d: u32 = 0;
    loop {
        mark(x, y, masks);
        if x == root {
            return d;
        }
        x = parents[x] as usize;
        d += 1;
    }
}

// the depth of each vertex and its mask, the vertices below it, by one climb from each vertex
pub fn subtree_masks(n: usize, root: usize, parents: &[u32], depths: &mut [u32], masks: &mut [u64])
    requires n_bound { (n ≤ 64) × ((n ≤ length parents.now) × ((n ≤ length depths.old) × (n ≤ length masks.old))) }
    requires tree { Rooted n root (at parents.now) }
    ensures steps { Filled n (depth (at parents.now) root n) depths.old depths.new }
    ensures bits { Filled n (λ x. mask n (λ y. below (at parents.now) n y x)) masks.old masks.new }
{
    masks[..n].fill(0);
    for y in 0..n {
        depths[y] = walk_up(n, root, parents, y, masks);
    }
}
