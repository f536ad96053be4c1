// The potential of a tree.
ghost use Rattle.std.specs.Prelude.{◌≡◌, ◌<◌, length};
ghost use Rattle.arithmetic.specs.Steps.Fill.{Filled};
ghost use Rattle.first_basis.specs.Steps.TreePotential.{HasPotential, potential_at};

use tree_pivot::Subtrees;

// The potential of the root.
const OFFSET: u32 = 1 << 23;

// The potential of y: the lengths up to the root, added where the flow goes up and taken away elsewhere.
fn potential_of(
    n: usize,
    parents: &[u32; 64],
    above: &[u32; 64],
    subtrees: &Subtrees,
    y: usize,
) -> u32
    requires { HasPotential n parents.now above.now subtrees.now.supply subtrees.now.demand × (y < n) }
    ensures { result ≡ potential_at n parents.now above.now subtrees.now.supply subtrees.now.demand y }
{
    let mut u = OFFSET;
    let mut x = y;
    while x != 0 {
        if subtrees.demand[x] < subtrees.supply[x] {
            u += above[x];
        } else {
            u -= above[x];
        }
        x = parents[x] as usize;
    }
    u
}

// The potential of every vertex.
pub fn potential(
    n: usize,
    parents: &[u32; 64],
    above: &[u32; 64],
    subtrees: &Subtrees,
    out: &mut [u32; 64],
)
    requires { HasPotential n parents.now above.now subtrees.now.supply subtrees.now.demand × (length out.old ≡ 64) }
    ensures { Filled n (potential_at n parents.now above.now subtrees.now.supply subtrees.now.demand) out.old out.new }
{
    for y in 0..n {
        out[y] = potential_of(n, parents, above, subtrees, y);
    }
}
