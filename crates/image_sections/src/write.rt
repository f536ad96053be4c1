// The sections of an image, each written into a part of the buffer that starts where it does.
ghost use Rattle.std.specs.Prelude.{◌≡◌, cond, is_some, IfSome, [], ◌++◌, ◌+◌, ◌*◌, ◌≤◌, length};
ghost use Rattle.arithmetic.specs.Table.{tab, written};
ghost use Rattle.little_endian.specs.LittleEndian.{byte_of};
ghost use Rattle.little_endian.specs.Steps.Buffer.{placed};
ghost use Rattle.image.specs.Contents.{root_lent, parents_lent};
ghost use Rattle.image_sections.specs.SectionBytes.{edge_bytes, amount_bytes, tree_bytes};

use graph::Graph;
use little_endian::write::{put, put_numbers};

// An edge with these ends and this length, from place p on.
fn write_edge(p: usize, a: u32, b: u32, long: u32, out: &mut [u8])
    requires { p + 4 ≤ length out.old }
    ensures { out.new
        ≡ placed p (tab 1 (byte_of a) ++ (tab 1 (byte_of b) ++ tab 2 (byte_of long))) out.old }
{
    put::<1>(p, a as u64, out);
    put::<1>(p + 1, b as u64, out);
    put::<2>(p + 2, long as u64, out);
}

// The section of the edges.
pub fn write_edges(g: &Graph<'_>, out: &mut [u8])
    requires { (length g.now.b.now ≡ length g.now.a.now) × (length g.now.lengths.now ≡ length g.now.a.now) × (4 * length g.now.a.now ≤ length out.old) }
    ensures { out.new ≡ written 0 (edge_bytes g.now.a.now g.now.b.now g.now.lengths.now) out.old }
{
    for e in 0..g.a.len() {
        write_edge(4 * e, g.a[e], g.b[e], g.lengths[e], out);
    }
}

// The section of a painting of n amounts, which are wider than the numbers of `put_numbers`.
pub fn write_amounts(n: usize, amounts: &[u64], out: &mut [u8])
    requires { (n ≡ length amounts.now) × (4 * n ≤ length out.old) }
    ensures { out.new ≡ written 0 (amount_bytes n amounts.now) out.old }
{
    for i in 0..n {
        put::<4>(4 * i, amounts[i], out);
    }
}

// The section of the tree, or nothing without one.
pub fn write_tree(n: usize, tree: Option<(usize, &[u32])>, out: &mut [u8])
    requires { IfSome tree (λ t. (t.0 ≤ 255) × (n ≤ length t.1.now) × (n + 1 ≤ length out.old)) }
    ensures { out.new ≡ written 0 (cond (is_some tree.entry) (tree_bytes n (root_lent tree.entry) (parents_lent tree.entry)) []) out.old }
{
    if let Some((root, parents)) = tree {
        put::<1>(0, root as u64, out);
        put_numbers::<1>(n, parents, &mut out[1..]);
    }
}
