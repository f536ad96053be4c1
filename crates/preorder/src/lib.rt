// A tree printed in preorder: each vertex has its line and is followed by its children by rising number, each with its whole subtree before the
// following child. Each printer writes from a place of a lent buffer on and returns the place behind.
#![tactic(auto)]

ghost use Rattle.std.specs.Prelude.{◌≡◌, ◌+◌, ◌*◌, ◌≤◌, ◌<◌, length};
ghost use Rattle.arithmetic.specs.Table.{at, written};
ghost use Rattle.rooted_tree.specs.Chain.{is_child};
ghost use Rattle.decimal_text.specs.Steps.Wrote.{Wrote};
ghost use Rattle.preorder.specs.Preorder.{page};
ghost use Rattle.preorder.specs.Steps.Printing.{Printable, Placed, figure, subtree_order, children_order, subtree_page, children_page};

use page_line::write_line;

// Whether c is a child of v.
fn is_child(root: usize, parents: &[u32], v: usize, c: usize) -> bool
    requires { c < length parents.now }
    ensures { result ≡ is_child root (at parents.now) v c }
{
    c != root && parents[c] as usize == v
}

// The line of v, which is at the given depth, and then those of its children.
#[cycle(print_children_print_vertex)]
fn print_vertex(
    n: usize,
    root: usize,
    parents: &[u32],
    imbalance: &[i32],
    potential: &[i32],
    depth: usize,
    v: usize,
    from: usize,
    out: &mut [u8],
) -> usize
    requires { Printable n root parents.now imbalance.now potential.now × Placed n root (at parents.now) depth v
        × (from + 96 * length (subtree_order n root (at parents.now) depth v) ≤ length out.old) }
    ensures { Wrote from (subtree_page n root (at parents.now) (figure imbalance.now) (figure potential.now) depth v)
        out.old out.new result }
{
    let next = write_line(depth, v, imbalance[v], potential[v], from, out);
    print_children(n, root, parents, imbalance, potential, depth, v, next, out)
}

// The lines of all children of v, each with its whole subtree, by rising number.
#[cycle(print_children_print_vertex)]
fn print_children(
    n: usize,
    root: usize,
    parents: &[u32],
    imbalance: &[i32],
    potential: &[i32],
    depth: usize,
    v: usize,
    from: usize,
    out: &mut [u8],
) -> usize
    requires { Printable n root parents.now imbalance.now potential.now × Placed n root (at parents.now) depth v
        × (from + 96 * length (children_order n root (at parents.now) depth v n) ≤ length out.old) }
    ensures { Wrote from (children_page n root (at parents.now) (figure imbalance.now) (figure potential.now) depth v n)
        out.old out.new result }
{
    let mut next = from;
    for c in 0..n {
        if is_child(root, parents, v, c) {
            next = print_vertex(
                n,
                root,
                parents,
                imbalance,
                potential,
                depth + 1,
                c,
                next,
                out,
            );
        }
    }
    next
}

// The page of a tree, from the start of the buffer on: 96 bytes for each vertex.
pub fn print_tree(
    n: usize,
    root: usize,
    parents: &[u32],
    imbalance: &[i32],
    potential: &[i32],
    out: &mut [u8],
) -> usize
    requires { Printable n root parents.now imbalance.now potential.now × (96 * n ≤ length out.old) }
    ensures size { result ≡ 96 * n }
    ensures text { out.new
        ≡ written 0 (page n root (at parents.now) (figure imbalance.now) (figure potential.now)) out.old }
{
    print_vertex(n, root, parents, imbalance, potential, 0, root, 0, out)
}
