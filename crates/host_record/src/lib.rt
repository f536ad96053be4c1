// The host record, written into a lent buffer.
#![tactic(auto)]

ghost use Rattle.std.specs.Prelude.{◌≡◌, ◌++◌, ◌+◌, ◌*◌, ◌≤◌, ◌<◌, length, get_or, pos};
ghost use Rattle.arithmetic.specs.Table.{at, tab, written};
ghost use Rattle.little_endian.specs.LittleEndian.{byte_of, fields, signed};
ghost use Rattle.little_endian.specs.Steps.Buffer.{placed};
ghost use Rattle.host_record.specs.Record.{record_bytes, record_size};

use little_endian::write::{bits_of, put, put_numbers};
use spanning_tree::tree::Tree;

// Cost, moves and root.
fn write_figures(cost: u64, moves: u32, root: u32, out: &mut [u8])
    requires { 13 ≤ length out.old }
    ensures { out.new
        ≡ placed 0 (tab 8 (byte_of cost) ++ tab 4 (byte_of moves) ++ tab 1 (byte_of root)) out.old }
{
    put::<8>(0, cost, out);
    put::<4>(8, moves as u64, out);
    put::<1>(12, root as u64, out);
}

// The section of the potential. Apart from `put_numbers`, whose numbers have no sign.
fn write_potential(n: usize, potential: &[i32], out: &mut [u8])
    requires { (n ≤ length potential.now) × (4 * n ≤ length out.old) }
    ensures { out.new
        ≡ written 0 (fields 4 n (λ y. signed (get_or potential.now y (pos 0)))) out.old }
{
    for i in 0..n {
        put::<4>(4 * i, bits_of(potential[i]) as u64, out);
    }
}

// The whole record, of an accepted tree.
pub fn write_record(
    cost: u64,
    moves: u32,
    tree: Tree,
    potential: &[i32],
    plan: &[u32],
    out: &mut [u8],
)
    requires { (tree.n ≤ 64) × (tree.root < tree.n) × (tree.n ≤ length potential.now) × (tree.n * tree.n ≤ length plan.now)
        × (record_size tree.n ≤ length out.old) }
    ensures { out.new ≡ written 0
        (record_bytes tree.n cost moves tree.root (at tree.parents) (λ y. get_or potential.now y (pos 0))
        (at plan.now)) out.old }
{
    let n = tree.n;
    let parents = tree.parents;
    write_figures(cost, moves, tree.root as u32, out);
    put_numbers::<1>(n, &parents, &mut out[13..]);
    let second = 13 + n;
    write_potential(n, potential, &mut out[second..]);
    let third = 13 + 5 * n;
    put_numbers::<4>(n * n, plan, &mut out[third..]);
}
