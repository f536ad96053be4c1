// The line of a vertex on the page of a tree, written into a lent buffer: each writer puts its text from a place on and returns the place behind it.
#![tactic(auto)]

ghost use Rattle.std.specs.Prelude.{◌≡◌, ◌++◌, ◌+◌, ◌≤◌, ◌<◌, length};
ghost use Rattle.decimal_text.specs.Decimal.{signed_decimal};
ghost use Rattle.decimal_text.specs.Steps.Wrote.{Wrote};
ghost use Rattle.page_line.specs.Line.{spaces, two_digits, up_to, right_aligned, vertex_line};

use decimal_text::{signed_width, write_byte, write_signed};

// Spaces.
fn write_spaces(count: usize, from: usize, out: &mut [u8]) -> usize
    requires { from + count ≤ length out.old }
    ensures { Wrote from (spaces count) out.old out.new result }
{
    let end = from + count;
    out[from..end].fill(b' ');
    end
}

// Columns 0 to 67: a vertex at its depth.
fn write_vertex(depth: usize, v: usize, from: usize, out: &mut [u8]) -> usize
    requires { (depth < 64) × (v < 64) × (from + 68 ≤ length out.old) }
    ensures { (result ≡ from + 68) × Wrote from (up_to 68 (spaces depth ++ two_digits v)) out.old out.new result }
{
    let tens = write_spaces(depth, from, out);
    let ones = write_byte((48 + v / 10) as u8, tens, out);
    let rest = write_byte((48 + v % 10) as u8, ones, out);
    write_spaces(66 - depth, rest, out)
}

// Eleven columns: a figure, right-aligned.
fn write_figure(z: i32, from: usize, out: &mut [u8]) -> usize
    requires { from + 11 ≤ length out.old }
    ensures { (result ≡ from + 11) × Wrote from (right_aligned 11 (signed_decimal z)) out.old out.new result }
{
    let at = write_spaces(11 - signed_width(z), from, out);
    write_signed(z, at, out)
}

// The whole line, 96 bytes.
pub fn write_line(
    depth: usize,
    v: usize,
    imbalance: i32,
    potential: i32,
    from: usize,
    out: &mut [u8],
) -> usize
    requires { (depth < 64) × (v < 64) × (from + 96 ≤ length out.old) }
    ensures { Wrote from (vertex_line depth v imbalance potential) out.old out.new result }
{
    let first = write_vertex(depth, v, from, out);
    let second = write_figure(imbalance, first, out);
    let third = write_figure(potential, second, out);
    let last = write_spaces(5, third, out);
    write_byte(10, last, out)
}
