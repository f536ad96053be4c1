// The listing's lines, written into a lent buffer.
#![tactic(auto)]

ghost use Rattle.std.specs.Prelude.{◌≡◌, ◌++◌, ◌+◌, ◌*◌, ◌≤◌, ◌<◌, length};
ghost use Rattle.arithmetic.specs.Steps.Table.{cell};
ghost use Rattle.arithmetic.specs.Table.{at, written};
ghost use Rattle.decimal_text.specs.Steps.Wrote.{Wrote};
ghost use Rattle.listing_lines.specs.Lines.{line, cost_word, moves_word, best_word, refused_word, entry_line, row_lines, plan_lines};

use decimal_text::{write_byte, write_number, write_spaced, write_word};

// A word and x.
fn write_line(word: &[u8], x: u64, from: usize, out: &mut [u8]) -> usize
    requires { from + length (line word.now x) ≤ length out.old }
    ensures { Wrote from (line word.now x) out.old out.new result }
{
    let first = write_word(word, from, out);
    let second = write_spaced(x, first, out);
    write_byte(10, second, out)
}

// The line of the entry v in row i, column j, at most 17 bytes; none if it is 0.
fn write_entry(i: usize, j: usize, v: u32, from: usize, out: &mut [u8]) -> usize
    requires { (i < 64) × (j < 64) × (from + 17 ≤ length out.old) }
    ensures { (result ≤ from + 17) × Wrote from (entry_line i j v) out.old out.new result }
{
    if v == 0 {
        return from;
    }
    let first = write_number(i as u64, from, out);
    let second = write_spaced(j as u64, first, out);
    let third = write_spaced(v as u64, second, out);
    write_byte(10, third, out)
}

// Row i.
fn write_row(i: usize, row: &[u32], from: usize, out: &mut [u8]) -> usize
    requires { (i < 64) × (length row.now ≤ 64) × (from + 17 * length row.now ≤ length out.old) }
    ensures { (result ≤ from + 17 * length row.now)
        × Wrote from (row_lines (at row.now) i (length row.now)) out.old out.new result }
{
    let mut end = from;
    for (j, v) in row.iter().enumerate() {
        end = write_entry(i, j, *v, end, out);
    }
    end
}

// All rows.
fn write_rows(n: usize, plan: &[u32], from: usize, out: &mut [u8]) -> usize
    requires { (n ≤ 64) × (n * n ≤ length plan.now) × (from + 17 * (n * n) ≤ length out.old) }
    ensures { Wrote from (plan_lines (cell n plan.now) n n) out.old out.new result }
{
    let mut end = from;
    for i in 0..n {
        end = write_row(i, &plan[i * n..i * n + n], end, out);
    }
    end
}

// The listing of an evaluated tree.
pub fn write_evaluated(n: usize, cost: u64, moves: u64, plan: &[u32], out: &mut [u8]) -> usize
    requires { (n ≤ 64) × (n * n ≤ length plan.now) × (131072 ≤ length out.old) }
    ensures text { out.new ≡ written 0
        (line cost_word cost ++ (line moves_word moves ++ plan_lines (cell n plan.now) n n)) out.old }
    ensures size { result
        ≡ length (line cost_word cost ++ (line moves_word moves ++ plan_lines (cell n plan.now) n n)) }
{
    let first = write_line(b"cost", cost, 0, out);
    let second = write_line(b"moves", moves, first, out);
    write_rows(n, plan, second, out)
}

// The listing of the best answer.
pub fn write_best(cost: u64, out: &mut [u8]) -> usize
    requires { 131072 ≤ length out.old }
    ensures text { out.new ≡ written 0 (line best_word cost) out.old }
    ensures size { result ≡ length (line best_word cost) }
{
    write_line(b"best", cost, 0, out)
}

// The listing of refusal k. A number, as its clauses hold of any.
pub fn write_refused(k: u32, out: &mut [u8]) -> usize
    requires { 131072 ≤ length out.old }
    ensures text { out.new ≡ written 0 (line refused_word k) out.old }
    ensures size { result ≡ length (line refused_word k) }
{
    write_line(b"refused", k as u64, 0, out)
}
