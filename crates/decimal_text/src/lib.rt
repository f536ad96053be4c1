// Numbers in base ten and other text, written into a lent buffer: each writer puts its text from a place on and returns the place behind it.
// Not by Display: there is no heap here, and what is proved is the bytes.
#![tactic(auto)]

ghost use Rattle.std.specs.Prelude.{◌≡◌, [], ◌∷◌, ◌+◌, ◌≤◌, ◌<◌, length};
ghost use Rattle.decimal_text.specs.Decimal.{decimal, signed_decimal};
ghost use Rattle.decimal_text.specs.Steps.Wrote.{Wrote};

// One byte.
pub fn write_byte(b: u8, from: usize, out: &mut [u8]) -> usize
    requires { from < length out.old }
    ensures { Wrote from (b ∷ []) out.old out.new result }
{
    out[from] = b;
    from + 1
}

// A word.
pub fn write_word(word: &[u8], from: usize, out: &mut [u8]) -> usize
    requires { from + length word.now ≤ length out.old }
    ensures { Wrote from word.now out.old out.new result }
{
    let end = from + word.len();
    out[from..end].copy_from_slice(word);
    end
}

// x in base ten, the last digit behind the others.
pub fn write_number(x: u64, from: usize, out: &mut [u8]) -> usize
    requires { from + length (decimal x) ≤ length out.old }
    ensures { Wrote from (decimal x) out.old out.new result }
{
    if x < 10 {
        return write_byte((48 + x) as u8, from, out);
    }
    let last = write_number(x / 10, from, out);
    write_byte((48 + x % 10) as u8, last, out)
}

// A space and x.
pub fn write_spaced(x: u64, from: usize, out: &mut [u8]) -> usize
    requires { from + length (decimal x) < length out.old }
    ensures { Wrote from (32 ∷ decimal x) out.old out.new result }
{
    let at = write_byte(b' ', from, out);
    write_number(x, at, out)
}

// How many digits x has.
fn number_width(x: u64) -> usize
    ensures { result ≡ length (decimal x) }
{
    match x.checked_ilog10() {
        Some(k) => k as usize + 1,
        None => 1,
    }
}

// How many bytes z has, its minus sign among them.
pub fn signed_width(z: i32) -> usize
    ensures { result ≡ length (signed_decimal z) }
{
    let digits = number_width(z.unsigned_abs() as u64);
    if z < 0 { digits + 1 } else { digits }
}

// z in base ten, a minus sign straight before its digits.
pub fn write_signed(z: i32, from: usize, out: &mut [u8]) -> usize
    requires { from + length (signed_decimal z) ≤ length out.old }
    ensures { Wrote from (signed_decimal z) out.old out.new result }
{
    if z < 0 {
        let digits = write_byte(b'-', from, out);
        return write_number(z.unsigned_abs() as u64, digits, out);
    }
    write_number(z.unsigned_abs() as u64, from, out)
}
