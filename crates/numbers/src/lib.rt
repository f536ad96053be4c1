// Machine numbers: the smaller of two, how far they are apart, their differences, and one under a test.
// The first three are the library's methods by the names of the definitions: they stay, since README names the crate as one to use.
#![tactic(auto)]

ghost use Rattle.std.specs.Prelude.{◌≡◌, ◌-◌, ◌^◌, ◌<◌, min};
ghost use Rattle.std.proofs.Math.IntN.{sub_ℕ};
ghost use Rattle.arithmetic.specs.Sum.{pick};
ghost use Rattle.arithmetic.specs.Steps.Product.{gap};

// the smaller of a and b
pub fn smaller(a: u32, b: u32) -> u32
    ensures { result ≡ min a b }
{
    a.min(b)
}

// |a − b|
pub fn gap(a: u64, b: u64) -> u64
    ensures { result ≡ gap a b }
{
    a.abs_diff(b)
}

// a − b, or 0 where b is larger
pub fn monus(a: u64, b: u64) -> u64
    ensures { result ≡ a - b }
{
    a.saturating_sub(b)
}

// a − b, with its sign
pub fn difference(a: u64, b: u64) -> i32
    requires { (a < 2 ^ 31) × (b < 2 ^ 31) }
    ensures { result ≡ sub_ℕ a b }
{
    a as i32 - b as i32
}

// v where the test holds, else 0
pub fn pick(test: bool, v: u32) -> u32
    ensures { result ≡ pick test v }
{
    if test { v } else { 0 }
}
