// A directory: pairs of 32-bit offset and length, sorted by offset, from place d of some bytes on. Each pair is a section of the bytes.
#![tactic(auto)]

ghost use Rattle.std.specs.Prelude.{◌≡◌, ◌||◌, ◌+◌, ◌*◌, ◌-◌, ◌≤◌, ◌<◌, length, eqb, leb};
ghost use Rattle.arithmetic.specs.Bools.{all};
ghost use Rattle.directory.specs.Directory.{offset_in, extent_in, end_in, pair_ok};

use little_endian::read::get_four;

// Where section t starts.
pub fn offset(bytes: &[u8], d: usize, t: usize) -> usize
    requires { d + 8 * t + 8 ≤ length bytes.now }
    ensures { (result ≡ offset_in d bytes.now t) × (result < 4294967296) }
{
    get_four(bytes, d + 8 * t) as usize
}

// How many bytes it has.
pub fn extent(bytes: &[u8], d: usize, t: usize) -> usize
    requires { d + 8 * t + 8 ≤ length bytes.now }
    ensures { (result ≡ extent_in d bytes.now t) × (result < 4294967296) }
{
    get_four(bytes, d + 4 + 8 * t) as usize
}

// Where it ends.
pub fn end(bytes: &[u8], d: usize, t: usize) -> usize
    requires { d + 8 * t + 8 ≤ length bytes.now }
    ensures { result ≡ end_in d bytes.now t }
{
    offset(bytes, d, t) + extent(bytes, d, t)
}

// It does not start before its forerunner's end.
fn follows(bytes: &[u8], d: usize, t: usize) -> bool
    requires { d + 8 * t + 8 ≤ length bytes.now }
    ensures { result ≡ eqb t 0 || leb (end_in d bytes.now (t - 1)) (offset_in d bytes.now t) }
{
    t == 0 || end(bytes, d, t - 1) <= offset(bytes, d, t)
}

// It is in order, and within the bytes.
#[tactic(auto, unfolding(crate::specs::Directory::pair_ok))]
fn pair_ok(bytes: &[u8], d: usize, first: usize, t: usize) -> bool
    requires { d + 8 * t + 8 ≤ length bytes.now }
    ensures { result ≡ pair_ok d first bytes.now t }
{
    first <= offset(bytes, d, t) && follows(bytes, d, t) && end(bytes, d, t) <= bytes.len()
}

// All of the first `count` sections are, none of them starting before place `first`. A `for`, since each test needs t < count, which a closure
// would have to require.
pub fn pairs_ok(bytes: &[u8], d: usize, first: usize, count: usize) -> bool
    requires { d + 8 * count ≤ length bytes.now }
    ensures { result ≡ all count (pair_ok d first bytes.now) }
{
    for t in 0..count {
        if !pair_ok(bytes, d, first, t) {
            return false;
        }
    }
    true
}
