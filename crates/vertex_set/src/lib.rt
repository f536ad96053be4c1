// Sets of vertices, as words: bit x stands for vertex x.
#![tactic(auto)]

ghost use Rattle.std.specs.Prelude.{◌≡◌, ℕ, ◌-◌, ◌^◌, ◌≤◌, ◌<◌, eqb, MatchBool};
ghost use Rattle.arithmetic.specs.Table.{at};
ghost use Rattle.arithmetic.specs.Steps.Mask.{bit};
ghost use Rattle.arithmetic.specs.Mask.{mask};
ghost use Rattle.vertex_set.specs.Lowest.{lowest};
ghost use Rattle.vertex_set.specs.Steps.Sets.{Depths};
ghost use Rattle.vertex_set.specs.Steps.Shift.{CanShiftWord, WordShifted};

pub mod words;

use std::ops::{Add, Sub};
pub use words::word_of;

// The lowest vertex of a word that has one.
pub fn lowest_vertex(n: usize, word: u64) -> usize
    requires { (n ≤ 64) × (word ≡ mask n (bit word)) × (word ≡ 0 → ⊥) }
    ensures { (result ≡ lowest (bit word) n 0) × (result < n) }
{
    u64::trailing_zeros(word) as usize
}

// A word that has a vertex, without its lowest one.
pub fn without_lowest(n: usize, word: u64) -> u64
    requires { (n ≤ 64) × (word ≡ mask n (bit word)) × (word ≡ 0 → ⊥) }
    ensures { result ≡ word - 2 ^ lowest (bit word) n 0 }
{
    word & (word - 1)
}

// u, raised or lowered by d. A flag in place of a closure: which of the two it is turns out at run time, and each is one instruction.
#[inline]
pub fn shifted<T: Add<T, Output = T> + Sub<T, Output = T>>(rises: bool, d: T, u: T) -> T
    requires { MatchBool rises (T.can_add u d) (T.can_sub u d) }
    ensures { MatchBool rises (T.add_gives u d result) (T.sub_gives u d result) }
{
    if rises { u + d } else { u - d }
}

// Raises or lowers the number of each vertex of a word by d.
pub fn shift_word(n: usize, word: u64, rises: bool, d: u32, table: &mut [u32; 64])
    requires { CanShiftWord n word rises d table.old }
    ensures { WordShifted word rises d table.old table.new n }
{
    let mut left = word;
    while left != 0 {
        let x = lowest_vertex(n, left);
        table[x] = shifted(rises, d, table[x]);
        left = left - (1u64 << x);
    }
}

// The vertices of each depth, as words.
pub fn layers(n: usize, depth: &[u32]) -> [u64; 65]
    requires { (n ≤ 64) × Depths n depth.now }
    ensures { (d : ℕ) → d < 65 → at result d ≡ mask n (λ x. eqb (at depth.now x) d) }
{
    let mut layers = [0u64; 65];
    for x in 0..n {
        let d = depth[x] as usize;
        layers[d] = layers[d] | (1u64 << x);
    }
    layers
}
