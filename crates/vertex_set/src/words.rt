// The word of a test of vertices.
ghost use Rattle.std.specs.Prelude.{ℕ, ◌≡◌, ◌≤◌, ◌<◌};
ghost use Rattle.arithmetic.specs.Mask.{mask};
ghost use Rattle.vertex_set.specs.Steps.Tested.{Tests};

// The word of those of n vertices at which the test holds: where its answers are f's, f's mask.
pub fn word_of<F: Fn(usize) -> bool>(n: usize, test: F) -> u64
    requires small { n ≤ 64 }
    requires callable { (x : ℕ) → x < n → F.pre test x }
    ensures { (f : _) → Tests (F.post test) n f → result ≡ mask n f }
{
    let mut word = 0u64;
    for x in 0..n {
        if test(x) {
            word = word | (1u64 << x);
        }
    }
    word
}
