// Tables of n × n numbers: where an entry stands, and the same number in every place.
#![tactic(auto)]

ghost use Rattle.std.specs.Prelude.{◌≡◌, ◌+◌, ◌*◌, ◌≤◌, ◌<◌, min, length};
ghost use Rattle.arithmetic.specs.Steps.Matrix.{filled};

// Where row i, column j of an n × n table stands.
pub fn place(n: usize, i: usize, j: usize) -> usize
    requires { (n ≤ 64) × (i < n) × (j < n) }
    ensures { (result ≡ i * n + j) × (result < n * n) × (n * n ≤ 4096) }
{
    i * n + j
}

// The same number in every place of an n × n table.
pub fn fill_table(n: usize, value: u32, out: &mut [u32])
    requires { n * n ≤ length out.old }
    ensures { out.new ≡ filled n (λ _ _. value) out.old }
{
    let size = n * n;
    out[..size].fill(value);
}
