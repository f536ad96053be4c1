// Check 10: every chain of parents reaches the root. By pointer doubling.
ghost use Rattle.std.specs.Prelude.{◌≡◌, ℕ, ◌*◌, ◌≤◌, ◌<◌, eqb, length};
ghost use Rattle.arithmetic.specs.Bools.{all};
ghost use Rattle.arithmetic.specs.Table.{at};
ghost use Rattle.tree_checks.specs.Checks.{chains_ok};
ghost use Rattle.tree_checks.specs.Steps.Doubling.{Vertices, Ahead};
ghost use Rattle.tree_checks.specs.Steps.TreeTests.{Parents};

// one step up from each vertex: its parent
fn first_steps(n: usize, parents: &[u32]) -> [u32; 64]
    requires { (n ≤ 64) × (n ≤ length parents.now) }
    ensures { (length result ≡ 64) × ((x : ℕ) → x < n → at result x ≡ at parents.now x) }
{
    let mut ahead = [0u32; 64];
    ahead[..n].copy_from_slice(&parents[..n]);
    ahead
}

// twice as many steps up from each vertex, or more: an entry that is read may be doubled already
fn double_steps(n: usize, ahead: &mut [u32; 64])
    requires { (n ≤ 64) × Vertices n ahead.old }
    ensures { (p : ℕ → ℕ) (k : ℕ) → Ahead n p k ahead.old → Ahead n p (2 * k) ahead.new }
{
    for x in 0..n {
        ahead[x] = ahead[ahead[x] as usize];
    }
}

// whether the first n entries of a table all have the value
fn all_equal(n: usize, value: u32, table: &[u32; 64]) -> bool
    requires { n ≤ 64 }
    ensures { result ≡ all n (λ x. eqb (at table.now x) value) }
{
    table[..n].iter().all(|&entry| entry == value)
}

// whether every chain of parents reaches the root: n steps up from each vertex, or more, lead to it
pub fn chains_reach(n: usize, root: usize, parents: &[u32]) -> bool
    requires n_bound { (n ≤ 64) × (n ≤ length parents.now) }
    requires tree { Parents n root (at parents.now) }
    ensures { result ≡ chains_ok n root (at parents.now) }
{
    let mut ahead = first_steps(n, parents);
    let mut steps: usize = 1;
    while steps < n {
        double_steps(n, &mut ahead);
        steps = 2 * steps;
    }
    all_equal(n, root as u32, &ahead)
}
