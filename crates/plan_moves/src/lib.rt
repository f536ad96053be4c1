// The moves of a plan, counted.
#![tactic(auto)]

ghost use Rattle.std.specs.Prelude.{◌≡◌, ◌*◌, ◌≤◌, ◌<◌, ltb, length};
ghost use Rattle.arithmetic.specs.Sum.{sum};
ghost use Rattle.arithmetic.specs.Steps.Table.{cell};
ghost use Rattle.plan_rule.specs.Plan.{moves};
ghost use Rattle.plan_moves.specs.Steps.Count.{move_at};

use tables::place;

// Whether i sends anything to j.
fn is_positive(n: usize, i: usize, j: usize, plan: &[u32]) -> bool
    requires { (n ≤ 64) × (i < n) × (j < n) × (n * n ≤ length plan.now) }
    ensures { result ≡ ltb 0 (cell n plan.now i j) }
{
    0 < plan[place(n, i, j)]
}

// How many vertices other than itself i sends to: its own entry is taken away at the end, so that the loop has no branch.
fn count_row(n: usize, i: usize, plan: &[u32]) -> u32
    requires { (n ≤ 64) × (i < n) × (n * n ≤ length plan.now) }
    ensures { result ≡ sum n (move_at (cell n plan.now) i) }
{
    let mut count = 0;
    for j in 0..n {
        count += is_positive(n, i, j, plan) as u32;
    }
    let own = is_positive(n, i, i, plan) as u32;
    count - own
}

// How many moves a plan has.
pub fn count_moves(n: usize, plan: &[u32]) -> u32
    requires { (n ≤ 64) × (n * n ≤ length plan.now) }
    ensures { result ≡ moves n (λ i j. cell n plan.now i j) }
{
    let mut count = 0;
    for i in 0..n {
        count += count_row(n, i, plan);
    }
    count
}
