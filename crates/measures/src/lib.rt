// Checks 6 and 7: two measures on the vertices (document 01's paintings) and their totals.
#![tactic(auto)]

ghost use Rattle.std.specs.Prelude.{◌≡◌, ◌+◌, ◌≤◌, ◌<◌, ◌^◌, min, length, IfOk, IfErr};
ghost use Rattle.arithmetic.specs.Sum.{sum};
ghost use Rattle.arithmetic.specs.Table.{at};
ghost use Rattle.arithmetic.specs.Refusal.{refusal};
ghost use Rattle.refusals.specs.Refusals.{number_of};
ghost use Rattle.measures.specs.Checks.{measure_checks};

use refusals::Refusal;

// the total of the first n amounts, refused above 16,777,216
pub fn total(n: usize, amounts: &[u64]) -> Result<u64, Refusal>
    requires { n ≤ length amounts.now }
    ensures within { IfOk result (λ t. (t ≡ sum n (at amounts.now)) × (t ≤ 2 ^ 24)) }
    ensures above { IfErr result (λ r. (r ≡ Refusal.Total) × (2 ^ 24 < sum n (at amounts.now))) }
{
    let mut t: u64 = 0;
    for &v in &amounts[..n] {
        if v > 16777216 - t {
            return Err(Refusal::Total);
        }
        t += v;
    }
    Ok(t)
}

// the same, with 16,777,217 for a total that is refused
pub fn capped_total(n: usize, amounts: &[u64]) -> u64
    requires { n ≤ length amounts.now }
    ensures { result ≡ min (sum n (at amounts.now)) (2 ^ 24 + 1) }
{
    total(n, amounts).unwrap_or(16777217)
}

// checks 6 and 7
#[tactic(auto, using(crate::proofs::Laws::Totals::totals), unfolding(arithmetic::specs::Refusal::refusal, crate::specs::Checks::measure_checks))]
pub fn check(n: usize, mu: &[u64], nu: &[u64]) -> Result<(), Refusal>
    requires { (n ≤ length mu.now) × (n ≤ length nu.now) }
    ensures { number_of result ≡ refusal (measure_checks n (at mu.now) (at nu.now)) }
{
    let s = total(n, mu)?;
    let t = total(n, nu)?;
    if s != t {
        return Err(Refusal::UnequalTotals);
    }
    Ok(())
}
