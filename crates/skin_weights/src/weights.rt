// Amounts turned into weights: all of a list, or nothing of it.
ghost use Rattle.std.specs.Prelude.{◌≡◌};
ghost use Rattle.refusals.specs.Refusals.{number_of};
ghost use Rattle.skin_weights.specs.Lists.{amounts_ok, weights_refusal, weights_table};

use crate::filling::fill_by;
use crate::weight::weight_of;
use refusals::Refusal;

// check 15 of the way back: every amount has a weight
fn amounts_ok(amounts: &[u64]) -> bool
    ensures { result ≡ amounts_ok amounts.now }
{
    amounts.iter().all(|k| *k <= 16777216)
}

// checks 2 and 15 of the way back
fn check_weights(amounts: &[u64], weights: &[f32]) -> Result<(), Refusal>
    ensures { number_of result ≡ weights_refusal amounts.now weights.now }
{
    if weights.len() < amounts.len() {
        return Err(Refusal::Tables);
    }
    if !amounts_ok(amounts) {
        return Err(Refusal::Weights);
    }
    Ok(())
}

// Fills the first places of `weights` with the floats of the amounts.
pub fn to_weights(amounts: &[u64], weights: &mut [f32]) -> Result<(), Refusal>
    ensures { (number_of result ≡ weights_refusal amounts.now weights.old)
        × (weights.new ≡ weights_table amounts.now weights.old) }
{
    check_weights(amounts, weights)?;
    fill_by(amounts, weights, weight_of);
    Ok(())
}
