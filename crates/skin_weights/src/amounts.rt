// Weights turned into amounts: all of a list, or nothing of it.
ghost use Rattle.std.specs.Prelude.{◌≡◌, true};
ghost use Rattle.refusals.specs.Refusals.{number_of};
ghost use Rattle.skin_weights.specs.Lists.{weights_ok, grains_ok, amounts_refusal, amounts_table};

use crate::filling::fill_by;
use crate::weight::{amount_of, in_unit_interval, whole_grains};
use refusals::Refusal;

// check 15: every weight is from 0 to 1
fn weights_ok(weights: &[f32]) -> bool
    ensures { result ≡ weights_ok weights.now }
{
    weights.iter().all(|w| in_unit_interval(*w))
}

// check 16: every weight is a whole number of grains
fn grains_ok(weights: &[f32]) -> bool
    requires { weights_ok weights.now ≡ true }
    ensures { result ≡ grains_ok weights.now }
{
    weights.iter().all(|w| whole_grains(*w))
}

// checks 2, 15 and 16; apart from the way back's, which has no 16
fn check_amounts(weights: &[f32], amounts: &[u64]) -> Result<(), Refusal>
    ensures { number_of result ≡ amounts_refusal weights.now amounts.now }
{
    if amounts.len() < weights.len() {
        return Err(Refusal::Tables);
    }
    if !weights_ok(weights) {
        return Err(Refusal::Weights);
    }
    if !grains_ok(weights) {
        return Err(Refusal::Grains);
    }
    Ok(())
}

// Fills the first places of `amounts` with the amounts of the weights, in grains.
pub fn to_amounts(weights: &[f32], amounts: &mut [u64]) -> Result<(), Refusal>
    ensures { (number_of result ≡ amounts_refusal weights.now amounts.old)
        × (amounts.new ≡ amounts_table weights.now amounts.old) }
{
    check_amounts(weights, amounts)?;
    fill_by(weights, amounts, amount_of);
    Ok(())
}
