// One weight, a 32-bit float from 0 to 1, and its amount in grains. Nothing is rounded.
ghost use Rattle.std.specs.Prelude.{◌≡◌, ◌^◌, ◌≤◌, true};
ghost use Rattle.skin_weights.specs.Weight.{in_unit_interval, whole_grains, amount_of, weight_of};

// Negative zero compares as 0, and what is no number compares as nothing.
pub fn in_unit_interval(w: f32) -> bool
    ensures { result ≡ in_unit_interval w }
{
    if 0.0 <= w {
        return w <= 1.0;
    }
    false
}

// The product by 2^24 is exact; the weight is a whole number of grains if cutting it loses nothing.
pub fn whole_grains(w: f32) -> bool
    requires { in_unit_interval w ≡ true }
    ensures { result ≡ whole_grains w }
{
    let scaled = w * 16777216.0;
    let cut = std::num::truncating_f32_to_u64(scaled);
    cut as f32 == scaled
}

// The cast is made only where nothing is lost; it is not defined for negative zero.
pub fn amount_of(w: f32) -> u64
    requires { (in_unit_interval w ≡ true) × (whole_grains w ≡ true) }
    ensures { result ≡ amount_of w }
{
    if w == 0.0 {
        return 0;
    }
    (w * 16777216.0) as u64
}

// Both the cast and the quotient are exact.
pub fn weight_of(k: u64) -> f32
    requires { k ≤ 2 ^ 24 }
    ensures { result ≡ weight_of k }
{
    k as f32 / 16777216.0
}
