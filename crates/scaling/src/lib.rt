// Between internal bounds and the unit interval.
#![tactic(auto)]

ghost use Rattle.std.specs.Prelude.{◌≡◌};
ghost use Rattle.scaling.specs.Scaling.{to_normalized_of, from_normalized_of};

// A value of the internal space, scaled to 0..1.
#[tactic(auto, unfolding(crate::specs::Scaling::to_normalized_of))]
pub fn to_normalized(value: f64, lo: f64, hi: f64) -> f64
    ensures { result ≡ to_normalized_of value lo hi }
{
    if arith::abs(hi - lo) < 1e-15 {
        0.5
    } else {
        (value - lo) / (hi - lo)
    }
}

// And back.
#[tactic(auto, unfolding(crate::specs::Scaling::from_normalized_of))]
pub fn from_normalized(value: f64, lo: f64, hi: f64) -> f64
    ensures { result ≡ from_normalized_of value lo hi }
{
    lo + value * (hi - lo)
}
