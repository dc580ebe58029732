// Which distributions are well-formed.
ghost use Rattle.std.specs.Prelude.{◌≡◌};
ghost use Rattle.std.specs.Ordering.{partial_le};
ghost use Rattle.distribution.specs.Shape.{ends, float_step, shape_of, where_formed};

use crate::limits::ranged;
use crate::{Distribution, NumberDistribution};
use refusal::Refusal;

// Whether both ends are from least to most and in order, and on log scale at least first.
fn ends<T: PartialOrd + Copy>(least: T, most: T, first: T, d: NumberDistribution<T>) -> bool
    ensures { result ≡ ends (partial_le T.partial_cmp) least most first d }
{
    ranged(least, most, first, d.log_scale, d.low)
        && ranged(least, most, first, false, d.high)
        && d.low <= d.high
}

// A step from 2^-52 up, with at most 2^52 steps from low to high.
fn float_step(low: f64, high: f64, step: f64) -> bool
    ensures { result ≡ float_step low high step }
{
    2.220446049250313e-16 <= step
        && (step < f64::INFINITY && arith::floor((high - low) / step) <= 4503599627370496.0)
}

// Whether a distribution keeps every rule of document 01.
#[tactic(auto, unfolding(crate::specs::Shape::shape_of, crate::specs::Shape::categorical_shape))]
pub fn well_formed(d: Distribution) -> bool
    ensures { result ≡ shape_of d }
{
    match d {
        Distribution::Float(f) => {
            ends(
                -4503599627370496.0,
                4503599627370496.0,
                2.220446049250313e-16,
                f,
            ) && f.step.is_none_or(|step| float_step(f.low, f.high, step))
        }
        Distribution::Int(i) => {
            ends(-4503599627370496, 4503599627370496, 1, i)
                && i.step
                    .is_none_or(|step| (1..=4503599627370496).contains(&step))
        }
        Distribution::Categorical(c) => (1..=0x1_0000_0000).contains(&c.n_choices),
    }
}

// A distribution where it is well-formed; a malformed one is 11.
pub(crate) fn formed(d: Distribution) -> Result<Distribution, Refusal>
    ensures { result ≡ where_formed (shape_of d) d }
{
    if !well_formed(d) {
        return Err(Refusal::OutOfDomain);
    }
    Ok(d)
}
