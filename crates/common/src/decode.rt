// A value of the model's space as a parameter's value.
ghost use Rattle.std.specs.Prelude.{◌≡◌, Ok};
ghost use Rattle.common.specs.Decode.{unscale_of, inside, float_of, int_of, decoded_of, from_internal_of};
ghost use Rattle.common.specs.DecodeParts.{Decodable};
ghost use Rattle.common.specs.GridParts.{GridFits};

use crate::grid::{clamp, float_grid, int_grid};
use distribution::{Distribution, FloatDistribution, IntDistribution, ParamValue};
use encoding::{InternalBounds, internal_bounds};
use refusal::Refusal;

// A value, or on log scale its exponential.
fn unscale(log_scale: bool, x: f64) -> Result<f64, Refusal>
    ensures { result ≡ unscale_of log_scale x }
{
    if log_scale {
        exponential::exp(x)
    } else {
        Ok(x)
    }
}

// Whether x is from lo - 1 to hi + 1; never where there are no ends.
fn is_between(ends: Option<(f64, f64)>, x: f64) -> bool
    ensures { result ≡ inside (Ok ends) x }
{
    match ends {
        Some(ends) => ends.0 - 1.0 <= x && x <= ends.1 + 1.0,
        None => false,
    }
}

// The same of bounds that may be refused.
fn is_inside(b: InternalBounds, x: f64) -> bool
    ensures { result ≡ inside b x }
{
    b.is_ok_and(|ends| is_between(ends, x))
}

// Kept: one for each kind, since each moves to its own grid: as one function it takes the grid as a closure, with a
// clause of what that answers, for a line.
fn float_decoded(d: FloatDistribution, v: f64) -> ParamValue
    ensures { result ≡ float_of d v }
{
    ParamValue::Float(clamp(d.low, d.high, float_grid(d, v)))
}

pub(crate) fn int_decoded(d: IntDistribution, v: f64) -> ParamValue
    requires { GridFits d v }
    ensures { result ≡ int_of d v }
{
    ParamValue::Int(clamp(d.low, d.high, int_grid(d, v)))
}

// The decoding of an x that is inside.
#[tactic(auto, unfolding(crate::specs::Decode::decoded_of))]
fn decoded(x: f64, d: Distribution) -> Result<ParamValue, Refusal>
    requires { Decodable x d }
    ensures { result ≡ decoded_of x d }
{
    match d {
        Distribution::Float(f) => Ok(float_decoded(f, unscale(f.log_scale, x)?)),
        Distribution::Int(i) => Ok(int_decoded(i, unscale(i.log_scale, x)?)),
        Distribution::Categorical(_) => Err(Refusal::OutOfDomain),
    }
}

// The decoding of any value: 11 where the distribution is malformed or a choice, or the value is out of its domain.
#[tactic(auto, unfolding(crate::specs::Decode::from_internal_of))]
pub fn from_internal(x: f64, d: Distribution) -> Result<ParamValue, Refusal>
    ensures { result ≡ from_internal_of x d }
{
    if !is_inside(internal_bounds(d), x) {
        return Err(Refusal::OutOfDomain);
    }
    decoded(x, d)
}
