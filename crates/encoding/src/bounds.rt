// The ends of a distribution in the model's space.
ghost use Rattle.std.specs.Prelude.{◌≡◌};
ghost use Rattle.encoding.specs.Bounds.{scale_of, pair_of, ends_of, bounds_of};

use crate::InternalBounds;
use distribution::Distribution;
use refusal::Refusal;

// A value, or on log scale its logarithm.
pub(crate) fn scale(log_scale: bool, x: f64) -> Result<f64, Refusal>
    ensures { result ≡ scale_of log_scale x }
{
    if log_scale { logarithm::ln(x) } else { Ok(x) }
}

fn pair(lo: Result<f64, Refusal>, hi: Result<f64, Refusal>) -> InternalBounds
    ensures { result ≡ pair_of lo hi }
{
    Ok(Some((lo?, hi?)))
}

// The ends of a well-formed distribution.
#[tactic(auto, unfolding(crate::specs::Bounds::ends_of))]
fn ends(d: Distribution) -> InternalBounds
    ensures { result ≡ ends_of d }
{
    match d {
        Distribution::Float(f) => pair(scale(f.log_scale, f.low), scale(f.log_scale, f.high)),
        Distribution::Int(i) => pair(
            scale(i.log_scale, arith::float_of_int(i.low)),
            scale(i.log_scale, arith::float_of_int(i.high)),
        ),
        Distribution::Categorical(_) => Ok(None),
    }
}

// The ends of any distribution: 11 where it is malformed.
#[tactic(auto, unfolding(crate::specs::Bounds::bounds_of))]
pub fn internal_bounds(d: Distribution) -> InternalBounds
    ensures { result ≡ bounds_of d }
{
    if !distribution::well_formed(d) {
        return Err(Refusal::OutOfDomain);
    }
    ends(d)
}
