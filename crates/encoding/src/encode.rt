// A parameter's value in the model's space.
ghost use Rattle.std.specs.Prelude.{◌≡◌};
ghost use Rattle.distribution.specs.Taken.{taken_of};
ghost use Rattle.encoding.specs.Encode.{encoded_of, to_internal_of};

use crate::bounds::scale;
use distribution::{Distribution, ParamValue};
use refusal::Refusal;

// Of a value under a well-formed distribution, by whether it obeys the Taken rule.
#[tactic(auto, unfolding(crate::specs::Encode::encoded_of))]
fn encoded(v: ParamValue, d: Distribution, taken: bool) -> Result<f64, Refusal>
    requires { taken ≡ taken_of d v }
    ensures { result ≡ encoded_of v d }
{
    match (d, v) {
        (Distribution::Float(f), ParamValue::Float(x)) => {
            if !taken {
                return Err(Refusal::OutOfDomain);
            }
            scale(f.log_scale, x)
        }
        (Distribution::Int(i), ParamValue::Int(z)) => {
            if !taken {
                return Err(Refusal::OutOfDomain);
            }
            scale(i.log_scale, arith::float_of_int(z))
        }
        _ => Ok(0.0),
    }
}

// Of any value: 11 where the distribution is malformed, or a value of its kind breaks the Taken rule.
#[tactic(auto, unfolding(crate::specs::Encode::to_internal_of))]
pub fn to_internal(v: ParamValue, d: Distribution) -> Result<f64, Refusal>
    ensures { result ≡ to_internal_of v d }
{
    let taken = distribution::taken_rule(d, v)?;
    encoded(v, d, taken)
}
