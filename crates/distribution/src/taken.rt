// The Taken rule.
ghost use Rattle.std.specs.Prelude.{◌≡◌, cond, Some, None};
ghost use Rattle.distribution.specs.Shape.{shape_of, where_formed};
ghost use Rattle.distribution.specs.Taken.{float_taken, taken_of, value_of};

use crate::limits::ranged;
use crate::shape::formed;
use crate::{Distribution, ParamValue};
use refusal::Refusal;

// Whether a float may be the value of a float's distribution of that scale.
fn float_taken(log_scale: bool, x: f64) -> bool
    ensures { result ≡ float_taken log_scale x }
{
    ranged(
        -9007199254740992.0,
        9007199254740992.0,
        1.1102230246251565e-16,
        log_scale,
        x,
    )
}

// Whether a value may stand in a history under a distribution.
#[tactic(auto, unfolding(crate::specs::Taken::taken_of, crate::specs::Taken::int_taken))]
fn taken(d: Distribution, v: ParamValue) -> bool
    ensures { result ≡ taken_of d v }
{
    match (d, v) {
        (Distribution::Float(f), ParamValue::Float(x)) => float_taken(f.log_scale, x),
        (Distribution::Int(i), ParamValue::Int(z)) => {
            ranged(-4503599627370496, 4503599627370496, 1, i.log_scale, z)
        }
        (Distribution::Categorical(c), ParamValue::Categorical(k)) => k < c.n_choices,
        _ => false,
    }
}

// The value that a word is under a distribution's kind.
#[tactic(auto, unfolding(crate::specs::Taken::value_of))]
fn value(d: Distribution, w: u64) -> ParamValue
    ensures { result ≡ value_of d w }
{
    match d {
        Distribution::Float(_) => ParamValue::Float(arith::float_of_word(w)),
        Distribution::Int(_) => ParamValue::Int(arith::int_of_word(w)),
        Distribution::Categorical(_) => ParamValue::Categorical(w),
    }
}

// Whether a value obeys the Taken rule of a distribution: 11 where that is malformed.
pub fn taken_rule(d: Distribution, v: ParamValue) -> Result<bool, Refusal>
    ensures { result ≡ where_formed (shape_of d) (taken_of d v) }
{
    Ok(taken(formed(d)?, v))
}

// The value that a word is under a distribution: 11 where that is malformed.
pub fn value_of_word(d: Distribution, w: u64) -> Result<ParamValue, Refusal>
    ensures { result ≡ where_formed (shape_of d) (value_of d w) }
{
    Ok(value(formed(d)?, w))
}

// Both at once: that value, none where it breaks the Taken rule.
pub fn taken_value(d: Distribution, w: u64) -> Result<Option<ParamValue>, Refusal>
    ensures { let v = value_of d w in result ≡ where_formed (shape_of d) (cond (taken_of d v) (Some v) None) }
{
    let v = value_of_word(d, w)?;
    Ok(if taken(d, v) { Some(v) } else { None })
}
