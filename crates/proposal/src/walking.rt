// Dimension by dimension: a value decoded from a point, or drawn at random.
ghost use Rattle.std.specs.Prelude.{◌≡◌, cond, ◌≤◌, ◌<◌};
ghost use Rattle.distribution.specs.Shape.{continuous_of};
ghost use Rattle.proposal.specs.Values.{decode_of, coordinate_of, step_of, walked_of};

use dimensions::{DimensionInfo, Dimensions};
use distribution::{Distribution, ParamValue};
use refusal::Refusal;
use rng_util::Draw;

// 1 for a continuous dimension, else 0.
fn column_width(d: Distribution) -> usize
    ensures { result ≡ cond (continuous_of d) 1 0 }
{
    if dimensions::is_continuous(d) { 1 } else { 0 }
}

// The decoding of a coordinate.
fn decoded(d: DimensionInfo, u: f64) -> Result<ParamValue, Refusal>
    ensures { result ≡ decode_of d u }
{
    let distribution = d.distribution;
    let x = scaling::from_normalized(u, d.lo, d.hi);
    common::from_internal(x, distribution)
}

// A dimension's value, decoded where it is continuous and has a coordinate, else at random.
#[tactic(auto, unfolding(crate::specs::Values::step_of))]
fn step(d: DimensionInfo, u: Option<f64>, word: u64) -> Result<Draw<ParamValue>, Refusal>
    ensures { result ≡ step_of d u word }
{
    match u {
        Some(u) if dimensions::is_continuous(d.distribution) => Ok(Draw {
            value: decoded(d, u)?,
            drawn: 0,
            next: word,
        }),
        _ => common::sample_random(word, d.distribution),
    }
}

// A coordinate of a point, where there is one.
fn coordinate(point: &Option<[f64; 20]>, c: usize) -> Option<f64>
    requires { c < 20 }
    ensures { result ≡ coordinate_of point.now c }
{
    match point {
        Some(x) => Some(x[c]),
        None => None,
    }
}

// The values of the dimensions.
pub(crate) fn walk(
    point: Option<[f64; 20]>,
    dims: Dimensions,
    word: u64,
) -> Result<Draw<[ParamValue; 20]>, Refusal>
    requires { dims.count ≤ 20 }
    ensures { result ≡ walked_of point dims.list dims.count word }
{
    let mut value = [ParamValue::Float(0.0); 20];
    let mut drawn = 0;
    let mut next = word;
    // Kept: c, the continuous dimensions so far, which no range counts; the definition has it as columns_of's length.
    let mut c = 0;
    for j in 0..dims.count {
        let dim = dims.list[j];
        let distribution = dim.distribution;
        let r = step(dim, coordinate(&point, c), next)?;
        value[j] = r.value;
        drawn += r.drawn;
        next = r.next;
        c += column_width(distribution);
    }
    Ok(Draw { value, drawn, next })
}
