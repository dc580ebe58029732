// Dimensions: a distribution beside its bounds.
ghost use Rattle.std.specs.Prelude.{◌≡◌, ◌<◌};
ghost use Rattle.distribution.specs.Shape.{shape_of, where_formed, continuous_of};
ghost use Rattle.dimensions.specs.Dimensions.{same_bits, bounds_are, with_bounds, dimension_of, dimension_ok, dimensions_ok};

use crate::{DimensionInfo, Dimensions};
use distribution::Distribution;
use encoding::InternalBounds;
use refusal::Refusal;

// Whether two floats have the same bits.
// Kept: NaNs count as one float, whose pattern is `word_of_float`'s; `to_bits` may not be asked of a NaN.
fn same_bits(a: f64, b: f64) -> bool
    ensures { result ≡ same_bits a b }
{
    arith::word_of_float(a) == arith::word_of_float(b)
}

// Whether lo and hi are those bounds.
fn bounds_are(bounds: InternalBounds, lo: f64, hi: f64) -> bool
    ensures { result ≡ bounds_are bounds lo hi }
{
    match bounds {
        Ok(Some((a, b))) => same_bits(a, lo) && same_bits(b, hi),
        Ok(None) => same_bits(0.0, lo) && same_bits(0.0, hi),
        Err(_) => false,
    }
}

fn with_bounds(distribution: Distribution, bounds: InternalBounds) -> DimensionInfo
    ensures { result ≡ with_bounds distribution bounds }
{
    match bounds {
        Ok(Some((lo, hi))) => DimensionInfo {
            distribution,
            lo,
            hi,
        },
        Ok(None) | Err(_) => DimensionInfo {
            distribution,
            lo: 0.0,
            hi: 0.0,
        },
    }
}

// The dimension of a distribution: 11 where that is malformed.
pub fn dimension(distribution: Distribution) -> Result<DimensionInfo, Refusal>
    ensures { result ≡ where_formed (shape_of distribution) (dimension_of distribution) }
{
    if !distribution::well_formed(distribution) {
        return Err(Refusal::OutOfDomain);
    }
    Ok(with_bounds(distribution, encoding::internal_bounds(distribution)))
}

// Whether a dimension has its distribution's bounds.
#[tactic(auto, unfolding(crate::specs::Dimensions::dimension_ok))]
fn dimension_ok(d: DimensionInfo) -> bool
    ensures { result ≡ dimension_ok d }
{
    bounds_are(encoding::internal_bounds(d.distribution), d.lo, d.hi)
}

// Whether they are at most 20, each with its distribution's bounds.
#[tactic(auto, unfolding(crate::specs::Dimensions::dimensions_ok))]
pub fn dimensions_ok(dims: Dimensions) -> bool
    ensures { result ≡ dimensions_ok dims.list dims.count }
{
    dims.count <= 20 && dims.list[..dims.count].iter().all(|d| dimension_ok(*d))
}

// Whether it is no choice: its kind alone, whatever its numbers.
pub fn is_continuous(d: Distribution) -> bool
    ensures { result ≡ continuous_of d }
{
    !matches!(d, Distribution::Categorical(_))
}
