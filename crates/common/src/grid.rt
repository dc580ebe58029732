// A value moved to the grid of a stepped distribution, and held to its ends.
ghost use Rattle.std.specs.Prelude.{◌≡◌};
ghost use Rattle.std.specs.Ordering.{partial_lt};
ghost use Rattle.common.specs.Grid.{clamp_of, float_grid, int_grid};
ghost use Rattle.common.specs.GridParts.{GridFits};

use distribution::{FloatDistribution, IntDistribution};

// What Rust's clamp answers; where high is below low, high, unless the raised value is no more than it.
// Kept: by two tests, since std's clamp asks that low is at most high, a clause in each function from here up to the
// test of the shape; and f64::max answers the limit for a NaN.
pub(crate) fn clamp<T: PartialOrd + Copy>(low: T, high: T, v: T) -> T
    ensures { result ≡ clamp_of (partial_lt T.partial_cmp) low high v }
{
    let raised = if v < low { low } else { v };
    if high < raised { high } else { raised }
}

// The float of the grid nearest to v, counted from low; v where there is no step.
#[tactic(auto, unfolding(crate::specs::Grid::float_grid))]
pub(crate) fn float_grid(d: FloatDistribution, v: f64) -> f64
    ensures { result ≡ float_grid d v }
{
    match d.step {
        Some(step) => d.low + arith::round((v - d.low) / step) * step,
        None => v,
    }
}

// The whole number of the grid nearest to v, counted from low; the nearest whole number where there is no step.
// Kept: beside float_grid, since its steps are rounded to an i64 and counted there, and a float's are a float.
#[tactic(auto, unfolding(crate::specs::Grid::int_grid))]
pub(crate) fn int_grid(d: IntDistribution, v: f64) -> i64
    requires { GridFits d v }
    ensures { result ≡ int_grid d v }
{
    match d.step {
        Some(step) => {
            let k = arith::int_of_float(arith::round(
                (v - arith::float_of_int(d.low)) / arith::float_of_int(step),
            ));
            d.low + k * step
        }
        None => arith::int_of_float(arith::round(v)),
    }
}
