// The deviation and the standardised values of a fit, and its lengthscales.
ghost use Rattle.std.specs.Prelude.{◌≡◌, ◌≤◌, ◌<◌, length};
ghost use Rattle.arith.specs.Lists.{padded};
ghost use Rattle.gp_model.specs.Statistics.{all_within, value_deviation_of, standardized_of, lengthscales_of};

use crate::tables::Table;

// Whether every element is at most the limit in size.
pub fn all_within(xs: &[f64], limit: f64) -> bool
    ensures { result ≡ all_within limit xs.now }
{
    xs.iter().all(|x| arith::abs(*x) <= limit)
}

// The deviation of the values of a fit.
fn value_deviation(y: &[f64]) -> f64
    requires { (0 < length y.now) × (length y.now ≤ 100) }
    ensures { result ≡ value_deviation_of y.now }
{
    let n = y.len();
    let values = Table { cells: y, n, d: 1 };
    if n > 1 {
        return arith::at_least(root::sqrt(values.variance(0, n - 1)), 1e-10);
    }
    arith::at_least(root::sqrt(1.0), 1e-10)
}

// The values of a fit, standardised.
pub(crate) fn standardized(y: &[f64]) -> [f64; 100]
    requires { (0 < length y.now) × (length y.now ≤ 100) }
    ensures { result ≡ padded 100 (standardized_of y.now) }
{
    let n = y.len();
    let values = Table { cells: y, n, d: 1 };
    let y_mean = values.mean(0);
    let y_std = value_deviation(y);
    let mut out = [0.0; 100];
    for (i, v) in y.iter().enumerate() {
        out[i] = (*v - y_mean) / y_std;
    }
    out
}

// The lengthscale of each column.
pub(crate) fn lengthscales(x: &Table) -> [f64; 20]
    ensures { result ≡ padded 20 (lengthscales_of x.now.cells.now x.now.n x.now.d) }
{
    let mut out = [0.0; 20];
    for j in 0..x.d {
        out[j] = arith::at_least(root::sqrt(x.variance(j, x.n)), 0.01);
    }
    out
}
