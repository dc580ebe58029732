// The fit.
ghost use Rattle.std.specs.Prelude.{◌≡◌, length, ◌≤◌, ◌<◌};
ghost use Rattle.arith.specs.Lists.{padded};
ghost use Rattle.factor.specs.Cholesky.{cholesky_of};
ghost use Rattle.gp_model.specs.Fit.{fit_domain, model_of, fitted_of, fit_of};
ghost use Rattle.gp_model.specs.Kernels.{kernel_matrix_of};
ghost use Rattle.gp_model.specs.Statistics.{lengthscales_of};

use crate::kernels::Covariances;
use crate::tables::Table;
use crate::{Model, statistics};
use refusal::Refusal;

// Whether a fit takes these rows of d columns and these values.
#[tactic(auto, unfolding(crate::specs::Fit::fit_domain))]
fn in_domain(x: &[f64], y: &[f64], d: usize) -> bool
    ensures { result ≡ fit_domain x.now y.now d }
{
    y.len() <= 100
        && 1 <= d
        && d <= 20
        && x.len() == y.len() * d
        && statistics::all_within(x, 1e32)
        && statistics::all_within(y, 4503599627370496.0)
}

// The rows in an array.
fn copied(x: &[f64]) -> [f64; 2000]
    requires { length x.now ≤ 2000 }
    ensures { result ≡ padded 2000 x.now }
{
    let mut out = [0.0; 2000];
    out[..x.len()].copy_from_slice(x);
    out
}

// The factor of the kernel matrix.
fn factored(x: &Table, lengthscales: &[f64], noise_var: f64) -> Result<[f64; 5050], Refusal>
    requires { length lengthscales.now ≡ x.now.d }
    ensures { result ≡ cholesky_of (kernel_matrix_of x.now.cells.now x.now.n x.now.d lengthscales.now noise_var) x.now.n }
{
    let covariances = Covariances {
        x: *x,
        lengthscales,
        noise_var,
    };
    factor::cholesky(&covariances.lower_triangle(), x.n)
}

// The model of a factor.
fn model(x: &Table, y: &[f64], lengthscales: [f64; 20], cholesky: [f64; 5050]) -> Model
    requires { (0 < length y.now) × (length y.now ≡ x.now.n) × (lengthscales ≡ padded 20 (lengthscales_of x.now.cells.now x.now.n x.now.d)) }
    ensures { result ≡ model_of x.now.cells.now y.now x.now.d cholesky }
{
    let n = x.n;
    let values = statistics::standardized(y);
    let f_best = arith::least(&values[..n]);
    let alpha = factor::solve(&cholesky, &values, n).unwrap();
    let x_train = copied(x.cells);
    Model {
        x_train,
        lengthscales,
        cholesky,
        alpha,
        f_best,
        n,
        d: x.d,
    }
}

// The fit of at least one row.
fn fitted(x: &Table, y: &[f64], noise_var: f64) -> Result<Model, Refusal>
    requires { (0 < length y.now) × (length y.now ≡ x.now.n) }
    ensures { result ≡ fitted_of x.now.cells.now y.now x.now.d noise_var }
{
    let lengthscales = statistics::lengthscales(x);
    let cholesky = factored(x, &lengthscales[..x.d], noise_var)?;
    Ok(model(x, y, lengthscales, cholesky))
}

// The model of n rows of d columns, row after row, and n values: 11 outside its domain, 12 without rows, 13 where a
// pivot is not above 0.
#[tactic(auto, unfolding(crate::specs::Fit::fit_of))]
pub fn fit_gp(x: &[f64], y: &[f64], d: usize, noise_var: f64) -> Result<Model, Refusal>
    ensures { result ≡ fit_of x.now y.now d noise_var }
{
    if !in_domain(x, y, d) {
        return Err(Refusal::OutOfDomain);
    }
    if y.is_empty() {
        return Err(Refusal::NoRows);
    }
    let n = y.len();
    fitted(&Table { cells: x, n, d }, y, noise_var)
}
