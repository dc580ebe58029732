// What the posteriors of eight points are made of.
ghost use Rattle.std.specs.Prelude.{◌≡◌, ◌*◌, ◌≤◌, length};
ghost use Rattle.lanes.specs.Posteriors.{at_points_of, posterior_sums_of};

use crate::{PosteriorSums, kernels, solving, sums};
use refusal::Refusal;

// The sums at eight points, by a model's rows, lengthscales, factor and weights.
// Kept: n beside the rows, which may be more than n, and say nothing of it where there is no column.
fn at_points(
    points: &[[f64; 8]; 20],
    x: &[f64],
    n: usize,
    lengthscales: &[f64],
    cholesky: &[f64; 5050],
    alpha: &[f64],
) -> PosteriorSums
    requires { let d = length lengthscales.now in
        (n ≤ 100) × (d ≤ 20) × (n * d ≤ length x.now) × (n ≤ length alpha.now) }
    ensures { result ≡ at_points_of points.now x.now n lengthscales.now cholesky.now alpha.now }
{
    let k = kernels::kernel_rows(points, x, n, lengthscales);
    let means = sums::dot_each(&k, alpha, n);
    let v = solving::solve(cholesky, &k, n);
    let products = sums::dot(&k, &v, n);
    PosteriorSums { means, products }
}

// The same: 11 over 100 rows or 20 columns, and where rows or weights are not all there.
#[tactic(auto, unfolding(crate::specs::Posteriors::posterior_sums_of))]
pub fn posterior_sums(
    points: &[[f64; 8]; 20],
    x: &[f64],
    n: usize,
    lengthscales: &[f64],
    cholesky: &[f64; 5050],
    alpha: &[f64],
) -> Result<PosteriorSums, Refusal>
    ensures { result ≡ posterior_sums_of points.now x.now n lengthscales.now cholesky.now alpha.now }
{
    let d = lengthscales.len();
    if n <= 100 && d <= 20 && n * d <= x.len() && n <= alpha.len() {
        return Ok(at_points(points, x, n, lengthscales, cholesky, alpha));
    }
    Err(Refusal::OutOfDomain)
}
