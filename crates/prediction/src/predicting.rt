// The prediction.
ghost use Rattle.std.specs.Prelude.{◌≡◌, ◌*◌, ◌≤◌, length, take};
ghost use Rattle.arith.specs.Lists.{padded};
ghost use Rattle.arith.specs.Sums.{products};
ghost use Rattle.prediction.specs.Predict.{kernel_vector_of, posterior_at, counts_fit, predict_of};

use crate::Posterior;
use gp_model::Model;
use refusal::Refusal;

// The kernel of a point and each of the first n rows of a table of its columns.
#[tactic(auto, unfolding(arith::specs::Lists::grown))]
fn kernel_vector(x: &[f64], n: usize, lengthscales: &[f64], p: &[f64]) -> [f64; 100]
    requires { (n ≤ 100) × (n * length p.now ≤ length x.now) × (length p.now ≡ length lengthscales.now) }
    ensures { result ≡ padded 100 (kernel_vector_of x.now n (length p.now) lengthscales.now p.now) }
{
    let d = p.len();
    let mut out = [0.0; 100];
    for i in 0..n {
        let start = i * d;
        let end = start + d;
        out[i] = kernel::matern52(p, &x[start..end], lengthscales, 1.0).unwrap();
    }
    out
}

// The sum of the first n products of two lists.
fn dot(a: &[f64], b: &[f64], n: usize) -> f64
    requires { (n ≤ length a.now) × (n ≤ length b.now) }
    ensures { result ≡ products (take n a.now) (take n b.now) }
{
    arith::dot(&a[..n], &b[..n]).unwrap()
}

// The posterior of a model at a point.
fn posterior(m: &Model, p: &[f64]) -> Posterior
    requires { (m.now.n ≤ 100) × (m.now.d ≤ 20) × (length p.now ≡ m.now.d) }
    ensures { result ≡ posterior_at m.now p.now }
{
    let n = m.n;
    let k = kernel_vector(&m.x_train, n, &m.lengthscales[..m.d], p);
    let mean = dot(&k, &m.alpha, n);
    let v = factor::solve(&m.cholesky, &k, n).unwrap();
    let explained = dot(&k, &v, n);
    let var = 1.0 - explained;
    let held = arith::positive_part(var);
    let std = root::sqrt(held);
    Posterior { mean, std }
}

// Whether a model has 1 to 100 rows of 1 to 20 columns.
#[tactic(auto, unfolding(crate::specs::Predict::counts_fit))]
pub fn counts_fit(n: usize, d: usize) -> bool
    ensures { result ≡ counts_fit n d }
{
    (1..=100).contains(&n) && (1..=20).contains(&d)
}

// The mean and the deviation of a model at a point: 11 outside its domain.
#[tactic(auto, unfolding(crate::specs::Predict::predict_of))]
pub fn predict(m: Model, p: &[f64]) -> Result<Posterior, Refusal>
    ensures { result ≡ predict_of m p.now }
{
    if !(counts_fit(m.n, m.d) && p.len() == m.d && gp_model::all_within(p, 1e32)) {
        return Err(Refusal::OutOfDomain);
    }
    Ok(posterior(&m, p))
}
