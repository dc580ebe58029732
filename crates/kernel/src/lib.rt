// The Matérn kernel, with the Rust's name and constant.
#![tactic(auto)]

ghost use Rattle.std.specs.Prelude.{◌≡◌, length};
ghost use Rattle.kernel.specs.Accepts.{KernelAccepts};
ghost use Rattle.kernel.specs.Matern.{squared_distance_of, scaled_root_of, decay_of, matern52_of};

use refusal::Refusal;

// The squared distance of two points of one length, each column by its lengthscale.
#[tactic(auto, unfolding(arith::specs::Sums::sum_over))]
fn distance(x1: &[f64], x2: &[f64], lengthscales: &[f64]) -> f64
    requires { (length x1.now ≡ length x2.now) × (length x1.now ≡ length lengthscales.now) }
    ensures { result ≡ squared_distance_of x1.now x2.now lengthscales.now }
{
    let mut r_sq = 0.0;
    for i in 0..x1.len() {
        let diff = (x1[i] - x2[i]) / lengthscales[i];
        r_sq = r_sq + diff * diff;
    }
    r_sq
}

// The Rust's SQRT_5 times the root of a squared distance.
pub fn scaled_root(r_sq: f64) -> f64
    ensures { result ≡ scaled_root_of r_sq }
{
    2.236213562373095 * root::sqrt(r_sq)
}

// The kernel by a squared distance and its scaled root.
fn decay(r_sq: f64, sqrt5_r: f64, signal_var: f64) -> Result<f64, Refusal>
    ensures { result ≡ decay_of r_sq sqrt5_r signal_var }
{
    let e = exponential::exp(-sqrt5_r)?;
    Ok(signal_var * (1.0 + sqrt5_r + 5.0 / 3.0 * r_sq) * e)
}

// The kernel of two points: 11 where the lists differ in length.
#[tactic(auto, unfolding(crate::specs::Matern::matern52_of))]
pub fn matern52(
    x1: &[f64],
    x2: &[f64],
    lengthscales: &[f64],
    signal_var: f64,
) -> Result<f64, Refusal>
    ensures { result ≡ matern52_of x1.now x2.now lengthscales.now signal_var }
{
    if x1.len() != x2.len() || x1.len() != lengthscales.len() {
        return Err(Refusal::OutOfDomain);
    }
    let r_sq = distance(x1, x2, lengthscales);
    decay(r_sq, scaled_root(r_sq), signal_var)
}

// Points and lengthscales of one length have a value, whatever the floats: a theorem, as a contract.
pub fn kernel_accepts()
    ensures { KernelAccepts }
{}
