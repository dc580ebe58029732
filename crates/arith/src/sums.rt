// Sums of products, left to right from +0.
ghost use Rattle.std.specs.Prelude.{◌≡◌, length};
ghost use Rattle.arith.specs.Sums.{dot_of, products};

use refusal::Refusal;

// The sum of the products of two lists of one length.
fn sum_of_products(xs: &[f64], ys: &[f64]) -> f64
    requires { length xs.now ≡ length ys.now }
    ensures { result ≡ products xs.now ys.now }
{
    let mut total = 0.0;
    for i in 0..xs.len() {
        total = total + xs[i] * ys[i];
    }
    total
}

// The same of any two lists: 11 where their lengths differ.
pub fn dot(xs: &[f64], ys: &[f64]) -> Result<f64, Refusal>
    ensures { result ≡ dot_of xs.now ys.now }
{
    if xs.len() != ys.len() {
        return Err(Refusal::OutOfDomain);
    }
    Ok(sum_of_products(xs, ys))
}
