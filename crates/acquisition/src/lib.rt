// The normal distribution and expected improvement, with the Rust's names and constants.
#![tactic(auto)]

ghost use Rattle.std.specs.Prelude.{◌≡◌};
ghost use Rattle.std.specs.Prelude.{Ok};
ghost use Rattle.acquisition.specs.Accepts.{ImprovementAccepts};
ghost use Rattle.acquisition.specs.Normal.{norm_pdf_of, polynomial_of, upper_of, norm_cdf_of};
ghost use Rattle.acquisition.specs.Improvement.{expected_improvement_of};

// The standard normal density.
pub fn norm_pdf(x: f64) -> f64
    ensures { Ok result ≡ norm_pdf_of x }
{
    0.3989422804014327 * exponential::exp(-0.5 * x * x).unwrap()
}

// The polynomial of 26.2.17 at t.
fn polynomial(t: f64) -> f64
    ensures { result ≡ polynomial_of t }
{
    let t2 = t * t;
    let t3 = t2 * t;
    let t4 = t3 * t;
    let t5 = t4 * t;
    0.319381530 * t - 0.356563782 * t2 + 1.781477937 * t3 - 1.821255978 * t4 + 1.330274429 * t5
}

// 26.2.17 at an x that is not below 0.
fn upper(x: f64) -> f64
    ensures { Ok result ≡ upper_of x }
{
    1.0 - norm_pdf(x) * polynomial(1.0 / (1.0 + 0.2316419 * x))
}

// The standard normal distribution function: 0 below -8 and 1 above 8.
pub fn norm_cdf(x: f64) -> f64
    ensures { Ok result ≡ norm_cdf_of x }
{
    if x < -8.0 {
        return 0.0;
    }
    if x > 8.0 {
        return 1.0;
    }
    let cdf = upper(arith::abs(x));
    if x >= 0.0 { cdf } else { 1.0 - cdf }
}

// The expected improvement over the best value, at a point with this mean and deviation.
pub fn expected_improvement(mean: f64, std: f64, f_best: f64) -> f64
    ensures { Ok result ≡ expected_improvement_of mean std f_best }
{
    if std < 1e-12 {
        return arith::positive_part(f_best - mean);
    }
    let z = (f_best - mean) / std;
    arith::positive_part((f_best - mean) * norm_cdf(z) + std * norm_pdf(z))
}

// Every three floats have an improvement, no NaN and not below 0: a theorem, as a contract.
pub fn improvement_accepts()
    ensures { ImprovementAccepts }
{}
