// ln by document 01's recipe.
ghost use Rattle.std.specs.Prelude.{◌≡◌, ◌<◌};
ghost use Rattle.std.specs.Float.{binary64};
ghost use Rattle.std.specs.Float.Ieee.{of_int, minus};
ghost use Rattle.logarithm.specs.Ln.{ln_of, series_of, halved_of};

use refusal::Refusal;

// The exponent's field, less 1023, as a float.
fn exponent(field: u64) -> f64
    requires { field < 2047 }
    ensures { result ≡ of_int binary64 (minus field 1023) }
{
    if field >= 1023 {
        (field - 1023) as f64
    } else {
        -((1023 - field) as f64)
    }
}

// The logarithm of m * 2^e, for an m near 1.
fn series(m: f64, e: f64) -> f64
    ensures { result ≡ series_of m e }
{
    let s = (m - 1.0) / (m + 1.0);
    let z = s * s;
    let a = 1.0 / 21.0 + z * (1.0 / 23.0);
    let b = 1.0 / 19.0 + z * a;
    let c = 1.0 / 17.0 + z * b;
    let d = 1.0 / 15.0 + z * c;
    let f = 1.0 / 13.0 + z * d;
    let g = 1.0 / 11.0 + z * f;
    let h = 1.0 / 9.0 + z * g;
    let i = 1.0 / 7.0 + z * h;
    let j = 1.0 / 5.0 + z * i;
    let k = 1.0 / 3.0 + z * j;
    let q = 1.0 / 1.0 + z * k;
    e * 0.6931471803691238 + ((2.0 * s) * q + e * 1.9082149292705877e-10)
}

// The same for an m from 1 to 2.
fn halved(m: f64, e: f64) -> f64
    ensures { result ≡ halved_of m e }
{
    if m > 1.4142135623730951 {
        series(m * 0.5, e + 1.0)
    } else {
        series(m, e)
    }
}

// The natural logarithm of x: 11 where x is not normal, positive and finite.
pub fn ln(x: f64) -> Result<f64, Refusal>
    ensures { result ≡ ln_of x }
{
    if x > 0.0 {
        let b = f64::to_bits(x);
        let field = b / 0x10_0000_0000_0000;
        if field < 1 {
            return Err(Refusal::OutOfDomain);
        }
        if field >= 2047 {
            return Err(Refusal::OutOfDomain);
        }
        let m = f64::from_bits(0x3ff0_0000_0000_0000 + b % 0x10_0000_0000_0000);
        Ok(halved(m, exponent(field)))
    } else {
        Err(Refusal::OutOfDomain)
    }
}
