// exp by document 01's recipe, alone and of eight at once.
#![tactic(auto)]

ghost use Rattle.std.specs.Prelude.{◌≡◌, ℕ, ◌<◌, ◌≤◌, false, pos, slice_index, slice_index_or};
ghost use Rattle.std.specs.Float.{nan, fin};
ghost use Rattle.std.specs.Float.Ieee.{minus};
ghost use Rattle.arith.specs.Bounds.{Within};
ghost use Rattle.arith.specs.Lists.{list_of};
ghost use Rattle.arith.specs.Outcome.{value_of};
ghost use Rattle.arith.specs.Rounding.{nearest_of};
ghost use Rattle.exponential.specs.Exp.{exp_of, exp_eight_of, horner_of, none_above, reduced_of, one};
ghost use Rattle.exponential.specs.ExpParts.{size_of, falling_of};

use refusal::Refusal;

// The whole number nearest to the size of t, a half upward.
fn nearest(t: f64) -> u64
    requires { Within (fin false 1 (pos 60)) t }
    ensures { result ≡ nearest_of t }
{
    (std::num::truncating_f64_to_u64(arith::abs(t + t)) + 1) / 2
}

// 2 to the b - 1023.
fn power_of_two(b: u64) -> f64
    requires { (0 < b) × (b < 2047) }
    ensures { result ≡ fin false 1 (minus b 1023) }
{
    f64::from_bits(b * 0x10_0000_0000_0000)
}

// x less k times ln 2, which is in two parts.
fn reduced(x: f64, k: f64) -> f64
    ensures { result ≡ reduced_of x k }
{
    (x - k * 0.6931471803691238) - k * 1.9082149292705877e-10
}

// The polynomial, from its last term.
fn horner(r: f64) -> f64
    ensures { result ≡ horner_of 13 r one }
{
    let a = 1.0 + (r * 1.0) / 13.0;
    let b = 1.0 + (r * a) / 12.0;
    let c = 1.0 + (r * b) / 11.0;
    let d = 1.0 + (r * c) / 10.0;
    let e = 1.0 + (r * d) / 9.0;
    let f = 1.0 + (r * e) / 8.0;
    let g = 1.0 + (r * f) / 7.0;
    let h = 1.0 + (r * g) / 6.0;
    let i = 1.0 + (r * h) / 5.0;
    let j = 1.0 + (r * i) / 4.0;
    let k = 1.0 + (r * j) / 3.0;
    let l = 1.0 + (r * k) / 2.0;
    1.0 + (r * l) / 1.0
}

// The exponential of x: 11 above 709.
pub fn exp(x: f64) -> Result<f64, Refusal>
    ensures { result ≡ exp_of x }
{
    if x.is_nan() {
        return Ok(x);
    }
    if x < -708.0 {
        return Ok(0.0);
    }
    if x > 709.0 {
        return Err(Refusal::OutOfDomain);
    }
    let n = nearest(x * 1.4426950408889634);
    if x < 0.0 {
        Ok(falling(x, n))
    } else {
        Ok(horner(reduced(x, n as f64)) * power_of_two(1023 + n))
    }
}

// The size of k where x is from -708 up and below 0, else 0.
fn whole(x: f64) -> u64
    ensures { result ≡ size_of x }
{
    if x < 0.0 {
        if x < -708.0 {
            return 0;
        }
        return nearest(x * 1.4426950408889634);
    }
    0
}

// The same of each of eight.
#[tactic(auto, using(arith::proofs::Eights::eight_numbers))]
fn wholes(x: &[f64; 8]) -> [u64; 8]
    ensures { result ≡ list_of (λ (p : ℕ). size_of (slice_index_or x.now p nan)) 8 }
{
    std::array::from_fn(|p| whole(x[p]))
}

// The answer by k = -n.
fn falling(x: f64, n: u64) -> f64
    requires { n ≤ 1022 }
    ensures { result ≡ falling_of x n }
{
    horner(reduced(x, -(n as f64))) * power_of_two(1023 - n)
}

// The same of each of eight, with no branch.
#[tactic(auto, using(arith::proofs::Eights::eight_floats))]
fn fallings(x: &[f64; 8], n: &[u64; 8]) -> [f64; 8]
    requires { (p : ℕ) → p < 8 → slice_index n.now p ≤ 1022 }
    ensures { result ≡ list_of (λ (p : ℕ). falling_of (slice_index_or x.now p nan) (slice_index n.now p)) 8 }
{
    std::array::from_fn(|p| falling(x[p], n[p]))
}

// The exponential of x, which is e where x is from -708 up and below 0; a NaN above 709.
fn settled(x: f64, e: f64) -> f64
    ensures { e ≡ falling_of x (size_of x) → result ≡ value_of (exp_of x) }
{
    if x < 0.0 {
        if x < -708.0 {
            return arith::value(exp(x));
        }
        return e;
    }
    arith::value(exp(x))
}

// The exponentials of eight floats; a NaN above 709.
fn exponentials(x: &[f64; 8]) -> [f64; 8]
    ensures { result ≡ list_of (λ (p : ℕ). value_of (exp_of (slice_index_or x.now p nan))) 8 }
{
    let n = wholes(x);
    let e = fallings(x, &n);
    std::array::from_fn(|p| settled(x[p], e[p]))
}

// Whether none of eight floats is above 709.
fn none_above(x: &[f64; 8]) -> bool
    ensures { result ≡ none_above x.now }
{
    x.iter().all(|v| !(*v > 709.0))
}

// The exponentials of eight floats, side by side: 11 where one is above 709.
#[tactic(auto, unfolding(crate::specs::Exp::exp_eight_of))]
pub fn exp_eight(x: &[f64; 8]) -> Result<[f64; 8], Refusal>
    ensures { result ≡ exp_eight_of x.now }
{
    if !none_above(x) {
        return Err(Refusal::OutOfDomain);
    }
    Ok(exponentials(x))
}
