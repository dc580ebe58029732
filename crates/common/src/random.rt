// A random value for any distribution, one word each.
ghost use Rattle.std.specs.Prelude.{◌≡◌, T, ◌≤◌};
ghost use Rattle.distribution.specs.Shape.{int_shape, shape_of};
ghost use Rattle.common.specs.Random.{range_of, log_range, log_float_random, stepped_float_random, linear_float_random};
ghost use Rattle.common.specs.Random.{unclamped_random, float_random, log_int_random, stepped_int_random};
ghost use Rattle.common.specs.Random.{linear_int_random, int_random, categorical_random, random_of, sample_random_of};
ghost use Rattle.common.specs.RandomParts.{LogFits, Stepped};

use crate::decode::int_decoded;
use crate::grid::{clamp, float_grid};
use distribution::{Distribution, FloatDistribution, IntDistribution, ParamValue};
use encoding::{InternalBounds, internal_bounds};
use refusal::Refusal;
use rng_util::Draw;

// A float from low to high, at a unit float.
fn f64_range(low: f64, high: f64, u: f64) -> f64
    ensures { result ≡ range_of low high u }
{
    low + u * (high - low)
}

// The same on log scale, from the logarithms of the ends.
fn log_range(b: InternalBounds, u: f64) -> Result<f64, Refusal>
    ensures { result ≡ log_range b u }
{
    match b {
        Ok(Some((lo, hi))) => exponential::exp(f64_range(lo, hi, u)),
        Ok(None) => Err(Refusal::OutOfDomain),
        Err(n) => Err(n),
    }
}

#[tactic(auto, unfolding(crate::specs::Random::log_float_random))]
fn log_float_random(w: u64, d: FloatDistribution) -> Result<Draw<f64>, Refusal>
    ensures { result ≡ log_float_random w d }
{
    let r = rng_util::unit_float(w)?;
    let v = log_range(internal_bounds(Distribution::Float(d)), r.value)?;
    Ok(r.with(float_grid(d, v)))
}

#[tactic(auto, unfolding(crate::specs::Random::stepped_float_random))]
fn stepped_float_random(w: u64, low: f64, high: f64, step: f64) -> Result<Draw<f64>, Refusal>
    ensures { result ≡ stepped_float_random w low high step }
{
    let n = arith::int_of_float(arith::floor((high - low) / step));
    let r = rng_util::whole_number(w, 0, n)?;
    let k = r.value;
    Ok(r.with(low + arith::float_of_int(k) * step))
}

#[tactic(auto, unfolding(crate::specs::Random::linear_float_random))]
fn linear_float_random(w: u64, low: f64, high: f64) -> Result<Draw<f64>, Refusal>
    ensures { result ≡ linear_float_random w low high }
{
    let r = rng_util::unit_float(w)?;
    let u = r.value;
    Ok(r.with(f64_range(low, high, u)))
}

// A random float before the clamp.
// Kept: beside int_random, as each of its three draws beside an int's: a float's scales a unit float and rounds, an
// int's counts; one function for both takes three closures, with a clause each, for its two tests.
#[tactic(auto, unfolding(crate::specs::Random::unclamped_random))]
fn unclamped_random(w: u64, d: FloatDistribution) -> Result<Draw<f64>, Refusal>
    ensures { result ≡ unclamped_random w d }
{
    if d.log_scale {
        return log_float_random(w, d);
    }
    match d.step {
        Some(step) => stepped_float_random(w, d.low, d.high, step),
        None => linear_float_random(w, d.low, d.high),
    }
}

// A random float, clamped to low..high whichever way it was drawn.
#[tactic(auto, unfolding(crate::specs::Random::float_random))]
fn float_random(w: u64, d: FloatDistribution) -> Result<Draw<ParamValue>, Refusal>
    ensures { result ≡ float_random w d }
{
    let r = unclamped_random(w, d)?;
    let v = clamp(d.low, d.high, r.value);
    Ok(r.with(ParamValue::Float(v)))
}

#[tactic(auto, unfolding(crate::specs::Random::log_int_random))]
fn log_int_random(w: u64, d: IntDistribution) -> Result<Draw<ParamValue>, Refusal>
    requires { LogFits w d }
    ensures { result ≡ log_int_random w d }
{
    let r = rng_util::unit_float(w)?;
    let v = log_range(internal_bounds(Distribution::Int(d)), r.value)?;
    Ok(r.with(int_decoded(d, v)))
}

#[tactic(auto, unfolding(crate::specs::Random::stepped_int_random))]
fn stepped_int_random(w: u64, low: i64, high: i64, step: i64) -> Result<Draw<ParamValue>, Refusal>
    requires { Stepped low high step }
    ensures { result ≡ stepped_int_random w low high step }
{
    let r = rng_util::whole_number(w, 0, (high - low) / step)?;
    let k = r.value;
    Ok(r.with(ParamValue::Int(low + k * step)))
}

#[tactic(auto, unfolding(crate::specs::Random::linear_int_random))]
fn linear_int_random(w: u64, low: i64, high: i64) -> Result<Draw<ParamValue>, Refusal>
    ensures { result ≡ linear_int_random w low high }
{
    let r = rng_util::whole_number(w, low, high)?;
    Ok(r.with(ParamValue::Int(r.value)))
}

#[tactic(auto, unfolding(crate::specs::Random::int_random))]
fn int_random(w: u64, d: IntDistribution) -> Result<Draw<ParamValue>, Refusal>
    requires { T (int_shape d) }
    ensures { result ≡ int_random w d }
{
    if d.log_scale {
        return log_int_random(w, d);
    }
    match d.step {
        Some(step) => stepped_int_random(w, d.low, d.high, step),
        None => linear_int_random(w, d.low, d.high),
    }
}

#[tactic(auto, unfolding(crate::specs::Random::categorical_random))]
fn categorical_random(w: u64, n_choices: u64) -> Result<Draw<ParamValue>, Refusal>
    requires { (1 ≤ n_choices) × (n_choices ≤ 4294967296) }
    ensures { result ≡ categorical_random w n_choices }
{
    let r = rng_util::whole_number(w, 0, (n_choices - 1) as i64)?;
    let k = r.value;
    Ok(r.with(ParamValue::Categorical(k as u64)))
}

#[tactic(auto, unfolding(crate::specs::Random::random_of))]
fn random(w: u64, d: Distribution) -> Result<Draw<ParamValue>, Refusal>
    requires { T (shape_of d) }
    ensures { result ≡ random_of w d }
{
    match d {
        Distribution::Float(f) => float_random(w, f),
        Distribution::Int(i) => int_random(w, i),
        Distribution::Categorical(c) => categorical_random(w, c.n_choices),
    }
}

// A random value of any distribution: 11 where it is malformed or the generator's word is 0.
#[tactic(auto, unfolding(crate::specs::Random::sample_random_of))]
pub fn sample_random(w: u64, d: Distribution) -> Result<Draw<ParamValue>, Refusal>
    ensures { result ≡ sample_random_of w d }
{
    if !distribution::well_formed(d) {
        return Err(Refusal::OutOfDomain);
    }
    random(w, d)
}
