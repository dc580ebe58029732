// Leaves for programs in other languages, which time them: words in, words out.
#![tactic(auto)]

ghost use Rattle.std.specs.Prelude.{◌≡◌};
ghost use Rattle.std.specs.Float.{binary64};
ghost use Rattle.std.specs.Float.Ieee.{of_bits, to_bits};
ghost use Rattle.exponential.specs.Exp.{exp_of};
ghost use Rattle.logarithm.specs.Ln.{ln_of};
ghost use Rattle.root.specs.Sqrt.{sqrt_of};
ghost use Rattle.exports.specs.Told.{told_of};

use refusal::Refusal;

// The word of a value, or the number of a refusal.
fn told(o: Result<f64, Refusal>) -> u64
    ensures { result ≡ told_of o }
{
    match o {
        Ok(x) => arith::word_of_float(x),
        Err(refusal) => refusal.number(),
    }
}

#[unsafe(no_mangle)]
pub extern "C" fn arith_sqrt(x: u64) -> u64
    ensures { result ≡ to_bits binary64 (sqrt_of (of_bits binary64 x)) }
{
    arith::word_of_float(root::sqrt(arith::float_of_word(x)))
}

#[unsafe(no_mangle)]
pub extern "C" fn arith_exp(x: u64) -> u64
    ensures { result ≡ told_of (exp_of (of_bits binary64 x)) }
{
    told(exponential::exp(arith::float_of_word(x)))
}

#[unsafe(no_mangle)]
pub extern "C" fn arith_ln(x: u64) -> u64
    ensures { result ≡ told_of (ln_of (of_bits binary64 x)) }
{
    told(logarithm::ln(arith::float_of_word(x)))
}
