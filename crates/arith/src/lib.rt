// Document 01's arithmetic on f64, each function total and equal to its definition in specs/ for every argument.
// The laws on these definitions that other crates cite stand in proofs/.
#![tactic(auto)]

ghost use Rattle.std.specs.Prelude.{◌≡◌};
ghost use Rattle.arith.specs.Outcome.{value_of, word_of};
ghost use Rattle.refusal.specs.Numbers.{number_of};

pub mod choice;
pub mod rounding;
pub mod sums;
pub mod words;

pub use choice::{abs, at_least, least, positive_part};
use refusal::Refusal;
pub use rounding::{floor, round};
pub use sums::dot;
pub use words::{
    float_of_int, float_of_word, int_of_float, int_of_word, word_of_float, word_of_int,
};

// The number of an answer: 0 where it is accepted, else the refusal's.
pub fn number(answer: Result<f64, Refusal>) -> u64
    ensures { result ≡ number_of answer }
{
    match answer {
        Ok(_) => 0,
        Err(refusal) => refusal.number(),
    }
}

// The word of an answer: the value's, 0 where it is refused.
pub fn word(answer: Result<f64, Refusal>) -> u64
    ensures { result ≡ word_of answer }
{
    match answer {
        Ok(x) => words::word_of_float(x),
        Err(_) => 0,
    }
}

// The value of an answer, a NaN where there is none.
pub fn value(answer: Result<f64, Refusal>) -> f64
    ensures { result ≡ value_of answer }
{
    answer.unwrap_or(f64::NAN)
}
