// The distribution of six words.
ghost use Rattle.std.specs.Prelude.{◌≡◌, None, Some, MatchOption, IsSomeAnd};
ghost use Rattle.distribution_words.specs.RoundTrip.{RoundTrip};
ghost use Rattle.distribution_words.specs.Words.{read_of, checked_of, flags_ok, number_of, only};

use distribution::{CategoricalDistribution, Distribution, NumberDistribution, well_formed};

// The six words that say a distribution, or none.
#[derive(Clone, Copy)]
pub struct Words {
    pub kind: u64,
    pub low: u64,
    pub high: u64,
    pub log: u64,
    pub stepped: u64,
    pub step: u64,
}

// A distribution where it is well-formed.
#[tactic(auto, unfolding(crate::specs::Words::checked_of))]
fn checked(d: Distribution) -> Option<Distribution>
    ensures { result ≡ checked_of d }
{
    if well_formed(d) { Some(d) } else { None }
}

// The words of the numbers of a distribution, where its flags are 0 or 1 and the step's word is 0 without a step.
fn numbers(w: Words) -> Option<NumberDistribution<u64>>
    ensures { result ≡ only (flags_ok w.log w.stepped w.step) (Some (number_of (λ w. w) w.low w.high w.log w.stepped w.step)) }
{
    if w.log <= 1 && (w.stepped == 1 || (w.stepped == 0 && w.step == 0)) {
        Some(NumberDistribution {
            low: w.low,
            high: w.high,
            log_scale: w.log == 1,
            step: (w.stepped == 1).then_some(w.step),
        })
    } else {
        None
    }
}

// The distribution of what f makes of each number.
fn map<T: Copy, U, F: Fn(T) -> U>(d: NumberDistribution<T>, f: F) -> NumberDistribution<U>
    requires { F.IsAlwaysCallable f }
    ensures low { F.post f d.low result.low }
    ensures high { F.post f d.high result.high }
    ensures log_scale { result.log_scale ≡ d.log_scale }
    ensures step { MatchOption d.step (result.step ≡ None) (λ x. IsSomeAnd result.step (F.post f x)) }
{
    NumberDistribution {
        low: f(d.low),
        high: f(d.high),
        log_scale: d.log_scale,
        step: d.step.map(f),
    }
}

// The distribution that six words say, or that they are malformed.
#[tactic(auto, unfolding(crate::specs::Words::read_of))]
pub fn distribution_of(w: Words) -> Option<Distribution>
    ensures { result ≡ read_of w.kind w.low w.high w.log w.stepped w.step }
{
    match w.kind {
        1 => checked(Distribution::Float(map(numbers(w)?, arith::float_of_word))),
        2 => checked(Distribution::Int(map(numbers(w)?, arith::int_of_word))),
        3 if w.high == 0 && w.log == 0 && w.stepped == 0 && w.step == 0 => {
            checked(Distribution::Categorical(CategoricalDistribution { n_choices: w.low }))
        }
        _ => None,
    }
}

// A well-formed distribution and its six words say the same.
pub fn round_trip()
    ensures { RoundTrip }
{}
