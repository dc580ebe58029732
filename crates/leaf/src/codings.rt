// The leaves of `distribution` and `common`. Six words are a distribution; a malformed one is 11.
use crate::reply::{Failure, Reply, Results, exactly, put, put_float};
use distribution::{Distribution, ParamValue};
use distribution_words::Words;
use generator::Generator;
use refusal::Refusal;

// Six words by their names.
pub(crate) fn six(words: [u64; 6]) -> Words {
    let [kind, low, high, log, stepped, step] = words;
    Words {
        kind,
        low,
        high,
        log,
        stepped,
        step,
    }
}

// The distribution of six words.
pub(crate) fn distribution(words: &[u64]) -> Result<Distribution, Failure> {
    let words = six(exactly(words)?);
    distribution_words::distribution_of(words).ok_or(Failure::Refused(Refusal::OutOfDomain))
}

// The kind and the word of a value.
pub(crate) fn kind_and_word(v: ParamValue) -> [u64; 2] {
    [distribution::kind(v), distribution::word(v)]
}

pub(crate) fn well_formed(args: &[u64], results: &mut Results) -> Reply {
    let words: [u64; 6] = exactly(args)?;
    put([u64::from(distribution(&words).is_ok())], results)
}

pub(crate) fn equal(args: &[u64], results: &mut Results) -> Reply {
    let words: [u64; 12] = exactly(args)?;
    let (first, second) = words.split_at(6);
    let a = distribution(first)?;
    let b = distribution(second)?;
    put([u64::from(distribution::equal(a, b)?)], results)
}

pub(crate) fn taken(args: &[u64], results: &mut Results) -> Reply {
    let [words @ .., w] = args else {
        return Err(Failure::Unreadable);
    };
    let d = distribution(words)?;
    let v = distribution::value_of_word(d, *w)?;
    put([u64::from(distribution::taken_rule(d, v)?)], results)
}

pub(crate) fn internal_bounds(args: &[u64], results: &mut Results) -> Reply {
    let d = distribution(args)?;
    match encoding::internal_bounds(d)? {
        Some((lo, hi)) => put(
            [arith::word_of_float(lo), arith::word_of_float(hi)],
            results,
        ),
        None => put([], results),
    }
}

pub(crate) fn from_internal(args: &[u64], results: &mut Results) -> Reply {
    let [x, words @ ..] = args else {
        return Err(Failure::Unreadable);
    };
    let d = distribution(words)?;
    let v = common::from_internal(arith::float_of_word(*x), d)?;
    put(kind_and_word(v), results)
}

// The value of a kind and a word; another kind is a refusal.
fn value_of(kind: u64, w: u64) -> Result<ParamValue, Failure> {
    match kind {
        1 => Ok(ParamValue::Float(arith::float_of_word(w))),
        2 => Ok(ParamValue::Int(arith::int_of_word(w))),
        3 => Ok(ParamValue::Categorical(w)),
        _ => Err(Failure::Refused(Refusal::OutOfDomain)),
    }
}

pub(crate) fn to_internal(args: &[u64], results: &mut Results) -> Reply {
    let [kind, w, words @ ..] = args else {
        return Err(Failure::Unreadable);
    };
    let d = distribution(words)?;
    let v = value_of(*kind, *w)?;
    put_float(encoding::to_internal(v, d)?, results)
}

pub(crate) fn sample_random(args: &[u64], results: &mut Results) -> Reply {
    let [state, words @ ..] = args else {
        return Err(Failure::Unreadable);
    };
    let d = distribution(words)?;
    let mut g = Generator { word: *state };
    let r = generator::sample_random(&mut g, d)?;
    let [kind, word] = kind_and_word(r.value);
    put([kind, word, r.drawn, g.word], results)
}
