// One line: its name, its words and the leaf that it calls.
ghost use Rattle.std.specs.Prelude.{◌≤◌, length, IfOk};

use crate::reply::{Failure, Reply, Results};
use crate::{arithmetic, codings, draws, model, normal, records, runs};

// The line's call, made.
pub(crate) fn answer(line: &[u8], words: &mut [u64], results: &mut Results) -> Reply {
    let end = line.iter().position(|b| *b == b' ').unwrap_or(line.len());
    let (name, text) = line.split_at(end);
    let n = read_words(text, words)?;
    call(name, &words[..n], results)
}

// The leaf of that name, called on these words.
// Kept: the names are matched group by group: what proving a match of texts costs grows with the square of its length.
fn call(name: &[u8], args: &[u64], results: &mut Results) -> Reply {
    match name {
        b"next" => draws::next(args, results),
        b"unit" => draws::unit(args, results),
        b"whole" => draws::whole(args, results),
        b"exp" => arithmetic::exp(args, results),
        b"ln" => arithmetic::ln(args, results),
        b"sqrt" => arithmetic::sqrt(args, results),
        b"round" => arithmetic::round(args, results),
        b"floor" => arithmetic::floor(args, results),
        _ => in_codings(name, args, results),
    }
}

// A leaf of `codings`, or of a later group.
fn in_codings(name: &[u8], args: &[u64], results: &mut Results) -> Reply {
    match name {
        b"distribution" => codings::well_formed(args, results),
        b"equal" => codings::equal(args, results),
        b"taken" => codings::taken(args, results),
        b"internal_bounds" => codings::internal_bounds(args, results),
        b"from_internal" => codings::from_internal(args, results),
        b"to_internal" => codings::to_internal(args, results),
        b"sample_random" => codings::sample_random(args, results),
        _ => in_model(name, args, results),
    }
}

// A leaf of the normal distribution or of the model, or of the last group.
fn in_model(name: &[u8], args: &[u64], results: &mut Results) -> Reply {
    match name {
        b"norm_pdf" => normal::norm_pdf(args, results),
        b"norm_cdf" => normal::norm_cdf(args, results),
        b"expected_improvement" => normal::expected_improvement(args, results),
        b"to_normalized" => normal::to_normalized(args, results),
        b"from_normalized" => normal::from_normalized(args, results),
        b"matern52" => model::matern52(args, results),
        b"fit_gp" => model::fit_gp(args, results),
        b"predict" => model::predict(args, results),
        b"optimize_acquisition" => model::optimize_acquisition(args, results),
        _ => in_records(name, args, results),
    }
}

// A leaf of `history` or a run, or none.
fn in_records(name: &[u8], args: &[u64], results: &mut Results) -> Reply {
    match name {
        b"history" => records::history(args, results),
        b"mapping" => records::mapping(args, results),
        b"training" => records::training(args, results),
        b"run" => runs::run(args, results),
        _ => Err(Failure::Unreadable),
    }
}

// A word of a line: a space and sixteen digits.
fn read_word(text: &[u8]) -> Result<u64, Failure> {
    let [b' ', digits @ ..] = text else {
        return Err(Failure::Unreadable);
    };
    word_text::parse(digits).ok_or(Failure::Unreadable)
}

// Reads the words of a line to the start of words. How many they are.
fn read_words(text: &[u8], words: &mut [u64]) -> Result<usize, Failure>
    ensures { IfOk result (λ n. n ≤ length words.old) }
{
    let count = text.len() / 17;
    if text.len() % 17 != 0 || count > words.len() {
        return Err(Failure::Unreadable);
    }
    for (word, part) in words.iter_mut().zip(text.chunks_exact(17)) {
        *word = read_word(part)?;
    }
    Ok(count)
}
