// What a call answers.
ghost use Rattle.std.specs.Prelude.{◌≡◌, ◌≤◌};
ghost use Rattle.leaf.specs.declared.reply.Failure.TheVariants.{Refused};

use refusal::Refusal;

// The array to whose start a call puts the words of its result. A run's are the most: up to 8,182 for its calls, two,
// and two for each of 32 places.
pub type Results = [u64; 8248];

// How many words of that array are the result.
#[derive(Clone, Copy)]
pub struct Written {
    pub words: usize,
    ghost fits: { words ≤ 8248 },
}

// Why a call has no result: it is refused, or the line is none of its leaf.
#[derive(Clone, Copy)]
pub enum Failure {
    Refused(Refusal),
    Unreadable,
}

impl From<Refusal> for Failure {
    ghost from_gives = { λ r f. f ≡ Refused r };

    fn from(refusal: Refusal) -> Failure {
        Failure::Refused(refusal)
    }
}

pub type Reply = Result<Written, Failure>;

// A result of these words.
pub(crate) fn put<const N: usize>(words: [u64; N], results: &mut Results) -> Reply
    requires { N ≤ 8248 }
{
    results[..N].copy_from_slice(&words);
    Ok(Written { words: N })
}

// The words of a line, where there are N of them.
pub(crate) fn exactly<const N: usize>(args: &[u64]) -> Result<[u64; N], Failure> {
    <[u64; N]>::try_from(args).map_err(|_| Failure::Unreadable)
}

// The floats of a line, where there are N of them.
pub(crate) fn floats<const N: usize>(args: &[u64]) -> Result<[f64; N], Failure> {
    let words: [u64; N] = exactly(args)?;
    Ok(std::array::from_fn(|i| arith::float_of_word(words[i])))
}

// A result of one float.
pub(crate) fn put_float(x: f64, results: &mut Results) -> Reply {
    put([arith::word_of_float(x)], results)
}
