// The leaf `run`: five settings of a sampler, then calls on it. `1 trial`, the six words of a distribution, k and k
// words of a history is a sample call; `2 trial` is a close. A line that does not divide into calls is none of this
// leaf, whatever its settings are.
ghost use Rattle.std.specs.Prelude.{◌+◌, ◌*◌, ◌≤◌, length, IfSome};

use crate::codings;
use crate::reply::{Failure, Reply, Results, Written};
use refusal::Refusal;
use sampler_laws::{Answer, Sampled};
use sampler_state::{Place, Sampler};
use settings::Settings;

// A call: of sample the trial, the distribution's words and the history, or of close the trial.
#[derive(Clone, Copy)]
enum Call<'a> {
    Sample(u64, [u64; 6], &'a [u64]),
    Close(u64),
}

// The first call of these words, and the words after it.
fn first_call(words: &[u64]) -> Option<(Call<'_>, &[u64])>
    ensures { IfSome result (λ r. length r.1.now + 2 ≤ length words.now) }
{
    match words {
        [1, trial, kind, low, high, log, stepped, step, k, rest @ ..] => {
            let (history, rest) = rest.split_at_checked(*k as usize)?;
            let distribution = [*kind, *low, *high, *log, *stepped, *step];
            Some((Call::Sample(*trial, distribution, history), rest))
        }
        [2, trial, rest @ ..] => Some((Call::Close(*trial), rest)),
        _ => None,
    }
}

// Whether the words divide into calls.
fn divides(words: &[u64]) -> bool {
    let mut rest = words;
    while let Some((_, after)) = first_call(rest) {
        rest = after;
    }
    rest.is_empty()
}

// The call, made.
fn made(s: Sampler, call: Call) -> Sampled {
    match call {
        Call::Sample(trial, words, history) => {
            sampler::sample(s, codings::six(words), trial, history)
        }
        Call::Close(trial) => sampler::close(s, trial),
    }
}

// Four words for an answer: its number, its value's kind and word, and how many words it drew. A close has kind and
// word 0, a refusal kind 0 and its number.
fn told(answer: Result<Answer, Refusal>) -> [u64; 4] {
    match answer {
        Ok(Answer { value, drawn }) => {
            let [kind, word] = value.map_or([0, 0], |v| codings::kind_and_word(v));
            [0, kind, word, drawn]
        }
        Err(refusal) => [refusal.number(), 0, refusal.number(), 0],
    }
}

// For each taken place, in order, its trial and its next dimension, from `start` on. Answers where they end.
fn put_places(places: &[Option<Place>; 32], start: usize, results: &mut Results) -> usize
    requires { start ≤ 8184 }
    ensures { result ≤ 8248 }
{
    let mut to = start;
    for place in places {
        if let Some(place) = place {
            results[to] = place.trial;
            results[to + 1] = place.next_dim as u64;
            to += 2;
        }
    }
    to
}

// The calls, one after the other, and then the generator's word, the number of taken places and these places. Each call
// has two words or more, and puts four.
fn calls(s: Sampler, words: &[u64], results: &mut Results) -> Reply
    requires { length words.now ≤ 4091 }
{
    let mut held = s;
    let mut rest = words;
    // Kept: `to` beside the calls, since how many words were put is what is answered.
    let mut to = 0;
    while let Some((call, after)) = first_call(rest) {
        let Sampled { answer, sampler } = made(held, call);
        results[to..to + 4].copy_from_slice(&told(answer));
        held = sampler;
        rest = after;
        to += 4;
    }
    results[to] = held.word;
    results[to + 1] = sampler_state::taken_count(&held.places) as u64;
    let words = put_places(&held.places, to + 2, results);
    Ok(Written { words })
}

// Not inlined, as the leaves of `model`: a sampler is large.
#[inline(never)]
pub(crate) fn run(args: &[u64], results: &mut Results) -> Reply {
    let [startup, candidates, noise, seed, slots, words @ ..] = args else {
        return Err(Failure::Unreadable);
    };
    if words.len() > 4091 || !divides(words) {
        return Err(Failure::Unreadable);
    }
    let s = sampler_state::build(Settings {
        n_startup_trials: *startup,
        n_candidates: *candidates,
        noise_variance: arith::float_of_word(*noise),
        seed: *seed,
        slots: *slots,
    })?;
    calls(s, words, results)
}
