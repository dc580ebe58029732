// The two calls.
ghost use Rattle.std.specs.Prelude.{◌≡◌, cond, ltb, Some, Ok, Err};
ghost use Rattle.distribution_words.specs.Words.{read_of};
ghost use Rattle.refusal.specs.declared.Refusal.TheVariants.{UnknownTrial, OutOfDomain};
ghost use Rattle.sampler_state.specs.State.{trial_place, sampler_ok};
ghost use Rattle.sampler_laws.specs.Calls.{asked_of, sample_of, freed_of, close_of};

use crate::{Tested, states};
use distribution::Distribution;
use distribution_words::Words;
use refusal::Refusal;
use sampler_laws::{Accepted, Answer, Sampled};
use sampler_state::Sampler;

impl Tested<'_> {
    // A well-formed distribution asked: the history's refusal, or an answer.
    fn asked(&self, d: Distribution, trial: u64, h: &[u64]) -> Result<Accepted, Refusal>
        ensures { result ≡ asked_of self.now.sampler.now (Some d) trial h.now }
    {
        history_rows::check(self.sampler.settings.slots as usize, h)?;
        self.served(d, trial, h)
    }
}

// The next value for a trial that asks these six words.
#[tactic(auto, using(sampler_state::proofs::Checked::dimensions_few))]
fn sampled(s: &Sampler, words: Words, trial: u64, h: &[u64]) -> Result<Accepted, Refusal>
    ensures { result ≡ cond (sampler_ok s.now) (asked_of s.now (read_of words.kind words.low words.high words.log words.stepped words.step) trial h.now) (Err OutOfDomain) }
{
    if !sampler_state::sampler_ok(s) {
        return Err(Refusal::OutOfDomain);
    }
    let d = distribution_words::distribution_of(words).ok_or(Refusal::Malformed)?;
    Tested { sampler: s }.asked(d, trial, h)
}

// The next value for a trial that asks these six words, with a history.
#[tactic(auto, unfolding(sampler_laws::specs::Calls::sample_of))]
pub fn sample(s: Sampler, words: Words, trial: u64, h: &[u64]) -> Sampled
    ensures { result ≡ sample_of s words.kind words.low words.high words.log words.stepped words.step trial h.now }
{
    states::answered(s, sampled(&s, words, trial, h))
}

// A trial's place freed.
fn freed(s: &Sampler, trial: u64) -> Result<Accepted, Refusal>
    ensures { result ≡ cond (sampler_ok s.now) (cond (ltb (trial_place s.now.places trial) 32) (Ok (freed_of s.now trial)) (Err UnknownTrial)) (Err OutOfDomain) }
{
    if !sampler_state::sampler_ok(s) {
        return Err(Refusal::OutOfDomain);
    }
    let i = sampler_state::trial_place(&s.places, trial).ok_or(Refusal::UnknownTrial)?;
    Ok(Accepted {
        answer: Answer {
            value: None,
            drawn: 0,
        },
        sampler: states::with_place(*s, i, None),
    })
}

// Frees a trial's place.
#[tactic(auto, unfolding(sampler_laws::specs::Calls::close_of))]
pub fn close(s: Sampler, trial: u64) -> Sampled
    ensures { result ≡ close_of s trial }
{
    states::answered(s, freed(&s, trial))
}
