// One trial served: a stored value, a draw past the last, or a new trial.
ghost use Rattle.std.specs.Prelude.{◌≡◌, cond, ltb, Ok};
ghost use Rattle.sampler_laws.specs.Calls.{next_of, past_of, new_trial_of, serving_of};

use crate::Tested;
use distribution::Distribution;
use refusal::Refusal;
use rng_util::Draw;
use sampler_laws::Serving;
use sampler_state::Place;

impl Tested<'_> {
    // The next value of a place, or past the last a random one with the place as it was.
    fn next(&self, p: Place, d: Distribution) -> Result<Serving, Refusal>
        ensures { let s = self.now.sampler.now in result ≡ cond (ltb p.next_dim s.dimensions.count) (Ok (next_of s.word p)) (past_of s.word p d) }
    {
        let word = self.sampler.word;
        let j = p.next_dim;
        if j >= self.sampler.dimensions.count {
            let draw = common::sample_random(word, d)?;
            return Ok(Serving { draw, place: p });
        }
        let values = p.values;
        Ok(Serving {
            draw: Draw {
                value: values[j],
                drawn: 0,
                next: word,
            },
            place: Place {
                trial: p.trial,
                values,
                next_dim: j + 1,
            },
        })
    }

    // A new trial: its values in a place, and the first of them.
    fn new_trial(&self, trial: u64, h: &[u64]) -> Result<Serving, Refusal>
        ensures { let s = self.now.sampler.now in result ≡ new_trial_of s.settings s.dimensions.list s.dimensions.count s.word trial h.now }
    {
        let s = self.sampler;
        let made = proposal::compute_candidate(s.settings, s.dimensions, s.word, h)?;
        let values = made.value;
        Ok(Serving {
            draw: made.with(values[0]),
            place: Place {
                trial,
                values,
                next_dim: 1,
            },
        })
    }

    // The trial that has this place, or without one a new trial.
    #[tactic(auto, unfolding(sampler_laws::specs::Calls::serving_of))]
    pub(crate) fn serving(
        &self,
        place: Option<Place>,
        d: Distribution,
        trial: u64,
        h: &[u64],
    ) -> Result<Serving, Refusal>
        ensures { let s = self.now.sampler.now in result ≡ serving_of s.settings s.dimensions.list s.dimensions.count s.word place d trial h.now }
    {
        match place {
            Some(p) => self.next(p, d),
            None => self.new_trial(trial, h),
        }
    }
}
