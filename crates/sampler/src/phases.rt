// How a call is served: in discovery, or after it by the trial's place.
ghost use Rattle.std.specs.Prelude.{◌≡◌, ◌||◌, eqb};
ghost use Rattle.sampler_laws.specs.Calls.{discover_of, active_of, served_of};

use crate::{Tested, states};
use distribution::Distribution;
use refusal::Refusal;
use sampler_laws::Accepted;

impl Tested<'_> {
    // The discovery trial: one more dimension and a random value for it. The 21st is refused.
    #[tactic(auto, unfolding(sampler_laws::specs::Calls::discover_of, common::specs::Random::sample_random_of))]
    fn discover(&self, d: Distribution, trial: u64) -> Result<Accepted, Refusal>
        ensures { result ≡ discover_of self.now.sampler.now d trial }
    {
        if self.sampler.dimensions.count == 20 {
            return Err(Refusal::TooManyDimensions);
        }
        let grown = states::with_dimension(*self.sampler, trial, d)?;
        let draw = common::sample_random(self.sampler.word, d)?;
        Ok(states::with_draw(grown, draw))
    }

    // After discovery: the trial is served, and its place is written back.
    #[tactic(auto, unfolding(sampler_laws::specs::Calls::active_of))]
    fn active(&self, d: Distribution, trial: u64, h: &[u64]) -> Result<Accepted, Refusal>
        ensures { result ≡ active_of self.now.sampler.now d trial h.now }
    {
        let found = sampler_state::find(&self.sampler.places, trial).ok_or(Refusal::NoPlace)?;
        let spot = found.spot;
        let serving = self.serving(found.place, d, trial, h)?;
        Ok(states::written(*self.sampler, spot, serving))
    }

    // Whether the call is the discovery trial's.
    fn discovers(&self, trial: u64) -> bool
        ensures { let s = self.now.sampler.now in result ≡ (eqb s.dimensions.count 0 || eqb trial s.discovery_trial_id) }
    {
        self.sampler.dimensions.count == 0 || trial == self.sampler.discovery_trial_id
    }

    // By the phase. The call that ends discovery is served with an empty history.
    #[tactic(auto, unfolding(sampler_laws::specs::Calls::served_of))]
    pub(crate) fn served(&self, d: Distribution, trial: u64, h: &[u64]) -> Result<Accepted, Refusal>
        ensures { result ≡ served_of self.now.sampler.now d trial h.now }
    {
        if self.sampler.active {
            return self.active(d, trial, h);
        }
        if self.discovers(trial) {
            return self.discover(d, trial);
        }
        let ended = states::with_discovery_ended(*self.sampler);
        Tested { sampler: &ended }.active(d, trial, &h[0..0])
    }
}
