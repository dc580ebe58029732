// Making a sampler.
ghost use Rattle.std.specs.Prelude.{◌≡◌};
ghost use Rattle.sampler_state.specs.State.{fresh_of, make_of};

use crate::Sampler;
use dimensions::{DimensionInfo, Dimensions};
use distribution::{CategoricalDistribution, Distribution};
use refusal::Refusal;
use settings::Settings;

// A sampler of these settings as made, whether they are in range or not.
pub fn fresh(settings: Settings) -> Sampler
    ensures { result ≡ fresh_of settings }
{
    let dimension = DimensionInfo {
        distribution: Distribution::Categorical(CategoricalDistribution { n_choices: 0 }),
        lo: 0.0,
        hi: 0.0,
    };
    let list = [dimension; 20];
    let places = [None; 32];
    Sampler {
        settings,
        word: settings.seed,
        active: false,
        discovery_trial_id: 0,
        dimensions: Dimensions { list, count: 0 },
        places,
    }
}

// A sampler made from its settings, unless one is out of range.
#[tactic(auto, unfolding(crate::specs::State::make_of))]
pub fn build(settings: Settings) -> Result<Sampler, Refusal>
    ensures { result ≡ make_of settings }
{
    if !settings::in_range(settings) {
        return Err(Refusal::Settings);
    }
    Ok(fresh(settings))
}
