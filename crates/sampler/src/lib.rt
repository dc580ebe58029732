// The two calls of a sampler.
#![tactic(auto)]

pub mod calls;
pub mod phases;
pub mod serving;
pub mod states;

ghost use Rattle.std.specs.Prelude.{◌≤◌};

pub use calls::{close, sample};
use sampler_state::Sampler;

// A sampler that was tested.
#[derive(Drop)]
pub(crate) struct Tested<'a> {
    pub(crate) sampler: &'a Sampler,
    ghost few: { sampler.now.dimensions.count ≤ 20 },
}
