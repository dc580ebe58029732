// A sampler of gp.rs, by value: making one, whether one is well-formed, and its places.
#![tactic(auto)]

pub mod checking;
pub mod making;
pub mod places;

pub use checking::sampler_ok;
use dimensions::Dimensions;
use distribution::ParamValue;
pub use making::{build, fresh};
pub use places::{find, taken_count, trial_place};
use settings::Settings;

// What a progress place holds: the trial, its values and the dimension to serve next.
#[derive(Clone, Copy)]
pub struct Place {
    pub trial: u64,
    pub values: [ParamValue; 20],
    pub next_dim: usize,
}

// A sampler: in discovery until it is active. Without dimensions there is no discovery trial yet.
// Kept: an array of 32 places, since memory is fixed (document 01).
#[derive(Clone, Copy)]
pub struct Sampler {
    pub settings: Settings,
    pub word: u64,
    pub active: bool,
    pub discovery_trial_id: u64,
    pub dimensions: Dimensions,
    pub places: [Option<Place>; 32],
}

// What is found for a trial: what its place holds, where it has one, and where its place is written.
#[derive(Drop)]
pub struct Found {
    pub place: Option<Place>,
    pub spot: usize,
}
