// What a sampler's two calls answer, as definitions, and what is promised of every run of them.
#![tactic(auto)]

pub mod laws;

use distribution::ParamValue;
use refusal::Refusal;
use rng_util::Draw;
use sampler_state::{Place, Sampler};

// What an accepted call answers: a value, none for a close, and the words drawn.
#[derive(Clone, Copy)]
pub struct Answer {
    pub value: Option<ParamValue>,
    pub drawn: u64,
}

// What a call answers, and the sampler after it: as it was where the call is refused.
#[derive(Drop)]
pub struct Sampled {
    pub answer: Result<Answer, Refusal>,
    pub sampler: Sampler,
}

// What an accepted call answers, and the sampler after it.
#[derive(Drop)]
pub struct Accepted {
    pub answer: Answer,
    pub sampler: Sampler,
}

// What a call of one trial answers and leaves: its value with the generator's word after it, and the trial's place.
#[derive(Clone, Copy)]
pub struct Serving {
    pub draw: Draw<ParamValue>,
    pub place: Place,
}
