// What a sampler sees of a history, and what is promised of it.
#![tactic(auto)]

pub mod viewing;

use history::Training;
pub use viewing::view_of;

// What a sampler sees of a history: whether its rows reach the start-up count, and its training data.
#[derive(Drop)]
pub struct View {
    pub reached: bool,
    pub training: Training,
}
