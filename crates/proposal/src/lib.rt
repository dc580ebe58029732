// The values of a new trial: from a model of the history where there is one, else at random.
#![tactic(auto)]

pub mod points;
pub mod proposing;
pub mod walking;

pub use proposing::{candidate_accepted, compute_candidate};
