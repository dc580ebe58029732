// What a model of gp.rs says of a point: its mean and its deviation.
#![tactic(auto)]

pub mod predicting;

pub use predicting::{counts_fit, predict};

// The mean and the deviation at a point.
#[derive(Clone, Copy)]
pub struct Posterior {
    pub mean: f64,
    pub std: f64,
}
