// Dimensions: a distribution beside its internal bounds.
#![tactic(auto)]

pub mod bounds;

pub use bounds::{dimension, dimensions_ok, is_continuous};
use distribution::Distribution;

// A dimension: its distribution beside its internal bounds. Those of a choice are +0 and +0.
#[derive(Clone, Copy)]
pub struct DimensionInfo {
    pub distribution: Distribution,
    pub lo: f64,
    pub hi: f64,
}

// Dimensions: the first ones of a list, as many as the count says.
// Kept: an array with its count, since memory is fixed.
#[derive(Clone, Copy)]
pub struct Dimensions {
    pub list: [DimensionInfo; 20],
    pub count: usize,
}
