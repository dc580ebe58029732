// The Gaussian-process model of gp.rs, and its fit.
#![tactic(auto)]

pub mod fitting;
mod kernels;
pub mod statistics;
mod tables;

pub use fitting::fit_gp;
pub use statistics::all_within;

// A fitted model: its n rows of d columns, lengthscales, factor, weights and best value. What lies past the counts is
// zero.
// Kept: arrays with their counts, since memory is fixed; what reads them takes slices or references.
#[derive(Clone, Copy)]
pub struct Model {
    pub x_train: [f64; 2000],
    pub lengthscales: [f64; 20],
    pub cholesky: [f64; 5050],
    pub alpha: [f64; 100],
    pub f_best: f64,
    pub n: usize,
    pub d: usize,
}
