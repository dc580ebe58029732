// Eight points side by side: a row has one element of each. A function works on the eight at once, each in its own
// order of operations.
#![tactic(auto)]

mod kernels;
pub mod posteriors;
mod roots;
mod solving;
mod sums;

pub use posteriors::posterior_sums;

// Of the kernel vector k of each of eight points: k · α, the mean, and k · (K + σ² I)⁻¹ k, by which the variance is
// less than 1.
#[derive(Clone, Copy)]
pub struct PosteriorSums {
    pub means: [f64; 8],
    pub products: [f64; 8],
}
