// The distribution of six words. The names are the Rust's.
#![tactic(auto)]

pub mod words;

pub use words::{Words, distribution_of, round_trip};
