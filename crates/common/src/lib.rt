// A value from the model's space, and a random value: functions of common.rs.
#![tactic(auto)]

pub mod decode;
pub mod grid;
pub mod random;

pub use decode::from_internal;
pub use random::sample_random;
