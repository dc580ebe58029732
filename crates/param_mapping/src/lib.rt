// The mapping of dimensions to parameter ids. The names are the Rust's.
#![tactic(auto)]

pub mod matching;

pub use matching::establish_param_mapping;
