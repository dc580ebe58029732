// The text of `propose`, read line by line, and in pieces of any length.
#![tactic(auto)]

mod pieces;
mod steps;
pub mod text;

pub use text::{Put, Taken, Text};
