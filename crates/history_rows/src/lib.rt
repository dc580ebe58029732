// Histories as rows of words, and the tests that document 01 makes of the recent ones.
#![tactic(auto)]

pub mod rows;
pub mod tests;

pub use rows::slot_place;
pub use tests::{check, recent_part};

// Where the recent rows of a history start, and how many there are.
#[derive(Clone, Copy)]
pub struct RecentRows {
    pub start: usize,
    pub rows: usize,
}
