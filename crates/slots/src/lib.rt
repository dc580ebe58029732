// Slots of a history's rows: whether one is present, good, of an id, and what it says.
#![tactic(auto)]

pub mod slot;

pub use slot::{has_id, is_present, read, reads_equal, same_id, slot_ok, value, word};

// The words of a row before its slots, and those of each slot.
pub const ROW_HEAD: usize = 3;

pub const SLOT_WORDS: usize = 8;
