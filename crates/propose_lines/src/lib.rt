// The lines of a text of `propose`: names compared, words read, and the lines written.
#![tactic(auto)]

pub mod answers;
pub mod lines;
pub mod names;

pub use answers::{answer_line, printed};
pub use lines::read_words;
pub use names::{is_calls, is_history, is_settings, names_line};
