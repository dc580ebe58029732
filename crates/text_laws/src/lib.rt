// What a text of `propose` is and what is answered: the definitions, the types that they name, and the laws of every
// text.
#![tactic(auto)]

pub mod laws;

ghost use Rattle.std.specs.Prelude.{◌≤◌};

use refusal::Refusal;
use sampler_state::Sampler;

// The line that is awaited.
#[derive(Clone, Copy, Debug, PartialEq, Eq)]
pub enum Stage {
    SettingsNames,
    Settings,
    HistoryNames,
    History,
    Calls,
    Ended,
}

// Between two lines: the line awaited, the sampler as it is then, and how many words of the history there are.
#[derive(Clone, Copy)]
pub struct Reader {
    pub stage: Stage,
    pub sampler: Sampler,
    // Kept: fixed memory (document 01), so that the array of 8,192 words is lent from line to line.
    pub count: usize,
    pub ghost within: { count ≤ 8192 },
}

// What a line was: names, the settings, a row, the names that begin the calls, a call with its trial, a refusal that
// ends the run, or nothing more of a text.
#[derive(Clone, Copy, Debug, PartialEq, Eq)]
pub enum Event {
    Names,
    Settings,
    Row,
    CallsBegin,
    Call(u64),
    Refused(Refusal),
    Nothing,
}

// After a line: the reader, what the line was, and the line to write for it.
#[derive(Drop)]
pub struct Step {
    pub reader: Reader,
    pub event: Event,
    pub line: Option<[u8; 68]>,
}
