// Runs stored texts, each after a line with its length in bytes, by the functions that `propose` runs; what it writes
// is held to the Rust's answers.
#![tactic(auto)]

use std::io::Read;

// The length in the line before a text: sixteen digits and a newline.
fn next_length(rt: HostRuntime) -> Option<u64> {
    let mut line = [0u8; 17];
    rt.stdin().read_exact(&mut line).ok()?;
    let [digits @ .., b'\n'] = &line[..] else {
        return None;
    };
    word_text::parse(digits)
}

// Each text in turn.
// Kept: a proved loop has to end: no list of texts uses up these turns.
fn main(rt: HostRuntime) {
    for _ in 0..u64::MAX {
        let Some(len) = next_length(rt) else {
            return;
        };
        propose_io::skip(rt, propose_io::run_text(rt, len));
    }
}
