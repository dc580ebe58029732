// One text from standard input, in pieces of any length, and on standard output its answers, or the points scored for
// its new trials (`scores`).
// What a call of the system reads or writes no contract can say, and these functions are tested. What is made of the
// bytes that are read, and which bytes are written for them, is `propose_text`'s; that each of them is handed to it
// once, in order, the contracts of `run` say.
#![tactic(auto)]

mod run;
mod scores;

ghost use Rattle.std.specs.Prelude.{◌≤◌};

pub use pieces::skip;
use run::{Answers, Points, Report, Run};
use std::ops::ControlFlow;

// Writes these bytes; a failure is told on standard error.
pub(crate) fn write(rt: HostRuntime, bytes: &[u8]) -> ControlFlow<()> {
    if rt.write_all(bytes).is_ok() {
        return ControlFlow::Continue(());
    }
    let _ = eprintln!(rt; "Standard output cannot be written.");
    ControlFlow::Break(())
}

// Runs a text, and reports it after this names line. How many of its bytes are not read.
fn report_text<R: Report + Drop>(rt: HostRuntime, names: &[u8], report: R, limit: u64) -> u64
    ensures { result ≤ limit }
{
    if write(rt, names).is_break() {
        return limit;
    }
    let mut run = Run::new(rt, report, limit);
    run.to_end();
    run.left
}

// Runs the text that the next `limit` bytes of standard input are, or those up to its end. How many of them are not
// read.
pub fn run_text(rt: HostRuntime, limit: u64) -> u64
    ensures { result ≤ limit }
{
    report_text(rt, &propose_lines::names_line(), Answers::new(), limit)
}

// Runs a text as `run_text` does, and writes the points of its new trials in place of the answers.
pub fn run_points(rt: HostRuntime, limit: u64) -> u64
    ensures { result ≤ limit }
{
    report_text(rt, b"trial index improvement stored point\n", Points, limit)
}
