// A text from standard input, piece by piece, and what is written for it.
ghost use Rattle.std.specs.Prelude.{◌≡◌, ◌-◌, ◌<◌, ◌≤◌, length, take, IfSome};
ghost use Rattle.std.specs.ControlFlow.{continue_value};
ghost use Rattle.propose_text.specs.Partial.{partial_of};
ghost use Rattle.text_laws.specs.Pieces.{piece_of, taken_of};

use crate::scores;
use propose_text::Text;
use std::ops::ControlFlow;
use text_laws::{Event, Step};

// What is written for a piece of a text; a failure to write ends the run. Else each byte of the piece is read once.
pub(crate) trait Report {
    fn piece(&mut self, rt: HostRuntime, text: &mut Text, piece: &[u8]) -> ControlFlow<()>
        ensures { IfSome (continue_value result) (λ u.
            partial_of text.new ≡ (piece_of (partial_of text.old) piece.now).text) };
}

// The answers, put into an array before they are written.
#[derive(Drop)]
pub(crate) struct Answers {
    out: [u8; 65280],
}

impl Answers {
    pub(crate) fn new() -> Answers {
        Answers { out: [0; 65280] }
    }
}

impl Report for Answers {
    // In parts of as many bytes as a text takes at once.
    fn piece(&mut self, rt: HostRuntime, text: &mut Text, piece: &[u8]) -> ControlFlow<()> {
        let mut used = 0;
        while used < piece.len() {
            let put = text.read_piece(&piece[used..], &mut self.out);
            if put.len > 0 {
                crate::write(rt, &self.out[..put.len])?;
            }
            used += put.used;
        }
        ControlFlow::Continue(())
    }
}

// The points of the new trials.
#[derive(Clone, Copy)]
pub(crate) struct Points;

impl Report for Points {
    // Step after step.
    fn piece(&mut self, rt: HostRuntime, text: &mut Text, piece: &[u8]) -> ControlFlow<()> {
        let mut used = 0;
        while used < piece.len() {
            used += write_points(rt, text, &piece[used..])?;
        }
        ControlFlow::Continue(())
    }
}

// Takes a piece up to its first step, and writes what is told of that: the points of a new trial, the line of a run's
// end. How many bytes are taken.
fn write_points(rt: HostRuntime, text: &mut Text, piece: &[u8]) -> ControlFlow<(), usize>
    requires { 0 < length piece.now }
    ensures within { IfSome (continue_value result) (λ n. (1 ≤ n) × (n ≤ length piece.now)) }
    ensures used { IfSome (continue_value result) (λ n. n ≡ (taken_of (partial_of text.old) piece.now).used) }
    ensures text { IfSome (continue_value result) (λ n.
        partial_of text.new ≡ (taken_of (partial_of text.old) piece.now).text) }
{
    let before = text.sampler();
    let taken = text.take_line(piece);
    if let Some(t) = &taken.step {
        match t.event {
            Event::Call(trial) => {
                let after = text.sampler();
                scores::write_call(rt, &before, &after, trial, text.history())?;
            }
            Event::Refused(_) => write_line(rt, t)?,
            _ => {}
        }
    }
    ControlFlow::Continue(taken.used)
}

// Writes the line of a step, where it has one.
fn write_line(rt: HostRuntime, t: &Step) -> ControlFlow<()> {
    match &t.line {
        Some(line) => crate::write(rt, line),
        None => ControlFlow::Continue(()),
    }
}

// A text and the report of it, the piece that is read, and how many bytes the input has left.
#[derive(Drop)]
pub(crate) struct Run<R> {
    rt: HostRuntime,
    report: R,
    text: Text,
    buffer: [u8; 65536],
    pub(crate) left: u64,
}

impl<R: Report> Run<R> {
    pub(crate) fn new(rt: HostRuntime, report: R, limit: u64) -> Run<R>
        ensures { result.left ≡ limit }
    {
        Run {
            rt,
            report,
            text: Text::new(),
            buffer: [0; 65536],
            left: limit,
        }
    }

    // One read, with what is written for it, before the next. Where more is to be read, each byte of it is read once.
    fn turn(&mut self) -> ControlFlow<()>
        ensures left { self.new.left ≤ self.old.left }
        ensures read { IfSome (continue_value result) (λ u. partial_of self.new.text ≡
            (piece_of (partial_of self.old.text) (take (self.old.left - self.new.left) self.new.buffer)).text) }
    {
        match pieces::fill(self.rt, &mut self.buffer, self.left) {
            Some(0) => write_line(self.rt, &self.text.end())?,
            Some(n) => {
                self.left -= n as u64;
                self.report
                    .piece(self.rt, &mut self.text, &self.buffer[..n])?;
                if !self.text.ended() {
                    return ControlFlow::Continue(());
                }
            }
            None => {}
        }
        ControlFlow::Break(())
    }

    // Reads to the end of the input, or of the run.
    // Kept: a proved loop has to end, and nothing says that the input does: no run uses up these turns.
    pub(crate) fn to_end(&mut self)
        ensures { self.new.left ≤ self.old.left }
    {
        for _ in 0..u64::MAX {
            if self.turn().is_break() {
                return;
            }
        }
    }
}
