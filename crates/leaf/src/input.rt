// The input: lines of any number, and of any length, each answered.
use crate::line;
use crate::output::Output;
use crate::reply::{Failure, Results};
use pieces::Lines;
use std::ops::ControlFlow;

// What answers lines: the words of one, the words of its result, and the output. `long`: what comes next is the end of
// a line that is too long to be held.
#[derive(Drop)]
pub struct Answers {
    rt: HostRuntime,
    words: [u64; 4096],
    results: Results,
    output: Output,
    long: bool,
}

impl Answers {
    pub(crate) fn new(rt: HostRuntime) -> Answers {
        Answers {
            rt,
            words: [0; 4096],
            results: [0; 8248],
            output: Output::new(),
            long: false,
        }
    }
}

impl Lines for Answers {
    fn line(&mut self, line: &[u8]) -> ControlFlow<()> {
        let reply = if self.long || line.len() > 65000 {
            Err(Failure::Unreadable)
        } else {
            line::answer(line, &mut self.words, &mut self.results)
        };
        self.long = false;
        self.output.reply(self.rt, reply, &self.results);
        ControlFlow::Continue(())
    }

    fn long_line(&mut self, _start: &[u8]) -> ControlFlow<()> {
        self.long = true;
        ControlFlow::Continue(())
    }

    // What stands after the last newline is a line too.
    fn end(&mut self, rest: &[u8]) {
        if !rest.is_empty() || self.long {
            let _ = self.line(rest);
        }
        self.output.flush(self.rt);
    }

    fn failed(&mut self, rest: &[u8]) {
        self.end(rest);
    }
}
