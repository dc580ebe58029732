// Standard input, line by line, by a buffer of fixed size.
ghost use Rattle.std.specs.Prelude.{◌≡◌, ◌≤◌, length, IfSome};
ghost use Rattle.std.specs.ControlFlow.{continue_value};

use std::ops::ControlFlow;

/// What takes the lines of an input, without their newlines.
pub trait Lines {
    /// A whole line. `Break` where no more is to be read.
    fn line(&mut self, line: &[u8]) -> ControlFlow<()>;

    /// The start of a line that is too long to be held. Where more is read, its end comes as a line.
    fn long_line(&mut self, start: &[u8]) -> ControlFlow<()>;

    /// The end of the input, with what stands after its last newline.
    fn end(&mut self, rest: &[u8]);

    /// A read that failed, with what stands after the last newline.
    fn failed(&mut self, rest: &[u8]);
}

// Every whole line of these bytes. How many bytes are left.
fn whole_lines<T: Lines>(bytes: &[u8], to: &mut T) -> ControlFlow<(), usize>
    ensures { IfSome (continue_value result) (λ left. left ≤ length bytes.now) }
{
    let mut rest = bytes;
    while let Some(end) = rest.iter().position(|b| *b == b'\n') {
        to.line(&rest[..end])?;
        rest = &rest[end + 1..];
    }
    ControlFlow::Continue(rest.len())
}

// What is read: the bytes held of a line whose end is not, and how many bytes the input has left.
#[derive(Drop)]
pub(crate) struct Input {
    buffer: [u8; 65536],
    // Kept: fixed memory (document 01): an array, and how much of it is filled.
    have: usize,
    pub(crate) left: u64,
    ghost within: { have ≤ 65536 },
}

impl Input {
    pub(crate) fn new(limit: u64) -> Input
        ensures { result.left ≡ limit }
    {
        Input {
            buffer: [0; 65536],
            have: 0,
            left: limit,
        }
    }

    // The lines of the first `full` bytes; the bytes left are held, unless they are too many.
    fn lines<T: Lines>(&mut self, to: &mut T, full: usize) -> ControlFlow<()>
        requires { full ≤ 65536 }
        ensures { self.new.left ≡ self.old.left }
    {
        let have = whole_lines(&self.buffer[..full], to)?;
        let start = full - have;
        if have == self.buffer.len() {
            self.have = 0;
            return to.long_line(&self.buffer[start..full]);
        }
        crate::keep(&mut self.buffer, start, full);
        self.have = have;
        ControlFlow::Continue(())
    }

    // One read, with the lines that it completes, or the end of the input.
    fn turn<T: Lines>(&mut self, rt: HostRuntime, to: &mut T) -> ControlFlow<()>
        ensures { self.new.left ≤ self.old.left }
    {
        match crate::fill(rt, &mut self.buffer[self.have..], self.left) {
            Some(0) => to.end(&self.buffer[..self.have]),
            Some(n) => {
                self.left -= n as u64;
                return self.lines(to, self.have + n);
            }
            None => to.failed(&self.buffer[..self.have]),
        }
        ControlFlow::Break(())
    }

    // Reads the input to its end, or as far as its lines are taken.
    // Kept: a proved loop has to end, and nothing says that the input does: no run uses up these turns.
    pub(crate) fn run<T: Lines>(&mut self, rt: HostRuntime, to: &mut T)
        ensures { self.new.left ≤ self.old.left }
    {
        for _ in 0..u64::MAX {
            if self.turn(rt, to).is_break() {
                return;
            }
        }
    }
}
