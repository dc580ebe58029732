// The output: lines are put into a buffer, which is written where it has no room for more.
ghost use Rattle.std.specs.Prelude.{◌≡◌, ◌≤◌, length};

use crate::reply::{Failure, Reply, Results};

// The bytes that are not yet written.
#[derive(Drop)]
pub struct Output {
    buffer: [u8; 65536],
    // Kept: fixed memory (document 01): an array, and how much of it is filled.
    len: usize,
    ghost within: { len ≤ 65536 },
}

impl Output {
    pub(crate) fn new() -> Output {
        Output {
            buffer: [0; 65536],
            len: 0,
        }
    }

    // Writes what the buffer holds. A failure is not told.
    pub(crate) fn flush(&mut self, rt: HostRuntime)
        ensures { self.new.len ≡ 0 }
    {
        let _ = rt.write_all(&self.buffer[..self.len]);
        self.len = 0;
    }

    // Puts these bytes.
    fn put(&mut self, rt: HostRuntime, bytes: &[u8])
        requires { length bytes.now ≤ 65536 }
    {
        if bytes.len() > self.buffer.len() - self.len {
            self.flush(rt);
        }
        let end = self.len + bytes.len();
        self.buffer[self.len..end].copy_from_slice(bytes);
        self.len = end;
    }

    // Puts the sixteen digits of w.
    fn word(&mut self, rt: HostRuntime, w: u64) {
        self.put(rt, &word_text::print(w));
    }

    // Puts the words of a result, a space before each.
    fn words(&mut self, rt: HostRuntime, words: &[u64]) {
        for w in words {
            self.put(rt, b" ");
            self.word(rt, *w);
        }
    }

    // Puts the line of a reply.
    pub(crate) fn reply(&mut self, rt: HostRuntime, reply: Reply, results: &Results) {
        match reply {
            Ok(written) => {
                self.word(rt, 0);
                self.words(rt, &results[..written.words]);
            }
            Err(Failure::Refused(refusal)) => self.word(rt, refusal.number()),
            Err(Failure::Unreadable) => self.put(rt, b"?"),
        }
        self.put(rt, b"\n");
    }
}
