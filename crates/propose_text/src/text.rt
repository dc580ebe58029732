// A text in pieces of any length.
ghost use Rattle.std.specs.Prelude.{◌≤◌};

use crate::pieces;
use crate::steps::{ending, finish, read_line, start};
use refusal::Refusal;
use sampler_state::Sampler;
use text_laws::{Reader, Step};

// The longest line of any table, without its newline: a row of 20 slots.
const LONGEST: usize = 2770;

// A text read so far: the reader between two lines with the array of its history, and the bytes of the line whose end
// is not read yet.
// Kept: fixed memory (document 01): arrays, and how much of each is filled.
#[derive(Drop)]
pub struct Text {
    reader: Reader,
    history: [u64; 8192],
    line: [u8; 2770],
    len: usize,
    ghost within: { len ≤ 2770 },
}

// What is taken of a piece: how many bytes, and the step that the last of them made, where it made one.
#[derive(Drop)]
pub struct Taken {
    pub used: usize,
    pub step: Option<Step>,
}

// How many bytes of a piece are read, and how many are put into an array for them.
#[derive(Clone, Copy)]
pub struct Put {
    pub used: usize,
    pub len: usize,
}

impl Text {
    ghost use Rattle.std.specs.Prelude.{◌≡◌, ◌+◌, ◌<◌, length, take, min};
    ghost use Rattle.std.proofs.Math.Seq.{paste};
    ghost use Rattle.propose_text.specs.Partial.{partial_of, told_of, taken_in, written_next, put_first};
    ghost use Rattle.refusal.specs.declared.Refusal.{Refusal};
    ghost use Rattle.text_laws.specs.Pieces.{begun, longer, line_end, end_of, has_ended, told_step, piece_of, taken_of};
    ghost use Rattle.text_laws.specs.Steps.{ends};

    // A text of which nothing is read yet.
    #[tactic(auto, unfolding(text_laws::specs::Steps::start_of))]
    pub fn new() -> Text
        ensures { partial_of result ≡ begun }
    {
        Text {
            reader: start(),
            history: [0; 8192],
            line: [0; 2770],
            len: 0,
        }
    }

    // Whether the run has ended: no byte that follows changes anything.
    pub fn ended(&self) -> bool
        ensures { result ≡ has_ended (partial_of self.now).reading.stage }
    {
        pieces::has_ended(self.reader.stage)
    }

    // The sampler as it is between two lines.
    pub fn sampler(&self) -> Sampler
        ensures { result ≡ (partial_of self.now).reading.sampler }
    {
        self.reader.sampler
    }

    // The words of the history so far.
    pub fn history(&self) -> &[u64]
        ensures { result.now ≡ (partial_of self.now).reading.history }
    {
        &self.history[..self.reader.count]
    }

    // Keeps bytes of a line whose end is not read yet.
    fn keep(&mut self, bytes: &[u8])
        requires { length (partial_of self.old).line + length bytes.now ≤ 2770 }
        ensures { partial_of self.new ≡ longer (partial_of self.old) bytes.now }
    {
        let end = self.len + bytes.len();
        self.line[self.len..end].copy_from_slice(bytes);
        self.len = end;
    }

    // Ends the line that is kept.
    fn end_line(&mut self) -> Step
        ensures { told_of result self.new ≡ told_step (line_end (partial_of self.old)) }
    {
        let t = read_line(self.reader, &self.line[..self.len], &mut self.history);
        self.reader = t.reader;
        self.len = 0;
        t
    }

    // Ends the run at a line that is longer than any table's.
    fn too_long(&mut self) -> Step
        ensures { told_of result self.new ≡ told_step (ends Refusal.Text (partial_of self.old).reading) }
    {
        let t = ending(Refusal::Text, self.reader);
        self.reader = t.reader;
        self.len = 0;
        t
    }

    // Takes a piece up to the first step that it makes, or all of it.
    pub fn take_line(&mut self, piece: &[u8]) -> Taken
        ensures answer { taken_in result self.new ≡ taken_of (partial_of self.old) piece.now }
        ensures part { result.used ≤ length piece.now }
        ensures some { 0 < length piece.now → 1 ≤ result.used }
    {
        if self.ended() {
            return Taken {
                used: piece.len(),
                step: None,
            };
        }
        let n = pieces::before_newline(piece);
        let room = LONGEST - self.len;
        if n > room {
            return Taken {
                used: room + 1,
                step: Some(self.too_long()),
            };
        }
        self.keep(&piece[..n]);
        if n == piece.len() {
            return Taken {
                used: n,
                step: None,
            };
        }
        Taken {
            used: n + 1,
            step: Some(self.end_line()),
        }
    }

    // Takes a piece up to the first step that it makes, and puts what is written for that into the array, from `at` on.
    fn read_step(&mut self, piece: &[u8], out: &mut [u8; 65280], at: usize) -> Put
        requires { at + 68 ≤ 65280 }
        ensures text { partial_of self.new ≡ (taken_of (partial_of self.old) piece.now).text }
        ensures used { result.used ≡ (taken_of (partial_of self.old) piece.now).used }
        ensures count { result.len ≡ length (written_next self.old piece.now) }
        ensures few { result.len ≤ 68 }
        ensures part { result.used ≤ length piece.now }
        ensures some { 0 < length piece.now → 1 ≤ result.used }
        ensures bytes { out.new ≡ paste out.old at (written_next self.old piece.now) result.len }
    {
        let taken = self.take_line(piece);
        let len = match &taken.step {
            Some(step) => pieces::put(step, out, at),
            None => 0,
        };
        Put {
            used: taken.used,
            len,
        }
    }

    // Reads a piece of at most 960 bytes.
    fn read_steps(&mut self, piece: &[u8], out: &mut [u8; 65280]) -> usize
        requires { length piece.now ≤ 960 }
        ensures text { partial_of self.new ≡ (piece_of (partial_of self.old) piece.now).text }
        ensures count { result ≡ length (piece_of (partial_of self.old) piece.now).written }
        ensures room { result ≤ 65280 }
        ensures bytes { out.new ≡ put_first (piece_of (partial_of self.old) piece.now).written out.old }
    {
        let mut used = 0;
        let mut len = 0;
        while used < piece.len() {
            let more = self.read_step(&piece[used..], out, len);
            used += more.used;
            len += more.len;
        }
        len
    }

    // Reads a piece, of which it takes 960 bytes at most, and puts what is written for them into the array: each byte
    // that is read writes at most 68.
    pub fn read_piece(&mut self, piece: &[u8], out: &mut [u8; 65280]) -> Put
        ensures used { result.used ≡ min (length piece.now) 960 }
        ensures text { partial_of self.new ≡ (piece_of (partial_of self.old) (take 960 piece.now)).text }
        ensures count { result.len ≡ length (piece_of (partial_of self.old) (take 960 piece.now)).written }
        ensures room { result.len ≤ 65280 }
        ensures bytes { out.new ≡ put_first (piece_of (partial_of self.old) (take 960 piece.now)).written out.old }
    {
        let used = piece.len().min(960);
        let len = self.read_steps(&piece[..used], out);
        Put { used, len }
    }

    // The end of the input.
    pub fn end(&mut self) -> Step
        ensures { told_of result self.new ≡ told_step (end_of (partial_of self.old)) }
    {
        let t = finish(self.reader, &self.line[..self.len]);
        self.reader = t.reader;
        self.len = 0;
        t
    }
}
