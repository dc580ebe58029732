// The lines written: four words each.
ghost use Rattle.std.specs.Prelude.{◌≡◌, ◌+◌, ◌≤◌};
ghost use Rattle.std.proofs.Math.Seq.{paste};
ghost use Rattle.propose_lines.specs.Lines.{printed, answer_line};

// The digits of a word and the byte after them.
pub fn printed(w: u64, end: u8) -> [u8; 17]
    ensures { result ≡ printed w end }
{
    let mut bytes = [end; 17];
    bytes[..16].copy_from_slice(&word_text::print(w));
    bytes
}

// Puts a word and the byte after it into the line, from `at` on.
fn put_printed(line: &mut [u8; 68], at: usize, w: u64, end: u8)
    requires { at + 17 ≤ 68 }
    ensures { line.new ≡ paste line.old at (printed w end) 17 }
{
    line[at..at + 17].copy_from_slice(&printed(w, end));
}

// The line of an answer, its newline with it.
#[tactic(auto, unfolding(crate::specs::Lines::answer_line))]
pub fn answer_line(trial: u64, kind: u64, value: u64, drawn: u64) -> [u8; 68]
    ensures { result ≡ answer_line trial kind value drawn }
{
    let mut line = [0; 68];
    put_printed(&mut line, 0, trial, b' ');
    put_printed(&mut line, 17, kind, b' ');
    put_printed(&mut line, 34, value, b' ');
    put_printed(&mut line, 51, drawn, b'\n');
    line
}
