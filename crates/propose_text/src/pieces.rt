// What a text does with the bytes of a piece.
ghost use Rattle.std.specs.Prelude.{◌≡◌, ◌+◌, ◌<◌, ◌≤◌, ◌≢◌, ℕ, length, slice_index};
ghost use Rattle.std.proofs.Math.Seq.{paste};
ghost use Rattle.text_laws.specs.Pieces.{has_ended};
ghost use Rattle.text_laws.specs.Steps.{written_in};

use text_laws::{Stage, Step};

pub(crate) fn has_ended(stage: Stage) -> bool
    ensures { result ≡ has_ended stage }
{
    matches!(stage, Stage::Ended)
}

// How many bytes stand before the first newline: all of them where there is none.
pub(crate) fn before_newline(bytes: &[u8]) -> usize
    ensures within { result ≤ length bytes.now }
    ensures before { (k : ℕ) → k < result → slice_index bytes.now k ≢ 10 }
    ensures found { result < length bytes.now → slice_index bytes.now result ≡ 10 }
{
    for (i, b) in bytes.iter().enumerate() {
        if *b == b'\n' {
            return i;
        }
    }
    bytes.len()
}

// Puts what a step writes into the array, from `at` on. How many bytes that is.
pub(crate) fn put(step: &Step, out: &mut [u8; 65280], at: usize) -> usize
    requires { at + 68 ≤ 65280 }
    ensures count { result ≡ length (written_in step.now.line) }
    ensures bytes { out.new ≡ paste out.old at (written_in step.now.line) result }
{
    match &step.line {
        Some(line) => {
            out[at..at + 68].copy_from_slice(line);
            68
        }
        None => 0,
    }
}
