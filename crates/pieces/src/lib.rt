// Standard input in pieces: one read, the lines of an input one after the other, and many bytes passed over.
#![tactic(auto)]

mod input;

ghost use Rattle.std.specs.Prelude.{◌≡◌, ◌≤◌, length, drop, min, IfSome};
ghost use Rattle.pieces.specs.Kept.{kept_of};

use input::Input;
pub use input::Lines;
use std::io::Read;

// Reads once, and no more than `left` bytes: how many are put at the start of the buffer, 0 at the end of the input.
// None where the read failed, which is told on standard error. What is read no contract can say; what stands behind
// the bytes that may be read stays.
pub fn fill(rt: HostRuntime, buf: &mut [u8], left: u64) -> Option<usize>
    ensures count { IfSome result (λ n. (n ≤ length buf.old) × (n ≤ left)) }
    ensures rest { drop (min left (length buf.old)) buf.new ≡ drop (min left (length buf.old)) buf.old }
{
    let end = left.min(buf.len() as u64) as usize;
    match rt.stdin().read(&mut buf[..end]) {
        Ok(n) => Some(n),
        Err(_) => {
            let _ = eprintln!(rt; "Standard input cannot be read.");
            None
        }
    }
}

// Keeps the bytes from `used` up to `have`, at the front; other numbers than places in this order change nothing.
#[tactic(auto, unfolding(crate::specs::Kept::kept_of))]
pub(crate) fn keep(buf: &mut [u8], used: usize, have: usize)
    ensures { buf.new ≡ kept_of used have buf.old }
{
    if used <= have && have <= buf.len() {
        buf.copy_within(used..have, 0);
    }
}

// Hands the lines of the next `limit` bytes of standard input, or of those up to its end, to what takes them. A line of
// 65,536 bytes is too long to be held. How many of the bytes are not read.
pub fn read_lines<T: Lines>(rt: HostRuntime, to: &mut T, limit: u64) -> u64
    ensures { result ≤ limit }
{
    let mut input = Input::new(limit);
    input.run(rt, to);
    input.left
}

// Passes over that many bytes of standard input. How many there were not.
pub fn skip(rt: HostRuntime, count: u64) -> u64
    ensures { result ≤ count }
{
    let mut buffer = [0u8; 65536];
    let mut left = count;
    // Kept: each turn takes off what a read gave, and no range says that.
    while left > 0 {
        match fill(rt, &mut buffer, left) {
            None | Some(0) => return left,
            Some(n) => left -= n as u64,
        }
    }
    left
}
