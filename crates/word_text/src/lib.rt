// Words as text: sixteen lower-case hexadecimal digits, the highest first.
#![tactic(auto)]

ghost use Rattle.std.specs.Prelude.{◌≡◌, ◌<◌, MatchOption};
ghost use Rattle.word_text.specs.Digits.{digit_of, value_of, digits_of, parse_of};
ghost use Rattle.word_text.specs.RoundTrip.{RoundTrip};

// The word that s is: exactly sixteen lower-case hexadecimal digits, the highest first. Anything else is malformed.
#[tactic(auto, using(crate::proofs::Digits::parsing), unfolding(crate::specs::Digits::all_digits, crate::specs::Digits::of_digits))]
pub fn parse(s: &[u8]) -> Option<u64>
    ensures { result ≡ parse_of s.now }
{
    if s.len() != 16 {
        return None;
    }
    let mut n: u64 = 0;
    for b in s {
        match value(*b) {
            Some(v) => n = n * 16 + v,
            None => return None,
        }
    }
    Some(n)
}

// The sixteen digits of w.
#[tactic(auto, using(crate::proofs::Digits::last_more), unfolding(crate::specs::Digits::last_digits))]
pub fn print(w: u64) -> [u8; 16]
    ensures { result ≡ digits_of w }
{
    let mut out = [0u8; 16];
    let mut rest = w;
    for i in (0..16).rev() {
        out[i] = digit(rest % 16);
        rest /= 16;
    }
    out
}

// The value of a digit.
fn value(b: u8) -> Option<u64>
    ensures { MatchOption result (value_of b ≡ 16) (λ v. (v ≡ value_of b) × (v < 16)) }
{
    match b {
        b'0'..=b'9' => Some(u64::from(b - b'0')),
        b'a'..=b'f' => Some(u64::from(b - b'a') + 10),
        _ => None,
    }
}

// The digit of a value.
fn digit(d: u64) -> u8
    requires { d < 16 }
    ensures { result ≡ digit_of d }
{
    if d < 10 {
        b'0' + d as u8
    } else {
        b'a' + (d - 10) as u8
    }
}

// Every word printed is read back, and no other text is read as a word.
#[tactic(auto, using(crate::proofs::RoundTrip::reads, crate::proofs::RoundTrip::prints))]
pub fn round_trip()
    ensures { RoundTrip }
{}
