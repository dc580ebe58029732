// Words read as floats and as two's complement integers, and back; floats as integers, and back.
ghost use Rattle.std.specs.Prelude.{◌≡◌, from_bits, to_bits};
ghost use Rattle.std.specs.Float.{binary64};
ghost use Rattle.std.specs.Float.Ieee.{of_int, to_signed};
ghost use Rattle.std.specs.Int.{w64};
ghost use Rattle.std.proofs.Common.{to_z, of_z};

// The float whose pattern is w. Every NaN's pattern gives the one NaN.
#[tactic(auto, using(crate::proofs::WordFacts::above_nan, crate::proofs::WordFacts::within))]
pub fn float_of_word(w: u64) -> f64
    ensures { result ≡ from_bits binary64 w }
{
    if w % 0x8000_0000_0000_0000 > 0x7ff0_0000_0000_0000 {
        return f64::NAN;
    }
    f64::from_bits(w)
}

// The pattern of x. The NaN's is 7ff8000000000000.
#[tactic(auto, using(crate::proofs::WordFacts::nan_word))]
pub fn word_of_float(x: f64) -> u64
    ensures { result ≡ to_bits binary64 x }
{
    if x.is_nan() {
        return 0x7ff8_0000_0000_0000;
    }
    x.to_bits()
}

// The two's complement integer that w is.
pub fn int_of_word(w: u64) -> i64
    ensures { result ≡ to_z w64 w }
{
    w.cast_signed()
}

// The word of a two's complement integer.
pub fn word_of_int(z: i64) -> u64
    ensures { result ≡ of_z w64 z }
{
    z.cast_unsigned()
}

// Rust's `x as i64`: the fraction cut off, held to the ends of i64, 0 for a NaN.
pub fn int_of_float(x: f64) -> i64
    ensures { result ≡ to_signed 63 x }
{
    std::num::saturating_f64_to_i64(x)
}

// Rust's `z as f64`, rounded.
pub fn float_of_int(z: i64) -> f64
    ensures { result ≡ of_int binary64 z }
{
    std::num::nearest_i64_to_f64(z)
}
