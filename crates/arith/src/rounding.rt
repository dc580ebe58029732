// A float to a whole float: to the nearest, and downward.
ghost use Rattle.std.specs.Prelude.{◌≡◌};
ghost use Rattle.arith.specs.Rounding.{round_of, floor_of};

// The nearest whole number, a half away from 0, a zero keeping its sign.
#[tactic(auto, using(crate::proofs::StdFloat::round_is))]
pub fn round(x: f64) -> f64
    ensures { result ≡ round_of x }
{
    x.round()
}

// The largest whole number that is not above x.
#[tactic(auto, using(crate::proofs::StdFloat::floor_is))]
pub fn floor(x: f64) -> f64
    ensures { result ≡ floor_of x }
{
    x.floor()
}
