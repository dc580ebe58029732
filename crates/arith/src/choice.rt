// The size of a value, the larger of a value and a limit, and the least of several values.
ghost use Rattle.std.specs.Prelude.{◌≡◌};
ghost use Rattle.arith.specs.Bounds.{abs};
ghost use Rattle.arith.specs.Choice.{at_least, positive_part, lesser_of, least_of};

// The size of x.
#[tactic(auto, using(crate::proofs::StdFloat::size_is))]
pub fn abs(x: f64) -> f64
    ensures { result ≡ abs x }
{
    x.abs()
}

// v where it is above the limit, else the limit. A NaN gives the limit.
// Kept: f64::max may answer either of two equal values, as +0 and -0, and a NaN limit gives v there.
pub fn at_least(v: f64, limit: f64) -> f64
    ensures { result ≡ at_least limit v }
{
    if v > limit { v } else { limit }
}

// v where it is above 0, else +0.
pub fn positive_part(v: f64) -> f64
    ensures { result ≡ positive_part v }
{
    at_least(v, 0.0)
}

// The earlier of two values, unless the later is less.
// Kept: f64::min may answer either of two equal values, and the other one for a NaN.
fn lesser(earlier: f64, later: f64) -> f64
    ensures { result ≡ lesser_of earlier later }
{
    if later < earlier { later } else { earlier }
}

// The least value of a list, the earliest of equal ones; +infinity of an empty list.
pub fn least(xs: &[f64]) -> f64
    ensures { result ≡ least_of xs.now }
{
    let mut best = f64::INFINITY;
    for x in xs {
        best = lesser(best, *x);
    }
    best
}
