// Equality of distributions, as Rust's PartialEq has it.
ghost use Rattle.std.specs.Prelude.{◌≡◌, ◌&&◌};
ghost use Rattle.distribution.specs.Equal.{equal_of};
ghost use Rattle.distribution.specs.Shape.{shape_of, where_formed};

use crate::Distribution;
use crate::shape::formed;
use refusal::Refusal;

// Whether two distributions are equal, by the derived `==`.
#[tactic(auto, unfolding(crate::specs::Equal::equal_of))]
fn same(a: Distribution, b: Distribution) -> bool
    ensures { result ≡ equal_of a b }
{
    a == b
}

// The same of well-formed ones: 11 where one is malformed.
pub fn equal(a: Distribution, b: Distribution) -> Result<bool, Refusal>
    ensures { result ≡ where_formed (shape_of a && shape_of b) (equal_of a b) }
{
    Ok(same(formed(a)?, formed(b)?))
}
