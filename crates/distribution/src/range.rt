// What is promised of the range of a distribution.
ghost use Rattle.distribution.specs.Range.{InRangeTaken};

// A value in range of a well-formed distribution obeys its Taken rule.
#[tactic(auto, using(crate::proofs::InRange::in_range_taken))]
pub fn in_range_taken()
    ensures { InRangeTaken }
{}
