// The natural logarithm, by document 01's recipe.
#![tactic(auto)]

ghost use Rattle.logarithm.specs.Split.{ArgumentIsSplit};

pub mod recipe;

pub use recipe::ln;

// The m and e of `ln` are its argument's mantissa and exponent: a theorem on its definition, as a contract.
#[tactic(auto, using(crate::proofs::LnSplit::argument_is_split))]
pub fn argument_is_split()
    ensures { ArgumentIsSplit }
{}
