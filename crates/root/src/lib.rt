// The correctly rounded square root.
#![tactic(auto)]

ghost use Rattle.std.specs.Prelude.{◌≡◌};
ghost use Rattle.root.specs.Sqrt.{sqrt_of};
ghost use Rattle.root.specs.Rooted.{SqrtIsRounded};

// The square root of x, correctly rounded.
#[tactic(auto, using(crate::proofs::StdRoot::std_root))]
pub fn sqrt(x: f64) -> f64
    ensures { result ≡ sqrt_of x }
{
    x.sqrt()
}

// What `sqrt` computes is the correctly rounded root, at every float: a theorem on its definition, as a contract.
#[tactic(auto, using(crate::proofs::SqrtLaws::is_rounded))]
pub fn sqrt_is_rounded()
    ensures { SqrtIsRounded }
{}
