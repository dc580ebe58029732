// Eight scaled roots side by side.
ghost use Rattle.std.specs.Prelude.{◌≡◌, ℕ, get_or};
ghost use Rattle.std.specs.Float.{nan};
ghost use Rattle.kernel.specs.Matern.{scaled_root_of};
ghost use Rattle.lanes.specs.Rows.{eight_of};

// The scaled roots of eight squared distances.
#[tactic(auto, using(arith::proofs::Eights::eight_floats))]
pub(crate) fn scaled_roots(r_sq: &[f64; 8]) -> [f64; 8]
    ensures { result ≡ eight_of (λ (p : ℕ). scaled_root_of (get_or r_sq.now p nan)) }
{
    std::array::from_fn(|p| kernel::scaled_root(r_sq[p]))
}
