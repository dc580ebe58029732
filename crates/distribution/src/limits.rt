// Tests on floats and on integers, by std's order: a NaN is in no range.
ghost use Rattle.std.specs.Prelude.{◌≡◌};
ghost use Rattle.std.specs.Ordering.{partial_le};
ghost use Rattle.distribution.specs.Shape.{ranged};

// Whether x is from least to most, and on log scale at least first.
pub(crate) fn ranged<T: PartialOrd + Copy>(
    least: T,
    most: T,
    first: T,
    log_scale: bool,
    x: T,
) -> bool
    ensures { result ≡ ranged (partial_le T.partial_cmp) least most first log_scale x }
{
    (least..=most).contains(&x) && (!log_scale || first <= x)
}
