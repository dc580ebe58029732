// Sums of products, side by side.
ghost use Rattle.std.specs.Prelude.{◌≡◌, ℕ, ◌≤◌, get_or, length};
ghost use Rattle.std.specs.Float.{nan, binary64};
ghost use Rattle.std.specs.Float.Ieee.{add, mul};
ghost use Rattle.lanes.specs.Rows.{eight_of};
ghost use Rattle.lanes.specs.Sums.{dots_of, dots_each_of};

// s and the product of a and b, lane by lane.
#[tactic(auto, using(arith::proofs::Eights::eight_floats))]
fn more(s: &[f64; 8], a: &[f64; 8], b: &[f64; 8]) -> [f64; 8]
    ensures { result ≡ eight_of (λ (p : ℕ). add binary64 (get_or s.now p nan) (mul binary64 (get_or a.now p nan) (get_or b.now p nan))) }
{
    std::array::from_fn(|p| s[p] + a[p] * b[p])
}

// The dot products of the first n rows of a and b, lane by lane.
pub(crate) fn dot(a: &[[f64; 8]; 100], b: &[[f64; 8]; 100], n: usize) -> [f64; 8]
    requires { n ≤ 100 }
    ensures { result ≡ dots_of a.now b.now n }
{
    let mut s = [0.0; 8];
    for i in 0..n {
        s = more(&s, &a[i], &b[i]);
    }
    s
}

// The dot products of the first n rows of each lane of a and of one list b.
// Kept: beside dot's loop; one for both takes a closure for b's rows, a clause that it may be called below n and one
// that says each row, for a loop of one line.
pub(crate) fn dot_each(a: &[[f64; 8]; 100], b: &[f64], n: usize) -> [f64; 8]
    requires { (n ≤ 100) × (n ≤ length b.now) }
    ensures { result ≡ dots_each_of a.now b.now n }
{
    let mut s = [0.0; 8];
    for i in 0..n {
        s = more(&s, &a[i], &[b[i]; 8]);
    }
    s
}
