// Eight systems with one Cholesky factor, solved side by side.
ghost use Rattle.std.specs.Prelude.{◌≡◌, ℕ, ◌+◌, ◌≤◌, ◌<◌, get_or};
ghost use Rattle.std.specs.Float.{nan, binary64};
ghost use Rattle.std.specs.Float.Ieee.{div, sub, mul};
ghost use Rattle.factor.specs.Triangle.{entry, less_of};
ghost use Rattle.factor.specs.Solve.{forward_of, backward_of};
ghost use Rattle.lanes.specs.Rows.{cell, eight_of, lane_of, lanes_of, rows_of};
ghost use Rattle.lanes.specs.Solving.{solutions_of};

// s less v times x, lane by lane.
#[tactic(auto, using(arith::proofs::Eights::eight_floats))]
fn less(s: &[f64; 8], v: f64, x: &[f64; 8]) -> [f64; 8]
    ensures { result ≡ eight_of (λ (p : ℕ). sub binary64 (get_or s.now p nan) (mul binary64 v (get_or x.now p nan))) }
{
    std::array::from_fn(|p| s[p] - v * x[p])
}

// s over v, lane by lane.
#[tactic(auto, using(arith::proofs::Eights::eight_floats))]
fn over(s: &[f64; 8], v: f64) -> [f64; 8]
    ensures { result ≡ eight_of (λ (p : ℕ). div binary64 (get_or s.now p nan) v) }
{
    std::array::from_fn(|p| s[p] / v)
}

// Row i of the forward solutions, from the rows before it in z.
// Kept: the row's start as it stands in factor too: `place` there asks that its row is below 100, so it is not public.
#[tactic(auto, using(factor::proofs::Triangle::at_room, crate::proofs::Less::row_start))]
fn next(l: &[f64; 5050], b: &[[f64; 8]; 100], z: &[[f64; 8]; 100], i: usize) -> [f64; 8]
    requires { i < 100 }
    ensures { result ≡ eight_of (λ (p : ℕ). div binary64 (less_of i (entry l.now i) (λ (k : ℕ). cell z.now k p) (cell b.now i p)) (entry l.now i i)) }
{
    let start = i * (i + 1) / 2;
    let mut s = b[i];
    for k in 0..i {
        s = less(&s, l[start + k], &z[k]);
    }
    over(&s, l[start + i])
}

// z with L z = b for each lane, behind it zeros.
fn forward(l: &[f64; 5050], b: &[[f64; 8]; 100], n: usize) -> [[f64; 8]; 100]
    requires { n ≤ 100 }
    ensures { result ≡ rows_of (lanes_of (λ (p : ℕ). forward_of l.now (lane_of b.now 100 p) n) n) }
{
    let mut z = [[0.0; 8]; 100];
    for i in 0..n {
        z[i] = next(l, b, &z, i);
    }
    z
}

// Row i of the unknowns, from the m rows behind it in x.
#[tactic(auto, using(factor::proofs::Triangle::at_room, crate::proofs::Less::row_start))]
fn unknown(
    l: &[f64; 5050],
    z: &[[f64; 8]; 100],
    x: &[[f64; 8]; 100],
    i: usize,
    m: usize,
) -> [f64; 8]
    requires { i + m < 100 }
    ensures { result ≡ eight_of (λ (p : ℕ). div binary64 (less_of m (λ (k : ℕ). entry l.now (i + 1 + k) i) (λ (k : ℕ). cell x.now (i + 1 + k) p) (cell z.now i p)) (entry l.now i i)) }
{
    let diagonal = i * (i + 1) / 2 + i;
    let mut s = z[i];
    for k in 0..m {
        let q = i + 1 + k;
        let start = q * (q + 1) / 2;
        s = less(&s, l[start + i], &x[q]);
    }
    over(&s, l[diagonal])
}

// x with Lᵀ x = z for each lane, behind it zeros.
fn backward(l: &[f64; 5050], z: &[[f64; 8]; 100], n: usize) -> [[f64; 8]; 100]
    requires { n ≤ 100 }
    ensures { result ≡ rows_of (lanes_of (λ (p : ℕ). backward_of l.now (lane_of z.now n p) n n) n) }
{
    let mut x = [[0.0; 8]; 100];
    // Kept: by the number of unknowns made, which unknown takes and the definition counts; a `rev` has i in its place.
    for m in 0..n {
        let i = n - 1 - m;
        x[i] = unknown(l, z, &x, i, m);
    }
    x
}

// x with L Lᵀ x = b for each lane, of the first n rows.
pub(crate) fn solve(l: &[f64; 5050], b: &[[f64; 8]; 100], n: usize) -> [[f64; 8]; 100]
    requires { n ≤ 100 }
    ensures { result ≡ solutions_of l.now b.now n }
{
    let z = forward(l, b, n);
    backward(l, &z, n)
}
