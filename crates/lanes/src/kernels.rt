// Kernel vectors at signal variance 1, side by side.
ghost use Rattle.std.specs.Prelude.{◌≡◌, ℕ, ◌+◌, ◌*◌, ◌≤◌, ◌<◌, get_or, length, pos};
ghost use Rattle.std.specs.Float.{nan, binary64};
ghost use Rattle.std.specs.Float.Ieee.{add, sub, mul, div, neg, of_int};
ghost use Rattle.arith.specs.Outcome.{value_of};
ghost use Rattle.arith.specs.Sums.{sum_over};
ghost use Rattle.kernel.specs.Matern.{square, polynomial_of, at_of};
ghost use Rattle.lanes.specs.Rows.{eight_of, rows_of};
ghost use Rattle.lanes.specs.Kernels.{distance_term, kernel_rows_of};

use crate::roots;

// s and the squares of the scaled differences of a column, lane by lane.
#[tactic(auto, using(arith::proofs::Eights::eight_floats))]
fn squares(s: &[f64; 8], column: &[f64; 8], x: f64, lengthscale: f64) -> [f64; 8]
    ensures { result ≡ eight_of (λ (p : ℕ). add binary64 (get_or s.now p nan) (square (div binary64 (sub binary64 (get_or column.now p nan) x) lengthscale))) }
{
    std::array::from_fn(|p| {
        let diff = (column[p] - x) / lengthscale;
        s[p] + diff * diff
    })
}

// The squared distances of eight points and row i of a table with a column for each lengthscale.
fn distance(points: &[[f64; 8]; 20], x: &[f64], lengthscales: &[f64], i: usize) -> [f64; 8]
    requires { let d = length lengthscales.now in (d ≤ 20) × (i * d + d ≤ length x.now) }
    ensures { let d = length lengthscales.now in
        result ≡ eight_of (λ (p : ℕ). sum_over d (distance_term points.now x.now d lengthscales.now i p)) }
{
    let d = lengthscales.len();
    let start = i * d;
    let mut s = [0.0; 8];
    for j in 0..d {
        s = squares(&s, &points[j], x[start + j], lengthscales[j]);
    }
    s
}

// Minus each of eight floats.
#[tactic(auto, using(arith::proofs::Eights::eight_floats))]
fn negated(q: &[f64; 8]) -> [f64; 8]
    ensures { result ≡ eight_of (λ (p : ℕ). neg (get_or q.now p nan)) }
{
    std::array::from_fn(|p| -q[p])
}

// The kernel's polynomial by eight squared distances and their scaled roots, times e.
fn polynomials(r_sq: &[f64; 8], q: &[f64; 8], e: &[f64; 8]) -> [f64; 8]
    ensures { result ≡ eight_of (λ (p : ℕ). mul binary64 (mul binary64 (of_int binary64 (pos 1)) (polynomial_of (get_or q.now p nan) (get_or r_sq.now p nan))) (get_or e.now p nan)) }
{
    std::array::from_fn(|p| 1.0 * (1.0 + q[p] + 5.0 / 3.0 * r_sq[p]) * e[p])
}

// The kernel by each of eight squared distances.
fn decays(r_sq: &[f64; 8]) -> [f64; 8]
    ensures { result ≡ eight_of (λ (p : ℕ). value_of (at_of (get_or r_sq.now p nan) (of_int binary64 (pos 1)))) }
{
    let q = roots::scaled_roots(r_sq);
    let x = negated(&q);
    let e = exponential::exp_eight(&x).unwrap();
    polynomials(r_sq, &q, &e)
}

// The kernel of eight points and each of n rows.
// Kept: n beside x, which may be longer than the rows, and says nothing of them where there is no column.
pub(crate) fn kernel_rows(
    points: &[[f64; 8]; 20],
    x: &[f64],
    n: usize,
    lengthscales: &[f64],
) -> [[f64; 8]; 100]
    requires { let d = length lengthscales.now in (n ≤ 100) × (d ≤ 20) × (n * d ≤ length x.now) }
    ensures { result ≡ rows_of (kernel_rows_of points.now x.now n (length lengthscales.now) lengthscales.now) }
{
    let mut out = [[0.0; 8]; 100];
    for i in 0..n {
        let r_sq = distance(points, x, lengthscales, i);
        out[i] = decays(&r_sq);
    }
    out
}
