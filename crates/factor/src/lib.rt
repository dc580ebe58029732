// The Cholesky factor of a symmetric matrix of up to 100 rows, packed as its lower triangle, and the solution of a
// system by it.
#![tactic(auto)]

ghost use Rattle.std.specs.Prelude.{◌≡◌, ℕ, ◌+◌, ◌-◌, ◌≤◌, ◌<◌, get_or, take};
ghost use Rattle.std.specs.Float.{nan, binary64};
ghost use Rattle.std.specs.Float.Ieee.{div};
ghost use Rattle.arith.specs.Lists.{padded};
ghost use Rattle.factor.specs.Triangle.{at, entry, less_of};
ghost use Rattle.factor.specs.Solve.{forward_at, forward_of, backward_of, solve_of};

pub mod decompose;

pub use decompose::cholesky;
use refusal::Refusal;

// Where row i, column k of a packed triangle lies.
#[tactic(auto, using(crate::proofs::Triangle::at_room))]
fn place(i: usize, k: usize) -> usize
    requires { (i < 100) × (k ≤ i) }
    ensures { (result ≡ at i k) × (result < 5050) }
{
    i * (i + 1) / 2 + k
}

// Element i of the forward solution, from those before it in z.
#[tactic(auto, unfolding(crate::specs::Triangle::less_of))]
fn next(l: &[f64; 5050], b: &[f64; 100], z: &[f64; 100], i: usize) -> f64
    requires { i < 100 }
    ensures { result ≡ forward_at l.now b.now z.now i }
{
    let p = place(i, 0);
    let mut s = b[i];
    for k in 0..i {
        s = s - l[p + k] * z[k];
    }
    s / l[place(i, i)]
}

// z with L z = b, behind it zeros.
fn forward(l: &[f64; 5050], b: &[f64; 100], n: usize) -> [f64; 100]
    requires { n ≤ 100 }
    ensures { result ≡ padded 100 (forward_of l.now b.now n) }
{
    let mut z = [0.0; 100];
    for i in 0..n {
        z[i] = next(l, b, &z, i);
    }
    z
}

// Unknown i of n, from those behind it in x.
fn unknown(l: &[f64; 5050], x: &[f64; 100], i: usize, n: usize) -> f64
    requires { (i < n) × (n ≤ 100) }
    ensures { result ≡ div binary64 (less_of (n - (i + 1)) (λ (k : ℕ). entry l.now (i + 1 + k) i) (λ (k : ℕ). get_or x.now (i + 1 + k) nan) (get_or x.now i nan)) (entry l.now i i) }
{
    let mut s = x[i];
    for q in i + 1..n {
        s = s - l[place(q, i)] * x[q];
    }
    s / l[place(i, i)]
}

// x with Lᵀ x = z, in place of z, which has zeros behind it.
fn backward(l: &[f64; 5050], x: &mut [f64; 100], n: usize)
    requires { (n ≤ 100) × (x.old ≡ padded 100 (take n x.old)) }
    ensures { x.new ≡ padded 100 (backward_of l.now (take n x.old) n n) }
{
    for i in (0..n).rev() {
        x[i] = unknown(l, x, i, n);
    }
}

// x with L Lᵀ x = b, of the first n rows: 11 over 100 rows.
pub fn solve(l: &[f64; 5050], b: &[f64; 100], n: usize) -> Result<[f64; 100], Refusal>
    ensures { result ≡ solve_of l.now b.now n }
{
    if n > 100 {
        return Err(Refusal::OutOfDomain);
    }
    let mut x = forward(l, b, n);
    backward(l, &mut x, n);
    Ok(x)
}
