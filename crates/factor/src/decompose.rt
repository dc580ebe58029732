// The Cholesky factor, row after row: each entry is written once, in the packed order.
ghost use Rattle.std.specs.Prelude.{◌≡◌, true, [], ◌++◌, ◌+◌, ◌≤◌, ◌<◌};
ghost use Rattle.std.specs.Float.{binary64};
ghost use Rattle.std.specs.Float.Ieee.{lt, of_bits};
ghost use Rattle.arith.specs.Lists.{list_of, padded};
ghost use Rattle.factor.specs.Triangle.{entry, less_of, rows_of};
ghost use Rattle.factor.specs.Cholesky.{columns_of, factor_of, rest_of, positive, cholesky_of};

use crate::place;
use refusal::Refusal;

// a less the products of the rows i and j before column j.
// Kept: beside the loops of next and unknown, which read other places; one for all takes two closures, with clauses
// that each k has its place in the array and what is read there, for a loop of one line.
#[tactic(auto, unfolding(crate::specs::Triangle::less_of))]
fn rest(l: &[f64; 5050], a: f64, i: usize, j: usize) -> f64
    requires { (i < 100) × (j ≤ i) }
    ensures { result ≡ less_of j (entry l.now i) (entry l.now j) a }
{
    let p = place(i, 0);
    let q = place(j, 0);
    let mut s = a;
    for k in 0..j {
        s = s - l[p + k] * l[q + k];
    }
    s
}

// The factor's row i before the diagonal, written behind the rows before it.
// Kept: a clause says what is written, not a struct's ghost field: a refused pivot leaves row i half written, and a
// struct by value is 40 kB, copied for each row.
fn left(l: &mut [f64; 5050], a: &[f64; 5050], i: usize)
    requires { (i < 100) × (l.old ≡ padded 5050 (rows_of (factor_of (entry a.now)) i)) }
    ensures { l.new ≡ padded 5050 (rows_of (factor_of (entry a.now)) i ++ list_of (factor_of (entry a.now) i) i) }
{
    let p = place(i, 0);
    for j in 0..i {
        let v = rest(l, a[p + j], i, j);
        let root = l[place(j, j)];
        l[p + j] = v / root;
    }
}

// The factor's row i, written behind the rows before it; false where its pivot is not above 0.
fn row(l: &mut [f64; 5050], a: &[f64; 5050], i: usize) -> bool
    requires { (i < 100) × (l.old ≡ padded 5050 (rows_of (factor_of (entry a.now)) i)) }
    ensures { (result ≡ lt (of_bits binary64 0) (rest_of (entry a.now) (columns_of (entry a.now) i) i i)) × (result ≡ true → l.new ≡ padded 5050 (rows_of (factor_of (entry a.now)) (i + 1))) }
{
    left(l, a, i);
    let d = place(i, i);
    let pivot = rest(l, a[d], i, i);
    if pivot > 0.0 {
        l[d] = root::sqrt(pivot);
        return true;
    }
    false
}

// The factor's first n rows, into a triangle of zeros; false where a pivot is not above 0.
// Kept: a bool, as row's, since the definition's test (`positive`) is one; cholesky names the cause.
fn rows(l: &mut [f64; 5050], a: &[f64; 5050], n: usize) -> bool
    requires { (n ≤ 100) × (l.old ≡ padded 5050 []) }
    ensures { (result ≡ positive (entry a.now) n) × (result ≡ true → l.new ≡ padded 5050 (rows_of (factor_of (entry a.now)) n)) }
{
    for i in 0..n {
        if !row(l, a, i) {
            return false;
        }
    }
    true
}

// The factor of the first n rows of a packed matrix: 11 over 100 rows, 13 where a pivot is not above 0.
#[tactic(auto, unfolding(crate::specs::Cholesky::cholesky_of))]
pub fn cholesky(a: &[f64; 5050], n: usize) -> Result<[f64; 5050], Refusal>
    ensures { result ≡ cholesky_of a.now n }
{
    if n > 100 {
        return Err(Refusal::OutOfDomain);
    }
    let mut l = [0.0; 5050];
    if !rows(&mut l, a, n) {
        return Err(Refusal::Pivot);
    }
    Ok(l)
}
