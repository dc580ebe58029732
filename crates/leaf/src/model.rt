// The leaves of `kernel`, `gp_model` and `search`, a search by `generator`: counts, then floats as words. A line whose
// words are not as many as its counts say is none of these.
// Their arrays are large, so they are not inlined: a line of another leaf would pay for their part of the stack.
ghost use Rattle.std.specs.Prelude.{◌≡◌, ◌≤◌, length};

use crate::reply::{Failure, Reply, Results, Written, exactly, put, put_float};
use generator::Generator;
use gp_model::Model;
use refusal::Refusal;
use search::Candidate;

// The data of a fit: the words of its rows of d columns, one after the other, and behind them those of their values.
#[derive(Clone, Copy)]
struct FitData<'a> {
    // Kept: beside the rows, since a fit of no rows has columns too.
    d: usize,
    noise_var: f64,
    words: &'a [u64],
    // Kept: how many of the words are the rows', since both are made floats at once, in one array.
    rows: usize,
    ghost within: { (rows ≤ length words.now) × (length words.now ≤ 4096) },
}

// Reads words as floats, as many as there is room for. (The array is lent: one that is answered is moved, which takes as
// long as a fit of few rows.)
fn read_floats(xs: &mut [f64], words: &[u64]) {
    for (x, word) in xs.iter_mut().zip(words) {
        *x = arith::float_of_word(*word);
    }
}

// Puts floats as words.
pub(crate) fn put_floats(words: &mut [u64], xs: &[f64]) {
    for (word, x) in words.iter_mut().zip(xs) {
        *word = arith::word_of_float(*x);
    }
}

#[inline(never)]
pub(crate) fn matern52(args: &[u64], results: &mut Results) -> Reply {
    let [d, words @ .., s] = args else {
        return Err(Failure::Unreadable);
    };
    let d = *d as usize;
    if words.len() > 4096 || words.len() % 3 != 0 || words.len() / 3 != d {
        return Err(Failure::Unreadable);
    }
    let mut xs = [0.0; 4096];
    read_floats(&mut xs, words);
    let s = arith::float_of_word(*s);
    let k = kernel::matern52(&xs[..d], &xs[d..2 * d], &xs[2 * d..3 * d], s);
    put_float(k?, results)
}

// The data of a line of n, d, noise, n rows of d columns and n values, and the words after them.
fn data(args: &[u64]) -> Option<(FitData<'_>, &[u64])> {
    let [n, d, noise, words @ ..] = args else {
        return None;
    };
    let rows = n.checked_mul(*d)?;
    let (data, rest) = words.split_at_checked(rows.checked_add(*n)? as usize)?;
    if data.len() > 4096 {
        return None;
    }
    let data = FitData {
        d: *d as usize,
        noise_var: arith::float_of_word(*noise),
        words: data,
        rows: rows as usize,
    };
    Some((data, rest))
}

// The model fitted to these data.
fn fit(data: FitData) -> Result<Model, Refusal> {
    let mut xs = [0.0; 4096];
    read_floats(&mut xs, data.words);
    let (rows, values) = xs[..data.words.len()].split_at(data.rows);
    gp_model::fit_gp(rows, values, data.d, data.noise_var)
}

// The data of a line, where this many words follow them, and those words.
fn data_before(args: &[u64], after: u64) -> Result<(FitData<'_>, &[u64]), Failure> {
    let (data, words) = data(args).ok_or(Failure::Unreadable)?;
    if words.len() as u64 != after {
        return Err(Failure::Unreadable);
    }
    Ok((data, words))
}

// How many entries a triangle of n rows has.
fn entries(n: usize) -> usize
    requires { n ≤ 100 }
    ensures { result ≤ 5050 }
{
    n * (n + 1) / 2
}

// A model: the best value, the lengthscales, the weights and the factor. It has at most 100 rows of 20 columns.
fn put_model(m: &Model, results: &mut Results) -> Reply {
    let (n, d) = (m.n, m.d);
    if n > 100 || d > 20 {
        return Err(Failure::Unreadable);
    }
    let count = entries(n);
    let alpha = 1 + d;
    let factor = alpha + n;
    let end = factor + count;
    results[0] = arith::word_of_float(m.f_best);
    put_floats(&mut results[1..alpha], &m.lengthscales[..d]);
    put_floats(&mut results[alpha..factor], &m.alpha[..n]);
    put_floats(&mut results[factor..end], &m.cholesky[..count]);
    Ok(Written { words: end })
}

#[inline(never)]
pub(crate) fn fit_gp(args: &[u64], results: &mut Results) -> Reply {
    let (data, _) = data_before(args, 0)?;
    put_model(&fit(data)?, results)
}

#[inline(never)]
pub(crate) fn predict(args: &[u64], results: &mut Results) -> Reply {
    let [_, d, ..] = args else {
        return Err(Failure::Unreadable);
    };
    let (data, point) = data_before(args, *d)?;
    if point.len() > 4096 {
        return Err(Failure::Unreadable);
    }
    let m = fit(data)?;
    let mut xs = [0.0; 4096];
    read_floats(&mut xs, point);
    let p = prediction::predict(m, &xs[..point.len()])?;
    put(
        [arith::word_of_float(p.mean), arith::word_of_float(p.std)],
        results,
    )
}

// The point found, of d coordinates, and the generator's word after it. It has at most 20.
fn put_point(found: Candidate, d: usize, word: u64, results: &mut Results) -> Reply {
    if d > 20 {
        return Err(Failure::Unreadable);
    }
    put_floats(&mut results[..d], &found.x[..d]);
    results[d] = word;
    Ok(Written { words: d + 1 })
}

#[inline(never)]
pub(crate) fn optimize_acquisition(args: &[u64], results: &mut Results) -> Reply {
    let (data, words) = data_before(args, 2)?;
    let [candidates, word]: [u64; 2] = exactly(words)?;
    let m = fit(data)?;
    let d = m.d;
    let mut g = Generator { word };
    let found = generator::optimize_acquisition(&mut g, m, d, candidates)?;
    put_point(found, d, g.word, results)
}
