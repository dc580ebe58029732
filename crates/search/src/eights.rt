// Up to eight candidates of a search at a time, side by side: each float is the one that a candidate alone would have.
ghost use Rattle.std.specs.Prelude.{◌≡◌, ℕ, ◌≤◌, ◌<◌, pos, get_or};
ghost use Rattle.std.specs.Float.{nan, binary64};
ghost use Rattle.std.specs.Float.Ieee.{sub, of_int};
ghost use Rattle.acquisition.specs.Improvement.{expected_improvement_of};
ghost use Rattle.arith.specs.Choice.{positive_part};
ghost use Rattle.arith.specs.Outcome.{value_of};
ghost use Rattle.root.specs.Sqrt.{sqrt_of};
ghost use Rattle.lanes.specs.Rows.{eight_of, lane_of};
ghost use Rattle.rng_util.specs.Generator.{Nonzero};
ghost use Rattle.search.specs.Eights.{Words, starts_of, column_of, points_of, kept_each_of};
ghost use Rattle.search.specs.Lent.{model_of};
ghost use Rattle.search.specs.Search.{point_of, score_of, kept_of, advance_of};

use crate::{Column, Lent, Search, Starts, searching};

// The word before each of eight points of d coordinates, and the word after them.
fn starts(word: u64, d: usize) -> Starts
    requires { Nonzero word × (d ≤ 20) }
    ensures { result ≡ starts_of d word }
{
    let mut words = [0; 8];
    let mut next = word;
    for p in 0..8 {
        words[p] = next;
        let drawn = searching::draw(next, d);
        next = drawn.next;
    }
    Starts { words, next }
}

// A unit float drawn at each of eight words, and the words after them.
fn column(words: &[u64; 8]) -> Column
    requires { Words words.now }
    ensures { result ≡ column_of words.now }
{
    let mut values = [0.0; 8];
    let mut next = [0; 8];
    for p in 0..8 {
        let u = rng_util::unit_float(words[p]).unwrap();
        values[p] = u.value;
        next[p] = u.next;
    }
    Column { values, next }
}

// The points drawn at eight words: row j has coordinate j of each.
fn points(words: &[u64; 8], d: usize) -> [[f64; 8]; 20]
    requires { (d ≤ 20) × Words words.now }
    ensures { result ≡ points_of d words.now }
{
    let mut out = [[0.0; 8]; 20];
    let mut at = *words;
    for j in 0..d {
        let Column { values, next } = column(&at);
        out[j] = values;
        at = next;
    }
    out
}

// The expected improvements by eight means and eight products k · (K + σ² I)⁻¹ k.
fn improvements(means: &[f64; 8], products: &[f64; 8], f_best: f64) -> [f64; 8]
    ensures { result ≡ eight_of (λ (p : ℕ). value_of (expected_improvement_of (get_or means.now p nan) (sqrt_of (positive_part (sub binary64 (of_int binary64 (pos 1)) (get_or products.now p nan)))) f_best)) }
{
    std::array::from_fn(|p| {
        let std = root::sqrt(arith::positive_part(1.0 - products[p]));
        acquisition::expected_improvement(means[p], std, f_best)
    })
}

// The expected improvements at eight points.
fn scores(m: Lent, points: &[[f64; 8]; 20]) -> [f64; 8]
    ensures { result ≡ eight_of (λ (p : ℕ). score_of (model_of m.entry) (lane_of points.now m.entry.d p)) }
{
    let lengthscales = &m.lengthscales[..m.d];
    let sums = lanes::posterior_sums(
        points,
        m.x_train,
        m.n,
        lengthscales,
        m.cholesky,
        m.alpha,
    ).unwrap();
    improvements(&sums.means, &sums.products, m.f_best)
}

// The point drawn at a word is kept where its score is above the best one.
fn kept(s: Search, word: u64, ei: f64, d: usize) -> Search
    requires { (0 < word) × (d ≤ 20) }
    ensures { result ≡ kept_of s s.word (point_of d word) ei }
{
    if ei > s.best_ei {
        let drawn = searching::draw(word, d);
        let x = drawn.x;
        return Search {
            word: s.word,
            best_ei: ei,
            best_x: x,
        };
    }
    s
}

// The first k of eight points, one after the other.
fn kept_each(start: Search, words: &[u64; 8], ei: &[f64; 8], d: usize, k: usize) -> Search
    requires { (d ≤ 20) × Words words.now × (k ≤ 8) }
    ensures { result ≡ kept_each_of d words.now ei.now k start }
{
    let mut s = start;
    for p in 0..k {
        s = kept(s, words[p], ei[p], d);
    }
    s
}

// At most eight candidates more: eight are scored, and the first k are compared.
pub(crate) fn some_candidates(m: Lent, s: Search, k: usize) -> Search
    requires { Nonzero s.word × (k ≤ 8) }
    ensures { result ≡ advance_of (model_of m.entry) k s }
{
    let drawn = starts(s.word, m.d);
    let words = drawn.words;
    let c = points(&words, m.d);
    let ei = scores(m, &c);
    let best = kept_each(s, &words, &ei, m.d, k);
    let best_x = best.best_x;
    if k < 8 {
        let next = words[k];
        return Search {
            word: next,
            best_ei: best.best_ei,
            best_x,
        };
    }
    Search {
        word: drawn.next,
        best_ei: best.best_ei,
        best_x,
    }
}
