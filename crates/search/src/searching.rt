// The search for the point with the highest expected improvement.
ghost use Rattle.std.specs.Prelude.{◌≡◌, Ok, replicate, ◌≤◌, ◌<◌};
ghost use Rattle.std.specs.Float.{binary64};
ghost use Rattle.std.specs.Float.Ieee.{of_bits};
ghost use Rattle.arith.specs.Lists.{padded};
ghost use Rattle.rng_util.specs.Generator.{Nonzero};
ghost use Rattle.search.specs.declared.Candidate.{Candidate};
ghost use Rattle.search.specs.Earliest.{Earliest};
ghost use Rattle.search.specs.Lent.{model_of};
ghost use Rattle.search.specs.Search.{draw_of, draw_point_of, advance_of, search_domain, optimize_acquisition_of};

use crate::{Candidate, Lent, Search, eights};
use gp_model::Model;
use refusal::Refusal;

// The next d words as unit floats, and the word after them.
pub(crate) fn draw(word: u64, d: usize) -> Candidate
    requires { (0 < word) × (d ≤ 20) }
    ensures { result ≡ draw_of d word }
{
    let mut x = [0.0; 20];
    let mut next = word;
    for j in 0..d {
        let u = rng_util::unit_float(next).unwrap();
        x[j] = u.value;
        next = u.next;
    }
    Candidate { x, next }
}

// A point of d unit floats, at most 20; over 20 and a zero word are 11.
#[tactic(auto, unfolding(crate::specs::Search::draw_point_of))]
pub fn draw_point(d: usize, word: u64) -> Result<Candidate, Refusal>
    ensures { result ≡ draw_point_of d word }
{
    if d > 20 || word == 0 {
        return Err(Refusal::OutOfDomain);
    }
    Ok(draw(word, d))
}

// That many candidates more: eight at a time, and then what is left of them.
fn advance(m: Lent, start: Search, candidates: u64) -> Search
    requires { Nonzero start.word }
    ensures { result ≡ advance_of (model_of m.entry) candidates start }
{
    let mut s = start;
    for _ in 0..candidates / 8 {
        s = eights::some_candidates(m, s, 8);
    }
    match candidates % 8 {
        0 => s,
        rest => eights::some_candidates(m, s, rest as usize),
    }
}

// The point of all 0.5.
fn halves(d: usize) -> [f64; 20]
    requires { d ≤ 20 }
    ensures { result ≡ padded 20 (replicate d (of_bits binary64 0x3fe0000000000000)) }
{
    let mut x = [0.0; 20];
    x[..d].fill(0.5);
    x
}

// Whether a search takes this model, column count and word.
#[tactic(auto, unfolding(crate::specs::Search::search_domain))]
fn in_domain(m: &Model, n_dims: usize, word: u64) -> bool
    ensures { result ≡ search_domain m.now n_dims word }
{
    prediction::counts_fit(m.n, m.d) && n_dims == m.d && word != 0
}

// The earliest point, of those drawn, with the highest expected improvement: 11 outside its domain.
// Kept: `n_dims` beside the model, as in the Rust: another count than the model's is 11.
pub fn optimize_acquisition(
    m: Model,
    n_dims: usize,
    n_candidates: u64,
    word: u64,
) -> Result<Candidate, Refusal>
    ensures is { result ≡ optimize_acquisition_of m n_dims n_candidates word }
    ensures earliest { (found : Candidate) → result ≡ Ok found → Earliest m n_candidates word found }
{
    if !in_domain(&m, n_dims, word) {
        return Err(Refusal::OutOfDomain);
    }
    let best_x = halves(m.d);
    let start = Search {
        word,
        best_ei: f64::NEG_INFINITY,
        best_x,
    };
    let lent = Lent {
        x_train: &m.x_train,
        lengthscales: &m.lengthscales,
        cholesky: &m.cholesky,
        alpha: &m.alpha,
        f_best: m.f_best,
        n: m.n,
        d: m.d,
    };
    let best = advance(lent, start, n_candidates);
    let x = best.best_x;
    Ok(Candidate { x, next: best.word })
}
