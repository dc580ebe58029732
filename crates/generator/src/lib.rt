// The generator: one word, lent to a draw and moved on there. Each draw is that of the word, and a refusal leaves the
// word as it was.
#![tactic(auto)]

ghost use Rattle.std.specs.Prelude.{◌≡◌};
ghost use Rattle.rng_util.specs.Draws.{word_draw_of, unit_draw_of, whole_draw_of, word_after};
ghost use Rattle.common.specs.Random.{sample_random_of};
ghost use Rattle.search.specs.Search.{optimize_acquisition_of, word_after as word_after_search};

use distribution::{Distribution, ParamValue};
use gp_model::Model;
use refusal::Refusal;
use rng_util::Draw;
use search::Candidate;

#[derive(Drop)]
pub struct Generator {
    pub word: u64,
}

// Moved on by a draw at its word.
fn moved<T: Copy>(g: &mut Generator, draw: Result<Draw<T>, Refusal>) -> Result<Draw<T>, Refusal>
    ensures { (result ≡ draw) × (g.new.word ≡ word_after g.old.word draw) }
{
    let d = draw?;
    g.word = d.next;
    Ok(d)
}

// The next word.
pub fn next_word(g: &mut Generator) -> Result<Draw<u64>, Refusal>
    ensures { (result ≡ word_draw_of g.old.word) × (g.new.word ≡ word_after g.old.word result) }
{
    let draw = rng_util::next_word(g.word);
    moved(g, draw)
}

// A unit float.
pub fn unit_float(g: &mut Generator) -> Result<Draw<f64>, Refusal>
    ensures { (result ≡ unit_draw_of g.old.word) × (g.new.word ≡ word_after g.old.word result) }
{
    let draw = rng_util::unit_float(g.word);
    moved(g, draw)
}

// A whole number in a..=b.
pub fn whole_number(g: &mut Generator, a: i64, b: i64) -> Result<Draw<i64>, Refusal>
    ensures { (result ≡ whole_draw_of g.old.word a b) × (g.new.word ≡ word_after g.old.word result) }
{
    let draw = rng_util::whole_number(g.word, a, b);
    moved(g, draw)
}

// A random value of a distribution.
pub fn sample_random(g: &mut Generator, d: Distribution) -> Result<Draw<ParamValue>, Refusal>
    ensures { (result ≡ sample_random_of g.old.word d) × (g.new.word ≡ word_after g.old.word result) }
{
    let draw = common::sample_random(g.word, d);
    moved(g, draw)
}

// The point of highest expected improvement, of n_candidates points drawn.
// Kept: `n_dims` beside the model, as in the Rust: another count than the model's is 11.
pub fn optimize_acquisition(
    g: &mut Generator,
    m: Model,
    n_dims: usize,
    n_candidates: u64,
) -> Result<Candidate, Refusal>
    ensures { (result ≡ optimize_acquisition_of m n_dims n_candidates g.old.word) × (g.new.word ≡ word_after_search g.old.word result) }
{
    let found = search::optimize_acquisition(m, n_dims, n_candidates, g.word)?;
    g.word = found.next;
    Ok(found)
}
