// What gp.rs does with a model: the search for the next point.
#![tactic(auto)]

ghost use Rattle.std.specs.Prelude.{◌*◌, ◌≤◌, length};

pub mod eights;
pub mod searching;

pub use searching::{draw_point, optimize_acquisition};

// A point, and the generator's word after the draws.
// Kept: beside Draw, which has the words drawn: candidates times columns may be over u64::MAX.
#[derive(Drop)]
pub struct Candidate {
    pub x: [f64; 20],
    pub next: u64,
}

// A search under way: the generator's word, the best score so far and its point.
#[derive(Drop)]
pub struct Search {
    pub word: u64,
    pub best_ei: f64,
    pub best_x: [f64; 20],
}

// A model lent part by part, whose counts fit.
// Kept: beside Model, since through one `&Model` the counts are read anew in each turn, measured 3 % slower; with its
// counts, since the definition reads the whole of the model's arrays at them.
#[derive(Clone, Copy)]
pub(crate) struct Lent<'a> {
    pub x_train: &'a [f64],
    pub lengthscales: &'a [f64],
    pub cholesky: &'a [f64; 5050],
    pub alpha: &'a [f64],
    pub f_best: f64,
    pub n: usize,
    pub d: usize,
    ghost fits: { (n ≤ 100) × (d ≤ 20) × (n * d ≤ length x_train.now) × (d ≤ length lengthscales.now) × (n ≤ length alpha.now) },
}

// The words before eight points, and the word after them.
#[derive(Drop)]
pub struct Starts {
    pub words: [u64; 8],
    pub next: u64,
}

// One coordinate of eight points, and the generators' words after it.
#[derive(Drop)]
pub struct Column {
    pub values: [f64; 8],
    pub next: [u64; 8],
}
