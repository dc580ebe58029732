// What the model learns from a history: the training data of the recent rows. The names are the Rust's.
#![tactic(auto)]

pub mod building;
pub mod columns;
mod rows;

pub use building::build_training_data;

// Places, as many as the count says, in order: of the continuous dimensions, or of the rows that train.
// Kept: an array with its count, since memory is fixed; what reads them takes a slice.
#[derive(Drop)]
pub struct Places {
    pub count: usize,
    pub at: [usize; 100],
}

// The training data: n rows of d columns, row after row, and n values.
// Kept: arrays with their counts, since memory is fixed; what reads them takes slices.
#[derive(Drop)]
pub struct Training {
    pub n: usize,
    pub d: usize,
    pub x: [f64; 2000],
    pub y: [f64; 100],
}
