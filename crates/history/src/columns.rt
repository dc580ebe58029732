// The continuous dimensions, the model's columns.
ghost use Rattle.std.specs.Prelude.{◌≡◌, true, [], None, ℕ, ◌≤◌, ◌<◌, length, get_or};
ghost use Rattle.dimensions.specs.Dimensions.{columns_of};
ghost use Rattle.history.specs.Places.{places_in, with_place};
ghost use Rattle.history.specs.Training.{mapped_place, trains_of, entry_of, column_of};

use crate::Places;
use crate::rows::Row;
use dimensions::{DimensionInfo, Dimensions};
use refusal::Refusal;

impl Places {
    // No place.
    pub(crate) fn new() -> Self
        ensures { result ≡ places_in [] }
    {
        Self {
            count: 0,
            at: [0; 100],
        }
    }

    // One more place.
    pub(crate) fn push(&mut self, i: usize)
        requires { self.old.count < 100 }
        ensures { self.new ≡ with_place self.old.at self.old.count i true }
    {
        self.at[self.count] = i;
        self.count += 1;
    }
}

// The continuous ones of these dimensions.
pub(crate) fn continuous(dims: &Dimensions) -> Places
    requires { dims.now.count ≤ 20 }
    ensures { result ≡ places_in (columns_of dims.now.list dims.now.count) }
{
    let mut places = Places::new();
    for j in 0..dims.count {
        let dim = dims.list[j];
        if dimensions::is_continuous(dim.distribution) {
            places.push(j);
        }
    }
    places
}

// A slot's value under a dimension.
#[tactic(auto, unfolding(crate::specs::Training::entry_of))]
fn entry(d: DimensionInfo, slot: &[u64]) -> f64
    requires { length slot.now ≡ 8 }
    ensures { result ≡ entry_of d slot.now }
{
    let internal = match slots::value(slot) {
        Some(v) => encoding::to_internal(v, d.distribution),
        None => Err(Refusal::Slot),
    };
    scaling::to_normalized(arith::value(internal), d.lo, d.hi)
}

// Which dimensions the columns are, with all dimensions and their ids.
#[derive(Clone, Copy)]
pub(crate) struct Columns<'a> {
    pub(crate) dims: &'a [DimensionInfo; 20],
    pub(crate) mapping: &'a [Option<u64>; 20],
    pub(crate) places: &'a [usize],
    ghost few: { length places.now ≤ 20 },
    ghost known: { (c : ℕ) → c < length places.now → get_or places.now c 0 < 20 },
}

impl<'a> Columns<'a> {
    // Whether a row has a slot for each of them.
    pub(crate) fn trains(&self, row: &Row) -> bool
        ensures { result ≡ trains_of row.now.slots self.now.mapping.now self.now.places.now row.now.words.now }
    {
        self.places.iter().all(|j| row.covers(self.mapping[*j]))
    }

    // A row's value for dimension j.
    #[tactic(auto, unfolding(crate::specs::Training::column_of))]
    pub(crate) fn value(&self, row: &Row, j: usize) -> f64
        requires { (j < 20) × (mapped_place row.now.slots row.now.words.now (get_or self.now.mapping.now j None) < row.now.slots) }
        ensures { result ≡ column_of row.now.slots self.now.dims.now self.now.mapping.now row.now.words.now j }
    {
        entry(self.dims[j], row.slot(self.mapping[j]))
    }
}
