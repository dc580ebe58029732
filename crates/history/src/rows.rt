// The recent rows of a history, each of some slots.
ghost use Rattle.std.specs.Prelude.{◌≡◌, ◌*◌, ◌≤◌, ◌<◌, length};
ghost use Rattle.std.specs.Float.{binary64};
ghost use Rattle.std.specs.Float.Ieee.{of_bits};
ghost use Rattle.history_rows.specs.Rows.{width_of, row_at, slot_at, objective_of};
ghost use Rattle.history_rows.specs.Slots.{below};
ghost use Rattle.history.specs.Training.{mapped_place, covers_of};

use slots::{ROW_HEAD, SLOT_WORDS};

// One row.
#[derive(Clone, Copy)]
pub(crate) struct Row<'a> {
    pub(crate) slots: usize,
    pub(crate) words: &'a [u64],
    ghost narrow: { slots ≤ 20 },
    ghost whole: { length words.now ≡ width_of slots },
}

impl<'a> Row<'a> {
    // The place of its slot for a dimension of that id.
    #[tactic(auto, using(history_rows::proofs::Border::place_with))]
    fn place(&self, id: Option<u64>) -> Option<usize>
        ensures { result ≡ below self.now.slots (mapped_place self.now.slots self.now.words.now id) }
    {
        history_rows::slot_place(self.slots, self.words, id?)
    }

    // Whether it has a slot for such a dimension.
    #[tactic(auto, unfolding(crate::specs::Training::covers_of))]
    pub(crate) fn covers(&self, id: Option<u64>) -> bool
        ensures { result ≡ covers_of self.now.slots self.now.words.now id }
    {
        self.place(id).is_some()
    }

    // Its slot for such a dimension.
    pub(crate) fn slot(&self, id: Option<u64>) -> &[u64]
        requires { mapped_place self.now.slots self.now.words.now id < self.now.slots }
        ensures { (result.now ≡ slot_at self.now.words.now (mapped_place self.now.slots self.now.words.now id)) × (length result.now ≡ 8) }
    {
        let s = self.place(id).unwrap();
        let at = ROW_HEAD + SLOT_WORDS * s;
        &self.words[at..at + SLOT_WORDS]
    }

    // Its objective.
    pub(crate) fn objective(&self) -> f64
        ensures { result ≡ of_bits binary64 (objective_of self.now.words.now) }
    {
        arith::float_of_word(self.words[2])
    }
}

// The words of count rows.
// Kept: with their count, by which the definitions go; a length over a width is a division in each.
#[derive(Clone, Copy)]
pub(crate) struct Rows<'a> {
    pub(crate) slots: usize,
    pub(crate) count: usize,
    pub(crate) words: &'a [u64],
    ghost narrow: { slots ≤ 20 },
    ghost few: { count ≤ 100 },
    ghost whole: { length words.now ≡ count * width_of slots },
}

impl<'a> Rows<'a> {
    // Row i.
    pub(crate) fn row(&self, i: usize) -> Row
        requires { i < self.now.count }
        ensures { (result.slots ≡ self.now.slots) × (result.words.now ≡ row_at self.now.slots self.now.words.now i) }
    {
        let width = ROW_HEAD + SLOT_WORDS * self.slots;
        let start = i * width;
        Row {
            slots: self.slots,
            words: &self.words[start..start + width],
        }
    }
}
