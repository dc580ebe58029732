// The mapping from the first recent row of a history.
ghost use Rattle.std.specs.Prelude.{◌≡◌, ◌*◌, ◌≤◌, length, Some, None};
ghost use Rattle.arith.specs.Lists.{filled};
ghost use Rattle.param_mapping.specs.Mapping.{first_entry, entries_of, is_mapped, consumed_of, matches_of, mapped_of, asked_of, mapping_of};
ghost use Rattle.param_mapping.specs.MappingParts.{beats_of, better_of};
ghost use Rattle.history_rows.specs.Rows.{width_of, row_at};
ghost use Rattle.slots.specs.Slot.{slot_read, reads_equal};

use dimensions::Dimensions;
use distribution::Distribution;
use refusal::Refusal;
use slots::{ROW_HEAD, SLOT_WORDS};

// Whether that is the id of a dimension.
fn is_mapped(id: u64, m: Option<u64>) -> bool
    ensures { result ≡ is_mapped id m }
{
    m == Some(id)
}

// Whether one of the dimensions before this one consumed the id.
#[tactic(auto, unfolding(crate::specs::Mapping::consumed_of))]
fn consumed(before: &[Option<u64>], id: u64) -> bool
    ensures { result ≡ consumed_of before.now (length before.now) id }
{
    before.iter().any(|m| is_mapped(id, *m))
}

// Whether a slot reads as a distribution equal to this one.
#[tactic(auto, using(distribution::proofs::Equals::same))]
fn reads_as(d: Distribution, slot: &[u64]) -> bool
    ensures { result ≡ reads_equal (Some d) (slot_read slot.now) }
{
    match slots::read(slot) {
        Some(e) => d == e,
        None => false,
    }
}

// Whether the dimension after these may consume the slot.
#[tactic(auto, unfolding(crate::specs::Mapping::matches_of))]
fn matches(before: &[Option<u64>], d: Distribution, slot: &[u64]) -> bool
    requires { length slot.now ≡ 8 }
    ensures { result ≡ matches_of before.now (length before.now) d slot.now }
{
    reads_as(d, slot) && !consumed(before, slot[0])
}

// Whether an id comes before that of the entry found so far.
fn beats(id: u64, best: Option<u64>) -> bool
    ensures { result ≡ beats_of id best }
{
    best.is_none_or(|other| id < other)
}

// The better of a slot and the entry found so far.
fn better(before: &[Option<u64>], d: Distribution, slot: &[u64], best: Option<u64>) -> Option<u64>
    requires { length slot.now ≡ 8 }
    ensures { result ≡ better_of (matches_of before.now (length before.now) d) slot.now best }
{
    let id = slot[0];
    if slots::is_present(slot) && matches(before, d, slot) && beats(id, best) {
        return Some(id);
    }
    best
}

// The row that gives the dimensions their ids.
#[derive(Clone, Copy)]
struct FirstRow<'a> {
    slots: usize,
    words: &'a [u64],
    ghost whole: { (slots ≤ 20) × (length words.now ≡ width_of slots) },
}

impl FirstRow<'_> {
    // The first entry by id that the dimension after these may consume.
    fn first_entry(&self, before: &[Option<u64>], d: Distribution) -> Option<u64>
        ensures { result ≡ first_entry (matches_of before.now (length before.now) d) (entries_of self.now.words.now self.now.slots) }
    {
        let mut best = None;
        for s in 0..self.slots {
            let at = ROW_HEAD + SLOT_WORDS * s;
            best = better(before, d, &self.words[at..at + SLOT_WORDS], best);
        }
        best
    }

    // The ids of the dimensions in it.
    fn mapped(&self, dims: &Dimensions) -> [Option<u64>; 20]
        requires { dims.now.count ≤ 20 }
        ensures { result ≡ filled None 20 (mapped_of self.now.slots dims.now.list dims.now.count self.now.words.now) }
    {
        let mut out = [None; 20];
        for j in 0..dims.count {
            let dim = dims.list[j];
            out[j] = self.first_entry(&out[..j], dim.distribution);
        }
        out
    }
}

// The mapping from the first of m recent rows; without one nothing is found.
fn recent_mapping(n: usize, dims: &Dimensions, m: usize, r: &[u64]) -> [Option<u64>; 20]
    requires { (n ≤ 20) × (dims.now.count ≤ 20) × (length r.now ≡ m * width_of n) }
    ensures { result ≡ filled None 20 (mapped_of n dims.now.list dims.now.count (row_at n r.now 0)) }
{
    if m == 0 {
        return [None; 20];
    }
    let first = FirstRow {
        slots: n,
        words: &r[..ROW_HEAD + SLOT_WORDS * n],
    };
    first.mapped(dims)
}

// The dimensions, and then the history's tests.
#[tactic(auto, unfolding(crate::specs::Mapping::asked_of))]
fn check(slots: usize, dims: Dimensions, h: &[u64]) -> Result<(), Refusal>
    ensures { result ≡ asked_of slots dims.list dims.count h.now }
{
    if !dimensions::dimensions_ok(dims) {
        return Err(Refusal::OutOfDomain);
    }
    history_rows::check(slots, h)
}

// The ids of the dimensions, from the first recent row of a history. A dimension may have none, and what lies past them
// has none.
pub fn establish_param_mapping(
    slots: usize,
    dims: Dimensions,
    h: &[u64],
) -> Result<[Option<u64>; 20], Refusal>
    ensures { result ≡ mapping_of slots dims.list dims.count h.now }
{
    check(slots, dims, h)?;
    let recent = history_rows::recent_part(slots, h);
    let start = recent.start;
    let m = recent.rows;
    let ids = recent_mapping(slots, &dims, m, &h[start..]);
    Ok(ids)
}
