// The tests 3 to 7: each over all recent rows before the next.
ghost use Rattle.std.specs.Prelude.{◌≡◌, ◌*◌, ◌≤◌, length};
ghost use Rattle.std.specs.List.{list_all, list_any, find};
ghost use Rattle.std.specs.Option.{option_map};
ghost use Rattle.std.specs.Slice.Iter.{chunks_exact_rest, chunks_exact_size};
ghost use Rattle.arith.specs.Chunks.{chunks_of};
ghost use Rattle.history_rows.specs.Chunks.{slots_in};
ghost use Rattle.history_rows.specs.First.{like_first};
ghost use Rattle.history_rows.specs.Recent.{recent_part};
ghost use Rattle.history_rows.specs.Rows.{width_of, row_count, older_of, recent_of};
ghost use Rattle.history_rows.specs.Tests.{first_of, recent_tests, check_of};
ghost use Rattle.slots.specs.Slot.{has_id};

use crate::{RecentRows, rows};
use refusal::Refusal;
use slots::{ROW_HEAD, SLOT_WORDS};
use std::slice::ChunksExact;

// The words of whole rows, each of that many slots.
#[derive(Drop)]
struct Recent<'a> {
    slots: usize,
    words: &'a [u64],
    ghost few: { slots ≤ 20 },
    ghost whole: { length words.now ≡ row_count slots words.now * width_of slots },
}

impl Recent<'_> {
    // The rows in order.
    fn rows(&self) -> ChunksExact<'_, u64>
        ensures rest { chunks_exact_rest result ≡ self.now.words.now }
        ensures size { chunks_exact_size result ≡ width_of self.now.slots }
    {
        self.words.chunks_exact(ROW_HEAD + SLOT_WORDS * self.slots)
    }

    // The first row with a slot of that id.
    fn row_with(&self, id: u64) -> Option<&[u64]>
        ensures { let rows = chunks_of (width_of self.now.slots) self.now.words.now in
            option_map (λ r. r.now) result ≡ find (λ row. list_any (has_id id) (slots_in row)) rows }
    {
        self.rows().find(|row| rows::has_slot(row, id))
    }

    // Whether a slot is absent or has the distribution that its id has first.
    fn like_first(&self, slot: &[u64]) -> bool
        ensures { let n = self.now.slots in
            let r = self.now.words.now in
            result ≡ like_first n (row_count n r) r slot.now }
    {
        if !slots::is_present(slot) {
            return true;
        }
        let id = slots::word(slot, 0);
        // Kept: two matches; as and_then and is_some_and they were tried, and the two closures' goals stayed open.
        match self.row_with(id) {
            Some(row) => match rows::slot_with(row, id) {
                Some(first) => slots::reads_equal(first, slot),
                None => false,
            },
            None => false,
        }
    }

    // Whether every slot of a row is like that.
    fn row_like_first(&self, row: &[u64]) -> bool
        ensures { let n = self.now.slots in
            let r = self.now.words.now in
            result ≡ list_all (like_first n (row_count n r) r) (slots_in row.now) }
    {
        rows::each_slot(row).all(|slot| self.like_first(slot))
    }

    // The first test that fails: states and objectives, slots, ids, the distributions of ids.
    fn check(&self) -> Result<(), Refusal>
        ensures { let n = self.now.slots in
            let r = self.now.words.now in
            result ≡ first_of (recent_tests n (row_count n r) r) }
    {
        if !self.rows().all(|row| rows::row_ok(row)) {
            return Err(Refusal::Objective);
        }
        if !self.rows().all(|row| rows::slots_ok(row)) {
            return Err(Refusal::Slot);
        }
        if !self.rows().all(|row| rows::ids_once(row)) {
            return Err(Refusal::RepeatedId);
        }
        if !self.rows().all(|row| self.row_like_first(row)) {
            return Err(Refusal::UnequalId);
        }
        Ok(())
    }
}

// How many older words a history has.
#[tactic(auto, using(crate::proofs::Recent::older_saturates))]
fn older(n: usize, h: &[u64]) -> usize
    requires { n ≤ 20 }
    ensures { result ≡ older_of n h.now }
{
    let w = ROW_HEAD + SLOT_WORDS * n;
    (h.len() / w).saturating_sub(100) * w
}

// How many recent rows it has.
#[tactic(auto, using(crate::proofs::Recent::older_inside))]
fn recent_rows(n: usize, h: &[u64]) -> usize
    requires { n ≤ 20 }
    ensures { result ≡ row_count n (recent_of n h.now) }
{
    let start = older(n, h);
    (h.len() - start) / (ROW_HEAD + SLOT_WORDS * n)
}

// Both, for slots up to 20; more are refused, and have none.
// Kept: zeros for more, since its callers have tested the history, and would unwrap.
#[tactic(auto, using(crate::proofs::Recent::older_inside), unfolding(crate::specs::Recent::recent_part))]
pub fn recent_part(n: usize, h: &[u64]) -> RecentRows
    ensures is { result ≡ recent_part n h.now }
    ensures inside { result.start ≤ length h.now }
{
    if n > 20 {
        return RecentRows { start: 0, rows: 0 };
    }
    let start = older(n, h);
    let rows = recent_rows(n, h);
    RecentRows { start, rows }
}

// A history of that many slots, 1 to 20: whole rows, and then the tests of its recent rows.
#[tactic(auto, using(crate::proofs::Recent::older_inside))]
pub fn check(slots: usize, h: &[u64]) -> Result<(), Refusal>
    ensures { result ≡ check_of slots h.now }
{
    if slots < 1 || slots > 20 {
        return Err(Refusal::OutOfDomain);
    }
    if h.len() % (ROW_HEAD + SLOT_WORDS * slots) != 0 {
        return Err(Refusal::BrokenRows);
    }
    let start = older(slots, h);
    let recent = Recent {
        slots,
        words: &h[start..],
    };
    recent.check()
}
