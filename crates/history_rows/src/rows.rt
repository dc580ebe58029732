// One row: three words, and then eight for each slot.
ghost use Rattle.std.specs.Prelude.{◌≡◌, not, drop, take};
ghost use Rattle.std.specs.List.{list_all, list_any, find, position, enumerate_from};
ghost use Rattle.std.specs.Option.{option_map};
ghost use Rattle.std.specs.Slice.Iter.{chunks_exact_rest, chunks_exact_size};
ghost use Rattle.history_rows.specs.Chunks.{slots_in};
ghost use Rattle.history_rows.specs.Tests.{row_ok};
ghost use Rattle.history_rows.specs.Slots.{slot_place};
ghost use Rattle.slots.specs.Slot.{slot_ok, has_id, same_id};

use slots::{ROW_HEAD, SLOT_WORDS};
use std::slice::ChunksExact;

// Its slots in order.
pub(crate) fn each_slot(row: &[u64]) -> ChunksExact<'_, u64>
    ensures rest { chunks_exact_rest result ≡ drop 3 row.now }
    ensures size { chunks_exact_size result ≡ 8 }
{
    row.get(ROW_HEAD..).unwrap_or(&[]).chunks_exact(SLOT_WORDS)
}

// Whether its state and its objective are good.
pub(crate) fn row_ok(row: &[u64]) -> bool
    ensures { result ≡ row_ok row.now }
{
    let state = slots::word(row, 1);
    let objective = arith::float_of_word(slots::word(row, 2));
    state <= 3 && (-4503599627370496.0 <= objective && objective <= 4503599627370496.0)
}

// Whether every slot is good.
pub(crate) fn slots_ok(row: &[u64]) -> bool
    ensures { result ≡ list_all slot_ok (slots_in row.now) }
{
    each_slot(row).all(|slot| slots::slot_ok(slot))
}

// Whether none of the first a slots has the id of a slot.
fn id_is_new(row: &[u64], a: usize, slot: &[u64]) -> bool
    ensures { result ≡ list_all (λ b. not (same_id b slot.now)) (take a (slots_in row.now)) }
{
    each_slot(row)
        .take(a)
        .all(|other| !slots::same_id(other, slot))
}

// Whether no id stands twice.
pub(crate) fn ids_once(row: &[u64]) -> bool
    ensures { result ≡ list_all (λ p. list_all (λ b. not (same_id b p.1)) (take p.0 (slots_in row.now))) (enumerate_from 0 (slots_in row.now)) }
{
    each_slot(row)
        .enumerate()
        .all(|(a, slot)| id_is_new(row, a, slot))
}

// Whether a slot has that id.
pub(crate) fn has_slot(row: &[u64], id: u64) -> bool
    ensures { result ≡ list_any (has_id id) (slots_in row.now) }
{
    each_slot(row).any(|slot| slots::has_id(id, slot))
}

// The first slot with that id.
pub(crate) fn slot_with(row: &[u64], id: u64) -> Option<&[u64]>
    ensures { option_map (λ s. s.now) result ≡ find (has_id id) (slots_in row.now) }
{
    each_slot(row).find(|slot| slots::has_id(id, slot))
}

// The index of the slot with that id.
fn index_of(row: &[u64], id: u64) -> Option<usize>
    ensures { result ≡ position (has_id id) (slots_in row.now) }
{
    each_slot(row).position(|slot| slots::has_id(id, slot))
}

// The place of the slot with that id. Words that are no row of n slots, n at most 20, have none.
#[tactic(auto, using(crate::proofs::Lookup::slot_place_is), unfolding(crate::specs::Slots::slot_place))]
pub fn slot_place(n: usize, row: &[u64], id: u64) -> Option<usize>
    ensures { result ≡ slot_place n row.now id }
{
    if n > 20 || row.len() != ROW_HEAD + SLOT_WORDS * n {
        return None;
    }
    index_of(row, id)
}
