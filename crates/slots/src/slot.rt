// One slot: eight words. A word past the end is 0.
ghost use Rattle.std.specs.Prelude.{◌≡◌, get_or, eqb};
ghost use Rattle.arith.specs.Lists.{every};
ghost use Rattle.slots.specs.Slot.{present, slot_read, taken_word, taken_read, slot_ok, same_id, reads_equal, value_read, has_id};

use distribution::{Distribution, ParamValue, taken_value, value_of_word};
use distribution_words::Words;

// Word k, or 0 past the end.
pub fn word(words: &[u64], k: usize) -> u64
    ensures { result ≡ get_or words.now k 0 }
{
    words.get(k).copied().unwrap_or(0)
}

pub fn is_present(slot: &[u64]) -> bool
    ensures { result ≡ present slot.now }
{
    word(slot, 1) != 0
}

// What its six words of a distribution say.
#[tactic(auto, unfolding(crate::specs::Slot::slot_read))]
pub fn read(slot: &[u64]) -> Option<Distribution>
    ensures { result ≡ slot_read slot.now }
{
    distribution_words::distribution_of(Words {
        kind: word(slot, 1),
        low: word(slot, 2),
        high: word(slot, 3),
        log: word(slot, 4),
        stepped: word(slot, 5),
        step: word(slot, 6),
    })
}

// Whether it reads as a distribution whose Taken rule its value obeys.
#[tactic(auto, using(crate::proofs::WellFormed::read_formed))]
fn taken_read(slot: &[u64]) -> bool
    ensures { result ≡ taken_read (slot_read slot.now) (taken_word slot.now) }
{
    match read(slot) {
        Some(d) => matches!(taken_value(d, word(slot, 7)), Ok(Some(_))),
        None => false,
    }
}

// Its taken value, where it reads as a distribution.
#[tactic(auto, using(crate::proofs::WellFormed::read_formed))]
pub fn value(slot: &[u64]) -> Option<ParamValue>
    ensures { result ≡ value_read (slot_read slot.now) (taken_word slot.now) }
{
    let d = read(slot)?;
    value_of_word(d, word(slot, 7)).ok()
}

fn all_zero(slot: &[u64]) -> bool
    ensures { result ≡ every 8 (λ k. eqb (get_or slot.now k 0) 0) }
{
    (0..8).all(|k| word(slot, k) == 0)
}

// Whether it is absent and all zero, or well-formed with a value that was taken.
#[tactic(auto, unfolding(crate::specs::Slot::slot_ok))]
pub fn slot_ok(slot: &[u64]) -> bool
    ensures { result ≡ slot_ok slot.now }
{
    if is_present(slot) {
        taken_read(slot)
    } else {
        all_zero(slot)
    }
}

// Whether it is present under that id.
pub fn has_id(id: u64, slot: &[u64]) -> bool
    ensures { result ≡ has_id id slot.now }
{
    is_present(slot) && word(slot, 0) == id
}

// Whether two slots are present under one id.
pub fn same_id(a: &[u64], b: &[u64]) -> bool
    ensures { result ≡ same_id a.now b.now }
{
    is_present(a) && is_present(b) && word(a, 0) == word(b, 0)
}

// Whether two slots read as equal distributions.
#[tactic(auto, using(distribution::proofs::Equals::same))]
pub fn reads_equal(a: &[u64], b: &[u64]) -> bool
    ensures { result ≡ reads_equal (slot_read a.now) (slot_read b.now) }
{
    match (read(a), read(b)) {
        (Some(d), Some(e)) => d == e,
        _ => false,
    }
}
