// The progress places.
ghost use Rattle.std.specs.Prelude.{◌≡◌};
ghost use Rattle.sampler_state.specs.State.{holds, index_below, trial_place, free_place, spot_for, found_for, taken_count};

use crate::{Found, Place};

// Whether a place is taken by that trial.
pub(crate) fn is_held_by(place: &Option<Place>, trial: u64) -> bool
    ensures { result ≡ holds trial place.now }
{
    matches!(place, Some(held) if held.trial == trial)
}

// The index of the place of a trial.
pub fn trial_place(places: &[Option<Place>; 32], trial: u64) -> Option<usize>
    ensures { result ≡ index_below 32 (trial_place places.now trial) }
{
    places.iter().position(|place| is_held_by(place, trial))
}

// The index of the first free place.
fn free_place(places: &[Option<Place>; 32]) -> Option<usize>
    ensures { result ≡ index_below 32 (free_place places.now) }
{
    places.iter().position(|place| place.is_none())
}

// Where the place of a trial is written: its own, else the first free one.
#[tactic(auto, using(crate::proofs::Indices::spot_own, crate::proofs::Indices::spot_free))]
fn spot_for(places: &[Option<Place>; 32], trial: u64) -> Option<usize>
    ensures { result ≡ index_below 32 (spot_for places.now trial) }
{
    match trial_place(places, trial) {
        Some(own) => Some(own),
        None => free_place(places),
    }
}

// What the place of a trial holds and where it is written, unless there is no room.
#[tactic(auto, using(crate::proofs::Indices::found_at, crate::proofs::Indices::found_nowhere))]
pub fn find(places: &[Option<Place>; 32], trial: u64) -> Option<Found>
    ensures { result ≡ found_for places.now trial }
{
    let spot = spot_for(places, trial)?;
    let place = places[spot];
    Some(Found { place, spot })
}

// How many places are taken.
pub fn taken_count(places: &[Option<Place>; 32]) -> usize
    ensures { result ≡ taken_count places.now }
{
    places.iter().filter(|place| place.is_some()).count()
}
