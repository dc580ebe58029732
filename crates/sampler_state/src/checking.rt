// Whether a sampler is well-formed.
ghost use Rattle.std.specs.Prelude.{◌≡◌, not, ◌&&◌, ◌||◌, ◌≤◌, eqb, leb, length, take};
ghost use Rattle.std.specs.List.{list_all, zip};
ghost use Rattle.settings.specs.Settings.{settings_ok};
ghost use Rattle.distribution.specs.Range.{in_range};
ghost use Rattle.sampler_state.specs.State.{same_trial, trials_once, progress_ok, place_ok, sampler_ok};

use crate::{Place, Sampler, places};
use dimensions::{DimensionInfo, Dimensions};
use distribution::{Distribution, ParamValue};

// Whether a value is one that a place stores for the distribution: in its range.
fn value_ok(d: Distribution, value: ParamValue) -> bool
    ensures { result ≡ in_range d value }
{
    match (d, value) {
        (Distribution::Float(f), ParamValue::Float(x)) => f.low <= x && x <= f.high,
        (Distribution::Int(i), ParamValue::Int(z)) => i.low <= z && z <= i.high,
        (Distribution::Categorical(c), ParamValue::Categorical(k)) => k < c.n_choices,
        _ => false,
    }
}

// What places are judged by: whether the sampler is active, and its dimensions.
#[derive(Drop)]
struct Judge<'a> {
    active: bool,
    dimensions: &'a [DimensionInfo],
    ghost few: { length dimensions.now ≤ 20 },
}

impl Judge<'_> {
    // Whether there is a value in range for each dimension.
    fn values_ok(&self, values: &[ParamValue; 20]) -> bool
        ensures { result ≡ list_all (λ p. in_range p.0.distribution p.1) (zip self.now.dimensions.now values.now) }
    {
        self.dimensions.iter().zip(values).all(|(dimension, value)| value_ok(
            dimension.distribution,
            *value,
        ))
    }

    // Whether a place's next dimension is from 1 to the count, and each of its values in range.
    fn progress_ok(&self, place: &Place) -> bool
        ensures { result ≡ progress_ok self.now.dimensions.now (length self.now.dimensions.now) place.now }
    {
        (1..=self.dimensions.len()).contains(&place.next_dim) && self.values_ok(&place.values)
    }

    // Whether a place is free, or a place of an active sampler of these dimensions.
    #[tactic(auto, unfolding(crate::specs::State::place_ok))]
    fn place_ok(&self, place: &Option<Place>) -> bool
        ensures { result ≡ place_ok self.now.active self.now.dimensions.now (length self.now.dimensions.now) place.now }
    {
        match place {
            Some(held) => self.active && self.progress_ok(held),
            None => true,
        }
    }

    // Whether each place is.
    fn places_ok(&self, places: &[Option<Place>; 32]) -> bool
        ensures { let dims = self.now.dimensions.now in
            result ≡ list_all (place_ok self.now.active dims (length dims)) places.now }
    {
        places.iter().all(|place| self.place_ok(place))
    }
}

// Whether a place is taken by the trial of another.
fn same_trial(other: &Option<Place>, place: &Option<Place>) -> bool
    ensures { result ≡ same_trial other.now place.now }
{
    matches!(other, Some(held) if places::is_held_by(place, held.trial))
}

// Whether none of the places before a place is taken by its trial.
fn is_new(before: &[Option<Place>], place: &Option<Place>) -> bool
    ensures { result ≡ list_all (λ b. not (same_trial b place.now)) before.now }
{
    before.iter().all(|other| !same_trial(other, place))
}

// Whether no trial takes two places.
fn trials_once(places: &[Option<Place>; 32]) -> bool
    ensures { result ≡ trials_once places.now }
{
    for (a, place) in places.iter().enumerate() {
        if !is_new(&places[..a], place) {
            return false;
        }
    }
    true
}

// Whether its settings are in range, its word is not 0, and there is a dimension when it is active.
fn start_ok(s: &Sampler) -> bool
    ensures { result ≡ (settings_ok s.now.settings && not (eqb s.now.word 0) && (not s.now.active || leb 1 s.now.dimensions.count)) }
{
    settings::in_range(s.settings) && s.word != 0 && (!s.active || 1 <= s.dimensions.count)
}

// The dimensions themselves.
fn listed(dims: &Dimensions) -> &[DimensionInfo]
    requires { dims.now.count ≤ 20 }
    ensures { (result.now ≡ take dims.now.count dims.now.list) × (length result.now ≡ dims.now.count) }
{
    &dims.list[..dims.count]
}

// Whether a sampler is well-formed.
#[tactic(auto, using(crate::proofs::Judged::dimensions_few, crate::proofs::Judged::sampler_places), unfolding(crate::specs::State::sampler_ok))]
pub fn sampler_ok(s: &Sampler) -> bool
    ensures { result ≡ sampler_ok s.now }
{
    if !start_ok(s) || !dimensions::dimensions_ok(s.dimensions) {
        return false;
    }
    let dimensions = listed(&s.dimensions);
    let judge = Judge {
        active: s.active,
        dimensions,
    };
    judge.places_ok(&s.places) && trials_once(&s.places)
}
