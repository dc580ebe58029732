// What is promised of every run of the calls.
ghost use Rattle.sampler_laws.specs.Laws.{EqualRuns, WordsDrawn, WellFormed, RefusalsTold, CallsServed, NothingRefused, PlacesCounted};
ghost use Rattle.sampler_laws.specs.Received.{Received};

// Two runs whose histories agree answer the same and end in the same sampler, and every new trial with a model stores the best point drawn for it.
pub fn equal_runs()
    ensures { EqualRuns }
{}

// An answer says how often the generator moved, and document 01's counts say how often that is.
#[tactic(auto, using(crate::proofs::WordCounts::words_drawn))]
pub fn words_drawn()
    ensures { WordsDrawn }
{}

// A sampler as made is well-formed, and so is one that a call hands back: no call of a run meets 11.
#[tactic(auto, using(crate::proofs::WellFormed::well_formed))]
pub fn well_formed()
    ensures { WellFormed }
{}

// A call is refused with the number of its first cause in document 01's table, and accepted where none holds.
#[tactic(auto, using(crate::proofs::Causes::refusals_told))]
pub fn refusals_told()
    ensures { RefusalsTold }
{}

// What an accepted call answers is what is stored, or drawn from the distribution asked, and it leaves all else as it was.
#[tactic(auto, using(crate::proofs::Served::calls_served))]
pub fn calls_served()
    ensures { CallsServed }
{}

// Inside a call with a history that is not refused, a fit is refused only with 12 or 13, and nothing else is.
#[tactic(auto, using(crate::proofs::Nothing::nothing_refused))]
pub fn nothing_refused()
    ensures { NothingRefused }
{}

// An accepted new trial takes one place more, an accepted close one less; 9 says that 32 are taken and the trial has none.
#[tactic(auto, using(crate::proofs::PlaceCounts::places_counted))]
pub fn places_counted()
    ensures { PlacesCounted }
{}

// Along every run, each value that a call answers is drawn from or decoded for the distribution that it is served for,
// and in its range: a float lies between that distribution's low and high.
#[tactic(auto, using(crate::proofs::Received::received))]
pub fn received()
    ensures { Received }
{}
