// A new trial's values.
ghost use Rattle.std.specs.Prelude.{◌≡◌, not, ◌&&◌, eqb, leb, ◌≤◌, ◌<◌};
ghost use Rattle.history.specs.Counts.{Counts};
ghost use Rattle.settings.specs.Settings.{settings_ok};
ghost use Rattle.proposal.specs.Accepts.{CandidateAccepted};
ghost use Rattle.proposal.specs.Proposal.{from_point, candidate_of, compute_candidate_of};

use crate::{points, walking};
use dimensions::Dimensions;
use distribution::ParamValue;
use history_view::View;
use refusal::Refusal;
use rng_util::Draw;
use settings::Settings;

// The continuous dimensions decoded from a point, the choices at random.
fn from_point(dims: Dimensions, p: Draw<[f64; 20]>) -> Result<Draw<[ParamValue; 20]>, Refusal>
    requires { (dims.count ≤ 20) × (p.drawn ≤ 200000) }
    ensures { result ≡ from_point dims.list dims.count p }
{
    let point = p.value;
    let v = walking::walk(Some(point), dims, p.next)?;
    let value = v.value;
    Ok(Draw {
        value,
        drawn: p.drawn + v.drawn,
        next: v.next,
    })
}

// Whether a model is asked for: the rows reach start-up and a dimension is continuous.
fn asks_model(reached: bool, d: usize) -> bool
    ensures { result ≡ (reached && leb 1 d) }
{
    reached && 1 <= d
}

// By a view that is not refused.
#[tactic(auto, using(crate::proofs::Numbers::point_few), unfolding(crate::specs::Proposal::candidate_of))]
fn candidate(
    s: Settings,
    dims: Dimensions,
    word: u64,
    v: View,
) -> Result<Draw<[ParamValue; 20]>, Refusal>
    requires { (dims.count ≤ 20) × (0 < word) × (s.n_candidates ≤ 10000) × Counts v.training }
    ensures { result ≡ candidate_of s dims.list dims.count word v }
{
    let t = v.training;
    if asks_model(v.reached, t.d) {
        let p = points::point_for(t, s.noise_variance, s.n_candidates, word);
        return from_point(dims, p);
    }
    walking::walk(None, dims, word)
}

// Whether settings are in range and a word is not 0.
fn takes(s: Settings, word: u64) -> bool
    ensures { result ≡ (settings_ok s && not (eqb word 0)) }
{
    settings::in_range(s) && word != 0
}

// The values of a new trial at a generator word: from a model of the history where its rows reach start-up and a
// dimension is continuous, else at random.
#[tactic(auto, using(crate::proofs::Numbers::candidate_asks), unfolding(crate::specs::Proposal::compute_candidate_of))]
pub fn compute_candidate(
    s: Settings,
    dims: Dimensions,
    word: u64,
    h: &[u64],
) -> Result<Draw<[ParamValue; 20]>, Refusal>
    ensures { result ≡ compute_candidate_of s dims.list dims.count word h.now }
{
    if !takes(s, word) {
        return Err(Refusal::OutOfDomain);
    }
    let view = history_view::view_of(s.slots as usize, s.n_startup_trials, dims, h)?;
    candidate(s, dims, word, view)
}

// What passes the tests of a new trial has values: a theorem, as a contract.
#[tactic(auto, using(crate::proofs::Accepted::candidate_accepted))]
pub fn candidate_accepted()
    ensures { CandidateAccepted }
{}
