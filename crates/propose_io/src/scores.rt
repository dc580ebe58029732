// The points drawn for a new trial with a model: a line for each, with its expected improvement and whether the trial
// stored it.
ghost use Rattle.std.specs.Prelude.{◌<◌, ◌≤◌, length};

use gp_model::Model;
use history::Training;
use refusal::Refusal;
use sampler_state::Sampler;
use search::Candidate;
use std::ops::ControlFlow;

// Writes these words as a line.
fn write_words(rt: HostRuntime, words: &[u64]) -> ControlFlow<()>
    requires { (0 < length words.now) × (length words.now ≤ 24) }
{
    let mut line = [b' '; 408];
    for (i, word) in words.iter().enumerate() {
        let start = 17 * i;
        line[start..start + 17].copy_from_slice(&propose_lines::printed(*word, b' '));
    }
    let end = 17 * words.len();
    line[end - 1] = b'\n';
    crate::write(rt, &line[..end])
}

// The coordinates of a point as words.
fn point_words(x: &[f64; 20]) -> [u64; 20] {
    std::array::from_fn(|i| arith::word_of_float(x[i]))
}

// The words of a point's line.
fn line_words(head: [u64; 4], point: [u64; 20]) -> [u64; 24] {
    let mut words = [0; 24];
    words[..4].copy_from_slice(&head);
    words[4..].copy_from_slice(&point);
    words
}

// The expected improvement at a point.
fn score(m: &Model, x: &[f64]) -> Result<f64, Refusal> {
    let p = prediction::predict(*m, x)?;
    Ok(acquisition::expected_improvement(p.mean, p.std, m.f_best))
}

// Every point that the search draws from this word on, of d columns. The one stored is the first that equals the
// search's, word for word.
fn write_points(
    rt: HostRuntime,
    trial: u64,
    m: &Model,
    // Kept: beside the model, which does not say that its columns are at most 20.
    d: usize,
    candidates: u64,
    word: u64,
) -> Result<ControlFlow<()>, Refusal>
    requires { d ≤ 20 }
{
    let best = point_words(&search::optimize_acquisition(*m, d, candidates, word)?.x);
    let mut found = false;
    let mut word = word;
    for i in 0..candidates {
        let Candidate { x, next } = search::draw_point(d, word)?;
        let point = point_words(&x);
        let stored = !found && point == best;
        let score = arith::word_of_float(score(m, &x[..d])?);
        let words = line_words([trial, i, score, u64::from(stored)], point);
        if write_words(rt, &words[..4 + d]).is_break() {
            return Ok(ControlFlow::Break(()));
        }
        found = found || stored;
        word = next;
    }
    Ok(ControlFlow::Continue(()))
}

// The model of these data.
fn fit(t: &Training, noise_variance: f64) -> Result<Model, Refusal>
    requires { (t.now.n ≤ 100) × (t.now.d ≤ 20) }
{
    gp_model::fit_gp(&t.x[..t.n * t.d], &t.y[..t.n], t.d, noise_variance)
}

// The points of a new trial, where this sampler has a model for it. (No training data have over 100 rows or 20 columns,
// and no search by a fitted model is refused.)
fn write_trial(rt: HostRuntime, s: &Sampler, trial: u64, h: &[u64]) -> ControlFlow<()> {
    let settings = s.settings;
    let slots = settings.slots as usize;
    let Ok(v) = history_view::view_of(slots, settings.n_startup_trials, s.dimensions, h) else {
        return ControlFlow::Continue(());
    };
    let t = v.training;
    let d = t.d;
    if !v.reached || d < 1 || d > 20 || t.n > 100 {
        return ControlFlow::Continue(());
    }
    let Ok(m) = fit(&t, settings.noise_variance) else {
        return ControlFlow::Continue(());
    };
    write_points(rt, trial, &m, d, settings.n_candidates, s.word).unwrap_or(ControlFlow::Continue(
        (),
    ))
}

// Whether a trial is new: discovery had ended before the call, and the call gave the trial its place.
fn is_new(before: &Sampler, after: &Sampler, trial: u64) -> bool {
    before.active
        && sampler_state::trial_place(&before.places, trial).is_none()
        && sampler_state::trial_place(&after.places, trial).is_some()
}

// The points of the trial that a call made new with a model; nothing for any other call.
pub(crate) fn write_call(
    rt: HostRuntime,
    before: &Sampler,
    after: &Sampler,
    trial: u64,
    history: &[u64],
) -> ControlFlow<()> {
    if !is_new(before, after, trial) {
        return ControlFlow::Continue(());
    }
    write_trial(rt, before, trial, history)
}
