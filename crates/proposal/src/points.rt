// The point that is decoded.
ghost use Rattle.std.specs.Prelude.{◌≡◌, ◌≤◌, ◌<◌, T, length};
ghost use Rattle.search.specs.Search.{search_domain};
ghost use Rattle.proposal.specs.Points.{unit_point, search_point, point_for};

use gp_model::Model;
use history::Training;
use rng_util::Draw;
use search::Candidate;

// One unit float a column.
fn unit_point(d: usize, word: u64) -> Draw<[f64; 20]>
    requires { (d ≤ 20) × (0 < word) }
    ensures { result ≡ unit_point d word }
{
    let Candidate { x, next } = search::draw_point(d, word).unwrap();
    Draw {
        value: x,
        drawn: d as u64,
        next,
    }
}

// The point of a search that takes this model, column count and word.
fn search_point(m: Model, d: usize, n_candidates: u64, word: u64) -> Draw<[f64; 20]>
    requires { (d ≤ 20) × (n_candidates ≤ 10000) × T (search_domain m d word) }
    ensures { result ≡ search_point m d n_candidates word }
{
    let drawn = n_candidates * d as u64;
    let Candidate { x, next } = search::optimize_acquisition(m, d, n_candidates, word).unwrap();
    Draw {
        value: x,
        drawn,
        next,
    }
}

// The search's point under a model of the training data, or unit floats where the fit is refused.
pub(crate) fn point_for(
    t: Training,
    noise_variance: f64,
    n_candidates: u64,
    word: u64,
) -> Draw<[f64; 20]>
    requires { (t.n ≤ 100) × (t.d ≤ 20) × (length t.x ≡ 2000) × (length t.y ≡ 100) × (n_candidates ≤ 10000) × (0 < word) }
    ensures { result ≡ point_for t noise_variance n_candidates word }
{
    let n = t.n;
    let d = t.d;
    let rows = t.x;
    let values = t.y;
    match gp_model::fit_gp(&rows[..n * d], &values[..n], d, noise_variance) {
        Ok(m) => search_point(m, d, n_candidates, word),
        Err(_) => unit_point(d, word),
    }
}
