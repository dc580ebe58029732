// The leaves of `history`: the number of slots, in `mapping` and `training` the number of dimensions and six words for
// each, then a history.
// A line with fewer words than its dimensions have is none of these; over 20 dimensions or a malformed one are 11.
// Two of them have large arrays and are not inlined, as those of `model`.
ghost use Rattle.std.specs.Prelude.{◌≤◌, length};

use crate::codings;
use crate::model::put_floats;
use crate::reply::{Failure, Reply, Results, Written, put};
use dimensions::{DimensionInfo, Dimensions};
use distribution::{CategoricalDistribution, Distribution};
use history::Training;
use refusal::Refusal;
use slots::{ROW_HEAD, SLOT_WORDS};

// What `mapping` and `training` read: the number of slots, the dimensions and a history.
#[derive(Clone, Copy)]
struct Query<'a> {
    slots: usize,
    dims: Dimensions,
    history: &'a [u64],
    ghost few: { dims.count ≤ 20 },
}

// The number of rows. A history that is not refused has at most 20 slots.
pub(crate) fn history(args: &[u64], results: &mut Results) -> Reply {
    let [slots, h @ ..] = args else {
        return Err(Failure::Unreadable);
    };
    let slots = *slots as usize;
    history_rows::check(slots, h)?;
    if slots > 20 {
        return Err(Failure::Unreadable);
    }
    put(
        [(h.len() / (ROW_HEAD + SLOT_WORDS * slots)) as u64],
        results,
    )
}

// What stands past the dimensions: a choice of one.
fn no_dimension() -> Result<DimensionInfo, Refusal> {
    dimensions::dimension(Distribution::Categorical(CategoricalDistribution { n_choices: 1 }))
}

// The dimensions of these words, six for each, up to 20; a malformed one is 11.
fn read_dimensions(words: &[u64]) -> Result<[DimensionInfo; 20], Failure> {
    let mut dims = [no_dimension()?; 20];
    for (dim, six) in dims.iter_mut().zip(words.chunks_exact(6)) {
        *dim = dimensions::dimension(codings::distribution(six)?)?;
    }
    Ok(dims)
}

fn read_query(args: &[u64]) -> Result<Query<'_>, Failure> {
    let [slots, k, words @ ..] = args else {
        return Err(Failure::Unreadable);
    };
    let k = *k as usize;
    if k > words.len() / 6 {
        return Err(Failure::Unreadable);
    }
    if k > 20 {
        return Err(Failure::Refused(Refusal::OutOfDomain));
    }
    let (dims, history) = words.split_at(6 * k);
    Ok(Query {
        slots: *slots as usize,
        dims: Dimensions {
            list: read_dimensions(dims)?,
            count: k,
        },
        history,
    })
}

// Puts two words for each: 1 and the id, or 0 and 0 for none.
fn put_ids(ids: &[Option<u64>], results: &mut Results)
    requires { length ids.now ≤ 20 }
{
    for (j, id) in ids.iter().enumerate() {
        results[2 * j] = u64::from(id.is_some());
        results[2 * j + 1] = id.unwrap_or(0);
    }
}

#[inline(never)]
pub(crate) fn mapping(args: &[u64], results: &mut Results) -> Reply {
    let q = read_query(args)?;
    let ids = param_mapping::establish_param_mapping(q.slots, q.dims, q.history)?;
    put_ids(&ids[..q.dims.count], results);
    Ok(Written {
        words: 2 * q.dims.count,
    })
}

// How many coordinates n rows of d columns have.
fn coordinates(n: usize, d: usize) -> usize
    requires { (n ≤ 100) × (d ≤ 20) }
    ensures { result ≤ 2000 }
{
    n * d
}

// The counts, the coordinates row after row and the values. There are at most 100 rows of 20 columns.
fn put_training(t: Training, results: &mut Results) -> Reply {
    let (n, d) = (t.n, t.d);
    if n > 100 || d > 20 {
        return Err(Failure::Unreadable);
    }
    let count = coordinates(n, d);
    let values = 2 + count;
    let end = values + n;
    results[0] = n as u64;
    results[1] = d as u64;
    put_floats(&mut results[2..values], &t.x[..count]);
    put_floats(&mut results[values..end], &t.y[..n]);
    Ok(Written { words: end })
}

#[inline(never)]
pub(crate) fn training(args: &[u64], results: &mut Results) -> Reply {
    let q = read_query(args)?;
    let t = history::build_training_data(q.slots, q.dims, q.history)?;
    put_training(t, results)
}
