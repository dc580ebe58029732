// The training data of the recent rows.
ghost use Rattle.std.specs.Prelude.{◌≡◌, ℕ, ◌≤◌, ◌<◌, length, get_or, None};
ghost use Rattle.arith.specs.Lists.{filled, padded, places_of};
ghost use Rattle.history.specs.Cells.{Cells};
ghost use Rattle.param_mapping.specs.Mapping.{mapped_of};
ghost use Rattle.history.specs.Places.{places_in};
ghost use Rattle.history_rows.specs.Rows.{row_at, row_count};
ghost use Rattle.history.specs.Training.{trains_of, x_of, y_of, built_of, recent_training, training_of};

use crate::columns::Columns;
use crate::rows::Rows;
use crate::{Places, Training, columns};
use dimensions::Dimensions;
use refusal::Refusal;

// The rows that train.
fn kept(rows: &Rows, columns: &Columns) -> Places
    ensures { result ≡ places_in (places_of rows.now.count (λ i. trains_of rows.now.slots columns.now.mapping.now columns.now.places.now (row_at rows.now.slots rows.now.words.now i))) }
{
    let mut places = Places::new();
    for i in 0..rows.count {
        if columns.trains(&rows.row(i)) {
            places.push(i);
        }
    }
    places
}

// The values of the kept rows, row after row.
fn x_train(rows: &Rows, columns: &Columns, kept: &[usize]) -> [f64; 2000]
    requires { (length kept.now ≤ 100) × Cells rows.now.slots rows.now.count columns.now.mapping.now columns.now.places.now rows.now.words.now kept.now }
    ensures { result ≡ padded 2000 (x_of rows.now.slots columns.now.dims.now columns.now.mapping.now columns.now.places.now rows.now.words.now kept.now) }
{
    let d = columns.places.len();
    let mut out = [0.0; 2000];
    for p in 0..kept.len() * d {
        out[p] = columns.value(&rows.row(kept[p / d]), columns.places[p % d]);
    }
    out
}

// The objectives of the kept rows.
fn y_train(rows: &Rows, kept: &[usize]) -> [f64; 100]
    requires { (length kept.now ≤ 100) × ((c : ℕ) → c < length kept.now → get_or kept.now c 0 < rows.now.count) }
    ensures { result ≡ padded 100 (y_of rows.now.slots rows.now.words.now kept.now) }
{
    let mut out = [0.0; 100];
    for (c, i) in kept.iter().enumerate() {
        out[c] = rows.row(*i).objective();
    }
    out
}

// The training data of the kept rows.
fn built(rows: &Rows, columns: &Columns, kept: &[usize]) -> Training
    requires { (length kept.now ≤ 100) × Cells rows.now.slots rows.now.count columns.now.mapping.now columns.now.places.now rows.now.words.now kept.now }
    ensures { result ≡ built_of rows.now.slots columns.now.dims.now columns.now.mapping.now columns.now.places.now rows.now.words.now kept.now }
{
    let x = x_train(rows, columns, kept);
    let y = y_train(rows, kept);
    Training {
        n: kept.len(),
        d: columns.places.len(),
        x,
        y,
    }
}

// The training data of the rows for these columns.
fn of_columns(rows: &Rows, columns: &Columns) -> Training
    ensures { result ≡ built_of rows.now.slots columns.now.dims.now columns.now.mapping.now columns.now.places.now rows.now.words.now (places_of rows.now.count (λ i. trains_of rows.now.slots columns.now.mapping.now columns.now.places.now (row_at rows.now.slots rows.now.words.now i))) }
{
    let kept = kept(rows, columns);
    built(rows, columns, &kept.at[..kept.count])
}

// The training data of the recent rows, by the mapping from the first of them.
fn recent_training(rows: &Rows, dims: &Dimensions, mapping: &[Option<u64>; 20]) -> Training
    requires { (dims.now.count ≤ 20) × (rows.now.count ≡ row_count rows.now.slots rows.now.words.now) × (mapping.now ≡ filled None 20 (mapped_of rows.now.slots dims.now.list dims.now.count (row_at rows.now.slots rows.now.words.now 0))) }
    ensures { result ≡ recent_training rows.now.slots dims.now.list dims.now.count rows.now.words.now }
{
    let places = columns::continuous(dims);
    let columns = Columns {
        dims: &dims.list,
        mapping,
        places: &places.at[..places.count],
    };
    of_columns(rows, &columns)
}

// The training data of a history for these dimensions.
pub fn build_training_data(slots: usize, dims: Dimensions, h: &[u64]) -> Result<Training, Refusal>
    ensures { result ≡ training_of slots dims.list dims.count h.now }
{
    let mapping = param_mapping::establish_param_mapping(slots, dims, h)?;
    let recent = history_rows::recent_part(slots, h);
    let rows = Rows {
        slots,
        count: recent.rows,
        words: &h[recent.start..],
    };
    Ok(recent_training(&rows, &dims, &mapping))
}
