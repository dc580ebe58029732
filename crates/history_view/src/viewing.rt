// What a sampler sees of a history, and what it does not.
ghost use Rattle.std.specs.Prelude.{◌≡◌};
ghost use Rattle.history_view.specs.Agree.{OrderFree, OlderUnread, Generous};
ghost use Rattle.history_view.specs.Usable.{Usable};
ghost use Rattle.history_view.specs.View.{view_of};

use crate::View;
use dimensions::Dimensions;
use refusal::Refusal;
use slots::{ROW_HEAD, SLOT_WORDS};

// The view of a history: whether all its rows reach the start-up count, and its training data.
pub fn view_of(slots: usize, startup: u64, dims: Dimensions, h: &[u64]) -> Result<View, Refusal>
    ensures { result ≡ view_of slots startup dims.list dims.count h.now }
{
    let training = history::build_training_data(slots, dims, h)?;
    let rows = h.len() / (ROW_HEAD + SLOT_WORDS * slots);
    Ok(View {
        reached: startup <= rows as u64,
        training,
    })
}

// Two histories that agree are not told apart.
pub fn order_free()
    ensures { OrderFree }
{}

// Older words are never read.
pub fn older_unread()
    ensures { OlderUnread }
{}

// Histories that differ in no more than that agree.
pub fn generous()
    ensures { Generous }
{}

// Training data that are not refused meet the fit's domain.
pub fn usable()
    ensures { Usable }
{}
