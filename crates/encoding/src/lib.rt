// A distribution's ends and its values in the model's space: functions of common.rs.
#![tactic(auto)]

pub mod bounds;
pub mod encode;

pub use bounds::internal_bounds;
pub use encode::to_internal;
use refusal::Refusal;

// The ends of a distribution in the model's space; a choice has none.
pub type InternalBounds = Result<Option<(f64, f64)>, Refusal>;
