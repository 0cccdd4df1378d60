//! A StatefulSet and its pods as a plan sees them: what is read of them, and the predicates on them.
#![tactic(auto)]

mod claims;
mod fault;
mod owners;
mod pod;
mod policies;
mod predicates;
mod readiness;
mod reading;
mod set;
mod values;

pub use fault::PlanError;
pub use pod::{PodView, read_pod};
pub use policies::{Policy, Retention, Strategy};
pub use readiness::{Readiness, says};
pub use reading::read_set;
pub use set::Set;
