//! Runs as text for a person, event by event: who, what, whether it was enabled, and the state of its caller after it.
//! A trace of a cluster also tells which plans were refused, and why. A controller continues after a refusal as if it
//! had nothing to do, so the run's requests do not show it.
#![tactic(auto)]

mod enabled;
mod following;
mod laws;
mod lines;
mod notes;
mod places;
mod refused_lines;
mod refused_notes;
mod refused_plan;
mod run_state;
mod telling;
mod tracing;

pub use laws::{callers_stand_as_their_controllers, enabled_events_change_the_world};
pub use notes::Notes;
pub use refused_notes::RefusedNotes;
pub use refused_plan::RefusedPlan;
pub use telling::refused_plans;
pub use tracing::{trace_by_lines, trace_lines};
