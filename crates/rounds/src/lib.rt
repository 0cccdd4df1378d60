//! What controllers request of a store, round by round, and a kubelet in its turns; and what holds of every list of
//! requests that a plain store handles for controllers and for any other clients.
#![tactic(auto)]

mod control_loop;
mod event;
mod examples;
mod kubelet;
mod laws;
mod whole;

pub use control_loop::ControlLoop;
pub use event::{Taken, WholeEvent};
pub use examples::short_rounds;
pub use kubelet::{kubelet_requests, turn_requests};
pub use laws::{
    creates_are_planned, deletes_are_planned_or_collected, incarnations_may_end_anywhere,
    names_are_freed, owners_are_gone, plans_take_what_they_read, runs_keep_promises,
    transcripts_keep_promises,
};
pub use whole::{WholeRun, run_whole};
