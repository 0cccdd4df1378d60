//! Why a plan has each of its actions, and which claims are deleted with what it deletes.
#![tactic(auto)]

mod gone;
mod laws;
mod lost;
mod reason;
mod why;

pub use laws::{deletions_are_explained, lost_claims_are_collected, waits_hold_up_the_update};
pub use lost::{claims_with_pods, claims_with_set};
pub use reason::Reason;
pub use why::Why;
