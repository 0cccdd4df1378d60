//! The running store: shards of versions, each with a lock of its own, which threads write and read by the numbers and
//! the frontier of one line. No thread leads.
//!
//! Each reply is what the plain store answers at the end of one history of whole writes, which begins with all that the
//! caller had seen before: a linearization of what it can know (Herlihy and Wing, Linearizability, 1990).
#![tactic(auto)]

mod caller;
mod callers;
mod calls;
mod error;
mod floor;
mod gate;
mod laws;
mod locked;
mod naming;
mod sharing;
mod store;
mod ticket;
mod write_steps;
mod writing;

pub use caller::Caller;
pub use error::StoreError;
pub use gate::{Gate, NoGate};
pub use laws::tickets_stay_their_callers;
pub use naming::{Naming, Sharding};
pub use sharing::threads_may_share;
pub use store::Store;
pub use ticket::Ticket;
pub use writing::{ByShards, Writing};
