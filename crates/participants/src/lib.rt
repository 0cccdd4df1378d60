//! Who races for a store: callers with requests of their own, controllers of StatefulSets, and kubelets. Each is a
//! machine: it sends a request, and the reply takes it on.
#![tactic(auto)]

mod answered;
mod asking;
mod caller;
mod controller;
mod kubelet;
mod laws;
mod merging;
mod participant;
mod printed;
mod sparing;
mod stand;
mod told;

pub use caller::{Ask, Asked, Caller, Verb};
pub use laws::{spared_reads_lead_nowhere, stands_are_phases_and_turns};
pub use merging::merged;
pub use participant::Participant;
pub use stand::{Mark, Stand};
pub use told::Told;
