//! Clusters: controllers that race over the interleaved store, what holds of every legal order of the requests of
//! controllers and other clients, and runs, event by event.
#![tactic(auto)]

mod applying;
mod callers;
mod carrying;
mod cluster;
mod event;
mod examples;
mod fault;
mod laws;
mod rounding;
mod run;
mod settling;
mod turn;
mod turns;

pub use event::ClusterEvent;
pub use examples::short_clusters;
pub use fault::ClusterFault;
pub use laws::clusters_keep_promises;
pub use run::{ClusterRun, run_cluster};
pub use turn::Turn;
pub use turns::{TurnsRun, run_turns};
