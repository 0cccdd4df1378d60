//! Controllers of StatefulSets: each makes rounds over what it lists from a store, sends its plan as requests, and
//! collects claims; and any number of them may race without a leader.
#![tactic(auto)]

mod actions;
mod by_turns;
mod cluster;
mod cluster_spec;
mod controller;
mod hearing;
mod laws;
mod next;
mod plan;
mod progress;
mod reconciling;
mod round;
mod set_spec;
mod whole;

pub use by_turns::run_turns;
pub use cluster::run_cluster;
pub use cluster_runs::{ClusterEvent, ClusterFault, ClusterRun, Turn, TurnsRun};
pub use cluster_spec::ClusterSpec;
pub use controller::Controller;
pub use laws::{creates_wait_for_lower_pods, pods_come_in_turn, reconcilers_are_sound};
pub use rounds::{Taken, WholeEvent, WholeRun};
pub use set_spec::SetSpec;
pub use whole::run_whole;
