//! The interleaved store: a replay of the steps of callers that race, without a leader, over the shards of one store.
//! What a run is, its law and the check of an order are re-exported from the crates below.
#![tactic(auto)]

mod caller_phase;
mod callers;
mod compaction;
mod decision;
mod laws;
mod machine;
mod names;
mod next_step;
mod open_reads;
mod parking;
mod phase;
mod read_steps;
mod replay_error;
mod replaying;
mod stepped;
mod whole;
mod write_steps;

pub use caller_phase::{CallerPhase, FirstStep};
pub use interleavings::{
    Event, Item, Run, Trace, built_orders_are_legal, callers_keep_their_order,
    compactions_spare_reads, runs_are_linearizable, short_orders, short_runs,
};
pub use laws::next_steps_are_enabled;
pub use names::MAX_CALLERS;
pub use order_check::check_order;
pub use replay_error::ReplayError;
pub use replaying::Replay;
pub use whole::replay;
