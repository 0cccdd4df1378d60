//! The interleaved store as it is defined, with no code: callers that race, without a leader, over the shards of one
//! store, and why every run of them is linearizable. One event is one atomic step.
#![tactic(auto)]

mod event;
mod examples;
mod laws;
mod trace;

pub use event::Event;
pub use examples::{short_orders, short_runs};
pub use laws::{
    built_orders_are_legal, callers_keep_their_order, compactions_spare_reads,
    runs_are_linearizable,
};
pub use trace::{Item, Run, Trace};
