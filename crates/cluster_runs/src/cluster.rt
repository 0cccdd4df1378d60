use crate::callers::UsedCallers;
use history::Replay;
use interleavings::Event;

/// A cluster during a run.
#[derive(Drop)]
pub(crate) struct Cluster {
    pub replay: Replay,
    pub callers: UsedCallers,
    /// The events that were passed to the store.
    pub events: Vec<Event>,
}
