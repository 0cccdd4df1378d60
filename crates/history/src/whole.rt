ghost use Rattle.std.specs.Prelude.{◌<◌, ◌≤◌, ◌↔◌, IfOk, OnOk, IsErrOf};
ghost use Rattle.plain_store.specs.Reached.{most_revisions};
ghost use Rattle.history.specs.After.{IsRunOf};
ghost use Rattle.history.specs.Named.{callers};

use crate::replay_error::ReplayError;
use crate::replaying::Replay;
use interleavings::{Event, Run};
use std::alloc::Global;

/// The run of these events from the opening world: its trace, and the order that is built from its requests.
///
/// # Errors
///
/// The first that applies: BadShards if there are not 1 to 64 shards, BadCapacity if the capacity is not from 1 to
/// 1,048,576, TooManyCallers if the events name more than 4,096 callers. It is Memory if memory ran out first.
pub fn replay(
    alloc: Global,
    shards: usize,
    capacity: u64,
    events: &[Event],
) -> Result<Run, ReplayError>
    ensures run { IfOk result (λ run. IsRunOf (record { capacity = capacity; shards = shards }) events.now run) }
    ensures few { OnOk result (callers events.now ≤ 4096) }
    ensures bad_shards { IsErrOf result ReplayError.BadShards ↔ (1 ≤ shards → 64 < shards) }
    ensures bad_capacity { IsErrOf result ReplayError.BadCapacity ↔ ((1 ≤ shards) × (shards ≤ 64) × (1 ≤ capacity → most_revisions < capacity)) }
    ensures too_many { IsErrOf result ReplayError.TooManyCallers → 4096 < callers events.now }
{
    let mut replay = Replay::new(alloc, shards, capacity)?;
    for event in events {
        // The reply is in the trace too.
        drop(replay.step(event)?);
    }
    Ok(replay.finish())
}
