//! What a race sends to its store is what its history has.
ghost use Rattle.std.specs.Prelude.{◌≡◌, ◌<◌, vec_len};
ghost use Rattle.line.specs.Seat.{AreShards};
ghost use Rattle.store.specs.Callers.{IsLine};

use crate::races::counting::{Counting, longest_pause};
use interleavings::Item;
use line::{Ends, Line};
use race_log::{CAPACITY, RaceFault, RaceSpec};
use racing::{SharedStore, race_over};
use std::alloc::Global;
use std::marker::Brand;
use std::process::Abort;
use std::sync::Wait;
use std::test::Fail;
use std::thread::Threads;
use store::{ByShards, Naming, NoGate, Sharding, Store, Writing};

const SHARDS: usize = 4;

fn spec() -> RaceSpec {
    RaceSpec {
        controllers: 3,
        shards: SHARDS as u64,
        rounds: 5,
        replicas: 2,
        operator: true,
    }
}

/// Whether a controller's next call has a place behind what others sent while its compaction waited.
fn is_behind(items: &[Item]) -> bool {
    // A reply, a call, its reply and one more call.
    longest_pause(items, 0) >= 4 || longest_pause(items, 1) >= 4 || longest_pause(items, 2) >= 4
}

/// Whether each controller compacted once a round, what was sent was noted, and no call has a place of before it came.
fn agrees<S: SharedStore + Sync, R: Threads + Wait + Sync>(
    rt: &R,
    alloc: Global,
    store: &S,
) -> Result<bool, RaceFault>
where
    S::Caller: Send,
    S::Ticket: Send,
{
    let counting = Counting::of(store);
    let history = race_over(rt, alloc, &counting, &spec(), &NoGate)?;
    let items = history.trace.items.as_slice();
    // Three controllers make five rounds each.
    let agrees = counting.agrees(items, 15) && is_behind(items);
    drop(history);
    Ok(agrees)
}

fn agrees_on_line<H: Sharding + Send + Sync, N: Naming + Send + Sync, R: Threads + Wait + Sync>(
    rt: &R,
    alloc: Global,
    ends: Ends<Writing, ByShards<H>>,
) -> Result<bool, RaceFault>
    requires line { IsLine N.line N.capacity ends.line }
    requires caller { ends.caller.line ≡ N.line }
    requires shards { AreShards N.line N.capacity ends.shards.items }
    requires some { (vec_len ends.shards ≡ H.shards) × (0 < H.shards) }
{
    match Store::<H, N>::new(alloc, ends) {
        Ok(store) => agrees(rt, alloc, &store),
        Err(_) => Err(RaceFault::Memory),
    }
}

fn agrees_on_shards<H: Sharding + Send + Sync, R: Threads + Wait + Sync>(
    rt: &R,
    alloc: Global,
) -> Result<bool, RaceFault>
    requires { H.shards ≡ SHARDS }
{
    match Line::<Writing, ByShards<H>>::new(alloc, CAPACITY, SHARDS) {
        Ok(ends) => agrees_on_line::<H, Brand, R>(rt, alloc, ends),
        Err(_) => Err(RaceFault::Memory),
    }
}

fn agrees_on_a_new_store<R: Threads + Wait + Sync>(
    rt: &R,
    alloc: Global,
) -> Result<bool, RaceFault> {
    agrees_on_shards::<Brand, R>(rt, alloc)
}

#[test]
fn the_history_has_what_the_store_was_asked(rt: HostRuntime) -> Result<(), Fail> {
    assert!(rt; agrees_on_a_new_store(&rt, rt.alloc())?);
    Ok(())
}
