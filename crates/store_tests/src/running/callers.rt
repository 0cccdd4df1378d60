// How many callers a store has.
use crate::running::asking::{assert_numbered, assert_so};
use race_log::{RaceFault, RaceSpec};
use racing::{SharedStore, race_over};
use std::alloc::Global;
use std::process::Abort;
use std::sync::Wait;
use std::test::Fail;
use std::thread::Threads;
use store::{NoGate, StoreError};

/// The last of 4,097 callers is refused, and no other. A race over the store has no callers then.
pub(crate) fn assert_callers<S: SharedStore + Sync, R: Threads + Wait + Abort + Sync>(
    rt: &R,
    alloc: Global,
    store: &S,
) -> Result<(), Fail>
where
    S::Caller: Send,
    S::Ticket: Send,
{
    for number in 1..=4097 {
        let refused = match store.caller(rt) {
            Ok(caller) => {
                drop(caller);
                false
            }
            Err(error) => error == StoreError::TooManyCallers,
        };
        assert_numbered(rt, refused == (number == 4097), "the caller", number);
    }
    assert_so(rt, is_raceless(rt, alloc, store), "a race with no callers");
    Ok(())
}

/// Whether a race over the store is refused for want of callers.
fn is_raceless<S: SharedStore + Sync, R: Threads + Wait + Sync>(
    rt: &R,
    alloc: Global,
    store: &S,
) -> bool
where
    S::Caller: Send,
    S::Ticket: Send,
{
    let spec = RaceSpec {
        controllers: 1,
        shards: 1,
        rounds: 1,
        replicas: 1,
        operator: false,
    };
    match race_over(rt, alloc, store, &spec, &NoGate) {
        Ok(history) => {
            drop(history);
            false
        }
        Err(fault) => fault == RaceFault::TooManyCallers,
    }
}
