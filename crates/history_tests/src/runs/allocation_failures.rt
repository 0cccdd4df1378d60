//! Allocation failures. `checks/allocations` refuses each allocation of each test in turn, and each test has to pass:
//! one call may run out of memory, and the same call after it has enough. A test says nothing if its own setup is
//! refused memory.
use crate::runs::orders::{EARLY_CONFLICT, trace};
use crate::runs::steps::{call_of, events, is_right};
use history::{Event, Replay, ReplayError, check_order, replay};
use objects::Memory;
use std::alloc::Global;

#[test]
fn an_order_is_checked_after_an_allocation_failure(rt: HostRuntime) {
    let Ok(trace) = trace(rt.alloc(), 100, EARLY_CONFLICT.as_slice()) else {
        return;
    };
    let order = [0, 16, 6, 9, 13];
    let first = check_order(rt.alloc(), &trace, &order);
    let second = check_order(rt.alloc(), &trace, &order);
    drop(trace);
    assert!(rt; first.is_ok() || second.is_ok());
    assert!(rt; first.unwrap_or(true) && second.unwrap_or(true));
}

/// Whether the run of the events is right; or memory ran out.
fn replays(alloc: Global, events: &[Event]) -> Result<bool, Memory> {
    match replay(alloc, 2, 100, events) {
        Ok(run) => {
            let is_so = is_right(&run);
            drop(run);
            Ok(is_so)
        }
        Err(ReplayError::Memory) => Err(Memory),
        Err(_) => Ok(false),
    }
}

#[test]
fn a_replay_ends_at_an_allocation_failure(rt: HostRuntime) {
    let Ok(events) = events(rt.alloc()) else {
        return;
    };
    let first = replays(rt.alloc(), events.as_slice());
    let second = replays(rt.alloc(), events.as_slice());
    drop(events);
    assert!(rt; first.is_ok() || second.is_ok());
    assert!(rt; first.unwrap_or(true) && second.unwrap_or(true));
}

/// How many events a run has handled, and which of the callers from 1 to 5 are idle.
fn shown(replay: &Replay) -> (u64, [bool; 5]) {
    let idle = [
        replay.idle(1),
        replay.idle(2),
        replay.idle(3),
        replay.idle(4),
        replay.idle(5),
    ];
    (replay.events(), idle)
}

/// Whether the event is accepted.
fn takes(replay: &mut Replay, event: &Event) -> bool {
    if replay.events() >= u64::MAX {
        return false;
    }
    match replay.step(event) {
        Ok(told) => {
            drop(told);
            true
        }
        Err(_) => false,
    }
}

/// Whether the events are accepted, one by one. If an allocation is refused all is as it was, and the event is accepted
/// the second time.
fn takes_all(replay: &mut Replay, events: &[Event]) -> bool {
    for event in events {
        let before = shown(replay);
        if !takes(replay, event) && (shown(replay) != before || !takes(replay, event)) {
            return false;
        }
    }
    true
}

fn steps(alloc: Global, events: &[Event]) -> bool {
    let Ok(mut replay) = Replay::new(alloc, 2, 100) else {
        return true;
    };
    let are_taken = takes_all(&mut replay, events);
    let run = replay.finish();
    let is_so = are_taken && is_right(&run);
    drop(run);
    is_so
}

#[test]
fn a_step_that_is_refused_an_allocation_changes_nothing(rt: HostRuntime) {
    let Ok(events) = events(rt.alloc()) else {
        return;
    };
    let is_so = steps(rt.alloc(), events.as_slice());
    drop(events);
    assert!(rt; is_so);
}

/// One less than a run may have.
const CALLERS: u64 = 4_095;

/// Whether so many callers are taken, none of which has called.
fn takes_callers(replay: &mut Replay, count: u64) -> bool {
    for caller in 0..count {
        let event = Event::Check(caller);
        let is_taken = takes(replay, &event) || takes(replay, &event);
        drop(event);
        if !is_taken {
            return false;
        }
    }
    true
}

/// Whether of two more callers one is taken, and the other is one too many: if memory runs out at the first, that one
/// is none.
fn takes_one_more(replay: &mut Replay, events: &[Event]) -> bool {
    let mut count = 0u64;
    for event in events {
        if takes(replay, event) {
            count = count.wrapping_add(1);
        }
    }
    count == 1
}

fn fills_up(alloc: Global, events: &[Event]) -> bool {
    let Ok(mut replay) = Replay::new(alloc, 1, 1) else {
        return true;
    };
    let is_so = takes_callers(&mut replay, CALLERS) && takes_one_more(&mut replay, events);
    drop(replay.finish());
    is_so
}

/// The calls of two callers.
fn two_calls(alloc: Global) -> Result<Vec<Event>, Memory> {
    let mut events = Vec::new(alloc);
    for caller in CALLERS..CALLERS + 2 {
        events.push(call_of(alloc, caller)?)?;
    }
    Ok(events)
}

#[test]
fn a_caller_that_is_refused_an_allocation_is_none(rt: HostRuntime) {
    let Ok(events) = two_calls(rt.alloc()) else {
        return;
    };
    let is_so = fills_up(rt.alloc(), events.as_slice());
    drop(events);
    assert!(rt; is_so);
}
