//! Races with an operator.
use crate::races::counting::count_by;
use race_log::{RaceFault, RaceSpec};
use racing::race_history;
use std::alloc::Global;
use std::process::Abort;
use std::sync::Wait;
use std::test::Fail;
use std::thread::Threads;
use store::NoGate;

/// Two controllers, so that the operator's number is 4.
fn spec_of(operator: bool) -> RaceSpec {
    RaceSpec {
        controllers: 2,
        shards: 4,
        rounds: 6,
        replicas: 2,
        operator,
    }
}

/// Whether the race is legal, and has so many calls and replies of the operator.
fn is_legal<R: Threads + Wait + Sync>(
    rt: &R,
    alloc: Global,
    operator: bool,
    items: u64,
) -> Result<bool, RaceFault> {
    let history = race_history(rt, alloc, &spec_of(operator), &NoGate)?;
    let is_legal = history.report.legal
        && history.report.twice == 0
        && count_by(history.trace.items.as_slice(), 4) == items;
    drop(history);
    Ok(is_legal)
}

#[test]
fn an_operator_asks_once_for_each_round(rt: HostRuntime) -> Result<(), Fail> {
    assert!(rt; is_legal(&rt, rt.alloc(), true, 12)?);
    assert!(rt; is_legal(&rt, rt.alloc(), false, 0)?);
    Ok(())
}
