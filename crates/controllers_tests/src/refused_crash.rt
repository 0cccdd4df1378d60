//! A crash for which no caller is left: the controller stays in its round.
use crate::sample::{LIST_CLAIMS, request_of};
use crate::turns::is_next;
use crate::wholes::controllers;
use cluster_runs::run_cluster;
use controllers::{ClusterEvent, ClusterFault, ClusterRun, Controller};
use history::Event;
use objects::Memory;
use std::alloc::Global;
use std::test::Fail;

const GET: &str = r#"{"do":"get","kind":"Pod","name":"x"}"#;

/// Other clients: with the controller as many callers as there may be.
const OTHERS: u64 = 4_095;

/// The controller reads its set, which does not exist, and crashes.
fn add_crash(events: &mut Vec<ClusterEvent>) -> Result<(), Memory> {
    events.push(ClusterEvent::Next(0))?;
    events.push(ClusterEvent::Step(Event::Read(0)))?;
    events.push(ClusterEvent::Step(Event::Part(0)))?;
    events.push(ClusterEvent::Step(Event::Reply(0)))?;
    events.push(ClusterEvent::Crash(0))?;
    Ok(())
}

fn add_events(alloc: Global, events: &mut Vec<ClusterEvent>) -> Result<(), Memory> {
    for caller in 1..=OTHERS {
        events.push(ClusterEvent::Outside(caller, request_of(alloc, GET)?))?;
    }
    add_crash(events)
}

fn is_too_many(found: Result<ClusterRun, ClusterFault>) -> bool {
    match found {
        Ok(run) => {
            drop(run);
            false
        }
        Err(fault) => matches!(fault, ClusterFault::TooManyCallers),
    }
}

/// Whether the run ends at the crash, and the controller asks what comes behind its read.
fn stays_in_its_round(alloc: Global, events: &[ClusterEvent]) -> Result<bool, Memory> {
    let mut controllers = controllers(alloc)?;
    let found = run_cluster(alloc, 1, 10, controllers.as_mut_slice(), events);
    let is_so = is_too_many(found) && asks_for_claims(controllers.as_mut_slice());
    drop(controllers);
    Ok(is_so)
}

fn asks_for_claims(controllers: &mut [Controller]) -> bool {
    match controllers.first_mut() {
        Some(web) => is_next(web, &LIST_CLAIMS),
        None => false,
    }
}

fn is_kept(alloc: Global) -> Result<bool, Memory> {
    let mut events = Vec::new(alloc);
    let is_so = match add_events(alloc, &mut events) {
        Ok(()) => stays_in_its_round(alloc, events.as_slice()),
        Err(Memory) => Err(Memory),
    };
    drop(events);
    is_so
}

#[test]
fn a_crash_that_is_refused_loses_no_round(rt: HostRuntime) -> Result<(), Fail> {
    assert!(rt; is_kept(rt.alloc())?);
    Ok(())
}
