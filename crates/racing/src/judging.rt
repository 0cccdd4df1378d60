// A race over any store that threads share.
ghost use Rattle.std.specs.Prelude.{◌≡◌, ◌↔◌, ◌≤◌, false, IfOk, IsErrOf, IsTrue};
ghost use Rattle.race_log.specs.Limits.{is_race};
ghost use Rattle.racing.specs.Parts.{AreParts, IsRaceOf};

use crate::course::Course;
use crate::shared::SharedStore;
use crate::threads::run_all;
use race_log::{CAPACITY, Part, RaceFault, RaceHistory, RaceSpec, judged, merged};
use std::alloc::Global;
use std::sync::Wait;
use std::thread::Threads;
use store::{Gate, StoreError};

/// Runs a race over an unused store of 65,536 revisions, and judges it: see `judged`. Each controller is a thread, so
/// is the kubelet, and so is the operator if there is one. They begin together, and all are joined. The log is the
/// merge of the parts of all callers: one for each controller, then the kubelet's, that of the caller that created the
/// set, and the operator's if there is one.
///
/// In each part every reply is the plain store's in what the caller has seen in the end, up to the reply's number, and
/// no number is below that of an earlier reply. A controller's part is exactly what `Controller` sends, each request by
/// the replies before it, from the first read of its set on, for as many rounds as the race has, the last one whole.
/// The kubelet's is whole turns, at least one and at most 64 for each round: a list of the pods, and what it requests
/// for them. The caller that created the set sent nothing else, with the replicas of the race. The operator's is its
/// course, a request for each round.
///
/// # Errors
///
/// `BadRace` if a size is out of range; `TooManyCallers` if the store has fewer callers left than the race has;
/// `Memory`, also if a thread cannot be made. If a thread or its caller cannot be made, no thread sends anything.
pub fn race_over<S: SharedStore + Sync, R: Threads + Wait + Sync, G: Gate + Sync>(
    rt: &R,
    alloc: Global,
    store: &S,
    spec: &RaceSpec,
    gate: &G,
) -> Result<RaceHistory, RaceFault>
where
    S::Caller: Send,
    S::Ticket: Send,
    ensures refused { IsErrOf result RaceFault.BadRace ↔ (is_race spec.now ≡ false) }
    ensures race { IfOk result (IsRaceOf S.shards S.capacity CAPACITY spec.now) }
    ensures once { IfOk result (λ history. IsTrue history.report.legal → history.report.twice ≡ 0) }
{
    if !spec.is_allowed() {
        return Err(RaceFault::BadRace);
    }
    run_threads(rt, alloc, store, spec, gate)
}

/// The parts of all callers.
fn parts_of<S: SharedStore + Sync, R: Threads + Wait + Sync, G: Gate + Sync>(
    rt: &R,
    store: &S,
    gate: &G,
    course: &Course,
) -> Result<Vec<Part>, RaceFault>
where
    S::Caller: Send,
    S::Ticket: Send,
    requires few { course.now.spec.controllers ≤ 64 }
    ensures allowed { IsErrOf result RaceFault.BadRace → ⊥ }
    ensures parts { IfOk result (λ parts. AreParts S.shards S.capacity course.now.spec parts.items) }
{
    match run_all(rt, store, gate, course) {
        Ok(parts) => Ok(parts),
        Err(StoreError::TooManyCallers) => Err(RaceFault::TooManyCallers),
        Err(StoreError::Memory) => Err(RaceFault::Memory),
    }
}

/// As `race_over`, for an allowed size.
fn run_threads<S: SharedStore + Sync, R: Threads + Wait + Sync, G: Gate + Sync>(
    rt: &R,
    alloc: Global,
    store: &S,
    spec: &RaceSpec,
    gate: &G,
) -> Result<RaceHistory, RaceFault>
where
    S::Caller: Send,
    S::Ticket: Send,
    requires few { spec.now.controllers ≤ 64 }
    ensures allowed { IsErrOf result RaceFault.BadRace → ⊥ }
    ensures race { IfOk result (IsRaceOf S.shards S.capacity CAPACITY spec.now) }
    ensures once { IfOk result (λ history. IsTrue history.report.legal → history.report.twice ≡ 0) }
{
    let course = Course::new(alloc, spec);
    let parts = parts_of(rt, store, gate, &course)?;
    let log = merged(alloc, parts)?;
    Ok(judged(alloc, CAPACITY, spec, log)?)
}
