//! A run of one controller over a plain store, what the store handles, and what the controller asks then.
ghost use Rattle.std.specs.Prelude.{◌≡◌, IfOk};
ghost use Rattle.std.specs.List.{AllByRecursion};
ghost use Rattle.controllers.specs.Controller.{phase_of};
ghost use Rattle.controllers.specs.Phase.{reading_set};

use crate::sample::{
    GET_SET, LIST_CLAIMS, LIST_PODS, LIST_REVISIONS, LIST_SETS, Named, ONE, STATUS, controller,
    is_asked, request_of, store,
};
use crate::turns::is_next;
use controllers::{Controller, Taken, WholeEvent, WholeRun, run_whole};
use objects::Memory;
use plain::Reply;
use plain_store::Trees;
use std::alloc::Global;

const CREATE_SET: Named = ("create", "StatefulSet", "web");

const CREATE_REVISION: Named = ("create", "ControllerRevision", "web-10203acf9b");

const CREATE_POD: Named = ("create", "Pod", "web-0");

/// Whether the controller sent it, what, and the reply, with the version of its object or with how many it lists. The
/// controller crashes before its third round.
static TAKEN: [(bool, Named, &str, u64); 21] = [
    (false, CREATE_SET, "Created", 1),
    (true, GET_SET, "Found", 1),
    (true, LIST_REVISIONS, "Listed", 0),
    (true, LIST_PODS, "Listed", 0),
    (true, LIST_CLAIMS, "Listed", 0),
    (true, CREATE_REVISION, "Created", 2),
    (true, LIST_CLAIMS, "Listed", 0),
    (true, LIST_SETS, "Listed", 1),
    (true, LIST_PODS, "Listed", 0),
    (true, LIST_REVISIONS, "Listed", 1),
    (true, LIST_CLAIMS, "Listed", 0),
    (true, GET_SET, "Found", 1),
    (true, LIST_REVISIONS, "Listed", 1),
    (true, LIST_PODS, "Listed", 0),
    (true, LIST_CLAIMS, "Listed", 0),
    (true, CREATE_POD, "Created", 3),
    (true, GET_SET, "Found", 1),
    (true, LIST_REVISIONS, "Listed", 1),
    (true, LIST_PODS, "Listed", 1),
    (true, LIST_CLAIMS, "Listed", 0),
    (true, STATUS, "Updated", 4),
];

fn add_asks(events: &mut Vec<WholeEvent>, times: u8) -> Result<(), Memory> {
    for _ in 0..times {
        events.push(WholeEvent::Ask(0))?;
    }
    Ok(())
}

fn add_events(alloc: Global, events: &mut Vec<WholeEvent>) -> Result<(), Memory> {
    events.push(WholeEvent::Outside(request_of(alloc, ONE)?))?;
    add_asks(events, 15)?;
    events.push(WholeEvent::Crash(0))?;
    add_asks(events, 5)
}

pub(crate) fn controllers(alloc: Global) -> Result<Vec<Controller>, Memory>
    ensures { IfOk result (λ cs. AllByRecursion (λ c. phase_of c ≡ reading_set) cs.items) }
{
    let mut controllers = Vec::new(alloc);
    controllers.push(controller(alloc)?)?;
    Ok(controllers)
}

/// Whether the controller asks what comes behind so many entries, of which the first is another client's.
fn asks_behind(web: &mut Controller, taken: usize) -> bool {
    match TAKEN.get(taken.max(1)) {
        Some(entry) => is_next(web, &entry.1),
        None => is_next(web, &LIST_CLAIMS),
    }
}

/// Whether the controller asks what comes behind so many entries; or the last one again, of a run that was stopped
/// before it heard the reply.
fn asks_on(controllers: &mut [Controller], taken: usize, is_stopped: bool) -> bool {
    let Some(web) = controllers.first_mut() else {
        return false;
    };
    asks_behind(web, taken) || is_stopped && 0 < taken && asks_behind(web, taken - 1)
}

/// The run, and whether its controller asks on behind it.
fn run_over(
    alloc: Global,
    plain: &mut Trees,
    events: &[WholeEvent],
) -> Result<(WholeRun, bool), Memory> {
    let mut controllers = controllers(alloc)?;
    let run = run_whole(alloc, plain, controllers.as_mut_slice(), events);
    let taken = run.taken.len();
    let goes_on = asks_on(controllers.as_mut_slice(), taken, run.fault.is_some());
    drop(controllers);
    Ok((run, goes_on))
}

fn run_of(alloc: Global, events: &[WholeEvent]) -> Result<(WholeRun, bool), Memory> {
    let mut plain = store(alloc)?;
    let run = run_over(alloc, &mut plain, events);
    drop(plain);
    run
}

fn run(alloc: Global) -> Result<(WholeRun, bool), Memory> {
    let mut events = Vec::new(alloc);
    let run = match add_events(alloc, &mut events) {
        Ok(()) => run_of(alloc, events.as_slice()),
        Err(Memory) => Err(Memory),
    };
    drop(events);
    run
}

fn is_told(reply: &Reply, word: &str, number: u64) -> bool {
    match reply {
        Reply::Created(object) => word == "Created" && object.meta.revision == number,
        Reply::Found(object) => word == "Found" && object.meta.revision == number,
        Reply::Updated(object) => word == "Updated" && object.meta.revision == number,
        Reply::Listed {
            objects,
            revision: _,
        } => word == "Listed" && objects.as_slice().len() as u64 == number,
        _ => false,
    }
}

fn is_entry(entry: &Taken, wanted: &(bool, Named, &'static str, u64)) -> bool {
    let (who, request, reply) = entry;
    who.is_some() == wanted.0 && is_asked(request, &wanted.1) && is_told(reply, wanted.2, wanted.3)
}

fn are_entries(taken: &[Taken]) -> bool {
    for (entry, wanted) in taken.iter().zip(TAKEN.iter()) {
        if !is_entry(entry, wanted) {
            return false;
        }
    }
    taken.len() <= 21
}

/// Whether what a run handles is right as far as it gets, and its controller asks on; and whether it reaches its end.
pub(crate) fn ran(alloc: Global) -> Result<(bool, bool), Memory> {
    let (run, asks_on) = run(alloc)?;
    let is_right = are_entries(run.taken.as_slice());
    let is_whole = run.taken.len() == 21;
    let is_stopped = run.fault.is_some();
    drop(run);
    Ok((is_right && asks_on && (is_whole || is_stopped), is_whole))
}
