// What a thread that writes does.
use crate::stores::pods::{Drafts, PODS, key};
use objects::{Memory, ReadError, Text};
use racing::{SharedStore, answered};
use requests::Request;
use std::alloc::Global;
use std::sync::Wait;
use store::NoGate;

/// How often a pod is updated between its creation and its removal.
const UPDATES: u64 = 4;

/// How many writes that makes for each pod.
const WRITES: u64 = UPDATES + 2;

/// How many writes a thread makes, or up to five more, and whose pods.
#[derive(Clone, Copy)]
pub(crate) struct Share {
    pub(crate) writes: u64,
    pub(crate) index: u64,
    pub(crate) writers: u64,
}

impl Share {
    /// The pod that the writer writes after so many others. No other writer has it, as the number of pods is a multiple
    /// of the number of writers.
    fn pod(self, taken: u64) -> u64 {
        taken.wrapping_mul(self.writers).wrapping_add(self.index) % PODS
    }
}

fn creation(drafts: &mut Drafts, pod: u64, label: u64) -> Result<Request, ReadError> {
    Ok(Request::Create(drafts.next(pod, label)?))
}

/// An update at any revision.
fn update(drafts: &mut Drafts, pod: u64, label: u64) -> Result<Request, ReadError> {
    Ok(Request::Update(drafts.next(pod, label)?))
}

/// An update at that revision.
fn update_at(
    alloc: Global,
    drafts: &mut Drafts,
    pod: u64,
    label: u64,
    revision: u64,
) -> Result<Request, ReadError> {
    let version = format!(in alloc; "{revision}")?;
    let mut draft = drafts.next(pod, label)?;
    draft.version = Some(Text::from(version));
    Ok(Request::Update(draft))
}

fn removal(alloc: Global, pod: u64) -> Result<Request, ReadError> {
    Ok(Request::Delete {
        key: key(alloc, pod)?,
        uid: None,
        version: None,
        at: None,
    })
}

/// Sends a write. Returns its revision, if it was accepted.
fn accepted<S: SharedStore, R: Wait>(
    rt: &R,
    store: &S,
    caller: &mut S::Caller,
    request: Request,
) -> Result<Option<u64>, Memory> {
    let (reply, number) = answered(rt, store, &NoGate, caller, request)?;
    let accepted = reply.drew_revision();
    drop(reply);
    Ok(accepted.then_some(number))
}

/// Creates a pod, updates it, each time at the version that it has, and deletes it; the labels count up from that one.
/// Returns how many writes were accepted: it ends with the first one that was not.
fn write<S: SharedStore, R: Wait>(
    rt: &R,
    alloc: Global,
    store: &S,
    caller: &mut S::Caller,
    drafts: &mut Drafts,
    pod: u64,
    label: u64,
) -> Result<u64, ReadError> {
    let created = creation(drafts, pod, label)?;
    let Some(mut revision) = accepted(rt, store, caller, created)? else {
        return Ok(0);
    };
    for count in 1..=UPDATES {
        let updated = update_at(alloc, drafts, pod, label.wrapping_add(count), revision)?;
        let Some(next) = accepted(rt, store, caller, updated)? else {
            return Ok(count);
        };
        revision = next;
    }
    let deleted = removal(alloc, pod)?;
    match accepted(rt, store, caller, deleted)? {
        Some(_) => Ok(WRITES),
        None => Ok(WRITES - 1),
    }
}

/// Writes one pod after the other, until there were at least so many writes or one was not accepted. Returns how many
/// were.
pub(crate) fn write_all<S: SharedStore, R: Wait>(
    rt: &R,
    alloc: Global,
    store: &S,
    caller: &mut S::Caller,
    share: Share,
) -> Result<u64, ReadError> {
    let mut drafts = Drafts::new(alloc);
    let mut accepted = 0_u64;
    for taken in 0..share.writes.div_ceil(WRITES) {
        let pod = share.pod(taken);
        let count = write(rt, alloc, store, caller, &mut drafts, pod, taken)?;
        accepted = accepted.wrapping_add(count);
        if count < WRITES {
            break;
        }
    }
    Ok(accepted)
}

/// Makes the requests for a pod.
fn make(
    alloc: Global,
    drafts: &mut Drafts,
    pod: u64,
    label: u64,
    requests: &mut Vec<Request>,
) -> Result<(), ReadError> {
    requests.push(creation(drafts, pod, label)?)?;
    for count in 1..=UPDATES {
        requests.push(update(drafts, pod, label.wrapping_add(count))?)?;
    }
    requests.push(removal(alloc, pod)?)?;
    Ok(())
}

/// The requests that `write_all` makes, except that an update names no version.
pub(crate) fn make_all(alloc: Global, share: Share) -> Result<Vec<Request>, ReadError> {
    let mut drafts = Drafts::new(alloc);
    let mut requests = Vec::new(alloc);
    for taken in 0..share.writes.div_ceil(WRITES) {
        make(alloc, &mut drafts, share.pod(taken), taken, &mut requests)?;
    }
    Ok(requests)
}

/// Sends requests that were made before, until one was not accepted. Returns how many were.
pub(crate) fn write_made<S: SharedStore, R: Wait>(
    rt: &R,
    store: &S,
    caller: &mut S::Caller,
    requests: Vec<Request>,
) -> Result<u64, Memory> {
    let mut count = 0_u64;
    for request in requests {
        if accepted(rt, store, caller, request)?.is_none() {
            break;
        }
        count = count.wrapping_add(1);
    }
    Ok(count)
}
