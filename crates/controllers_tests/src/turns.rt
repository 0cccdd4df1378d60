//! What happens to one controller, turn by turn. If an allocation is refused, the call is repeated once.
use crate::sample::{Named, controller, is_asked, request_of, store};
use controllers::Controller;
use objects::{Memory, Object};
use plain::{Reason, Reply, Request};
use plain_store::Trees;
use sets::PlanError;
use std::alloc::Global;

/// What happens to the controller of the set `web`.
pub(crate) enum Turn {
    /// Its next request is this one.
    Next(Named),
    /// It sends these, and the store replies.
    Asks(&'static [Named]),
    /// The store replies to so many of its requests.
    Goes(u8),
    /// Its reply says that nothing is there, or that it is a compaction's, or that what it asked to delete is removed,
    /// is marked, or stays as it is.
    Told(&'static str),
    Crash,
    /// Another client sends the request of this line.
    Line(&'static str),
    /// Its last plan was refused for this; or it was not, `none`.
    Refused(&'static str),
}

/// The next request. Out of memory, a second call has it, and a reply between the calls, which would end the round, is
/// not awaited.
fn next_at_last(web: &mut Controller) -> Option<Request> {
    match web.next() {
        Ok(request) => Some(request),
        Err(Memory) => {
            if web.take(&Reply::Compacted { revision: 1 }).is_err() {
                return None;
            }
            web.next().ok()
        }
    }
}

fn takes_at_last(web: &mut Controller, reply: Reply) -> bool {
    let is_taken = web.take(&reply).is_ok() || web.take(&reply).is_ok();
    drop(reply);
    is_taken
}

pub(crate) fn is_next(web: &mut Controller, wanted: &Named) -> bool {
    let Some(request) = next_at_last(web) else {
        return false;
    };
    let is_so = is_asked(&request, wanted);
    drop(request);
    is_so
}

fn goes_on(plain: &mut Trees, web: &mut Controller) -> Result<bool, Memory> {
    let Some(request) = next_at_last(web) else {
        return Ok(false);
    };
    let reply = plain.take(request)?;
    Ok(takes_at_last(web, reply))
}

fn goes(plain: &mut Trees, web: &mut Controller, times: u8) -> Result<bool, Memory> {
    for _ in 0..times {
        if !goes_on(plain, web)? {
            return Ok(false);
        }
    }
    Ok(true)
}

/// It is called once: a second `next` that is refused memory would leave the request open, and the reply between would
/// end the round.
fn asks_next(plain: &mut Trees, web: &mut Controller, wanted: &Named) -> Result<bool, Memory> {
    let Some(request) = next_at_last(web) else {
        return Ok(false);
    };
    if !is_asked(&request, wanted) {
        drop(request);
        return Ok(false);
    }
    let reply = plain.take(request)?;
    Ok(takes_at_last(web, reply))
}

fn asks(plain: &mut Trees, web: &mut Controller, wanted: &[Named]) -> Result<bool, Memory> {
    for asked in wanted {
        if !asks_next(plain, web, asked)? {
            return Ok(false);
        }
    }
    Ok(true)
}

/// The object in the reply to a delete here.
fn pod(alloc: Global) -> Result<Object, Memory> {
    let line = r#"{"do":"create","object":{"kind":"Pod","metadata":{"name":"web-0"}}}"#;
    match request_of(alloc, line)? {
        Request::Create(draft) => Ok(draft.object),
        _ => Err(Memory),
    }
}

fn reply(alloc: Global, word: &str) -> Result<Reply, Memory> {
    Ok(match word {
        "NotFound" => Reply::Refused(Reason::NotFound),
        "Removed" => Reply::Removed(pod(alloc)?),
        "Marked" => Reply::Marked(pod(alloc)?),
        "Unchanged" => Reply::Unchanged(pod(alloc)?),
        _ => Reply::Compacted { revision: 1 },
    })
}

fn refusal_name(web: &Controller) -> &'static str {
    match web.last_refusal() {
        None => "none",
        Some(PlanError::BadSpec) => "BadSpec",
        Some(PlanError::OrdinalTooLarge) => "OrdinalTooLarge",
        Some(_) => "another",
    }
}

fn takes_line(alloc: Global, plain: &mut Trees, line: &str) -> Result<bool, Memory> {
    drop(plain.take(request_of(alloc, line)?)?);
    Ok(true)
}

fn happens(
    alloc: Global,
    plain: &mut Trees,
    web: &mut Controller,
    turn: &Turn,
) -> Result<bool, Memory> {
    match turn {
        Turn::Next(wanted) => Ok(is_next(web, wanted)),
        Turn::Asks(wanted) => asks(plain, web, wanted),
        Turn::Goes(times) => goes(plain, web, *times),
        Turn::Told(word) => Ok(takes_at_last(web, reply(alloc, word)?)),
        Turn::Crash => {
            web.crash();
            Ok(true)
        }
        Turn::Line(line) => takes_line(alloc, plain, line),
        Turn::Refused(wanted) => Ok(refusal_name(web) == *wanted),
    }
}

fn all_happen(
    alloc: Global,
    plain: &mut Trees,
    web: &mut Controller,
    turns: &[Turn],
) -> Result<bool, Memory> {
    for turn in turns {
        if !happens(alloc, plain, web, turn)? {
            return Ok(false);
        }
    }
    Ok(true)
}

fn happen_over(alloc: Global, plain: &mut Trees, turns: &[Turn]) -> Result<bool, Memory> {
    let mut web = controller(alloc)?;
    let are_so = all_happen(alloc, plain, &mut web, turns);
    drop(web);
    are_so
}

/// Whether the turns turns_hold as they say, with a new controller and a new store.
pub(crate) fn turns_hold(alloc: Global, turns: &[Turn]) -> Result<bool, Memory> {
    let mut plain = store(alloc)?;
    let are_so = happen_over(alloc, &mut plain, turns);
    drop(plain);
    are_so
}
