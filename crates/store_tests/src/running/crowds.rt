// Eight threads at once, whose log is judged.
use crate::running::asking::{assert_numbered, assert_so, printed, request_of};
use race_log::{Log, RaceSpec, judged};
use racing::{SharedStore, answered};
use requests::{Reason, Reply, Request};
use std::alloc::Global;
use std::process::Abort;
use std::sync::{Mutex, Wait};
use std::test::Fail;
use std::thread;
use std::thread::Threads;
use store::NoGate;

/// So few that the store is full before the end, which the last create shows.
pub(crate) const CAPACITY: u64 = 1_000;

const THREADS: usize = 8;

/// How many requests each thread makes.
const REQUESTS: u64 = 1_000;

/// Requests at random: of 34 requests ten are creates, nine updates, five deletes, four gets and three lists. One is a
/// compaction and two are lists that are sent again, none of which is noted.
static ASKED: [&str; 31] = [
    r#"{"do":"create","object":{"kind":"Pod","metadata":{"name":"a"}}}"#,
    r#"{"do":"create","object":{"kind":"Pod","metadata":{"name":"b"}}}"#,
    r#"{"do":"create","object":{"kind":"Pod","metadata":{"name":"c"}}}"#,
    r#"{"do":"create","object":{"kind":"Pod","metadata":{"name":"d"}}}"#,
    r#"{"do":"create","object":{"kind":"Pod","metadata":{"name":"e"}}}"#,
    r#"{"do":"create","object":{"kind":"Pod","metadata":{"name":"f"}}}"#,
    r#"{"do":"create","object":{"kind":"Pod","metadata":{"name":"g"}}}"#,
    r#"{"do":"create","object":{"kind":"Pod","metadata":{"name":"h"}}}"#,
    r#"{"do":"create","object":{"kind":"Pod","metadata":{"name":"a"},"spec":{"x":1}}}"#,
    r#"{"do":"create","object":{"kind":"Pod","metadata":{"name":"b"},"spec":{"x":1}}}"#,
    r#"{"do":"update","object":{"kind":"Pod","metadata":{"name":"a"},"spec":{"x":1}}}"#,
    r#"{"do":"update","object":{"kind":"Pod","metadata":{"name":"a"},"spec":{"x":2}}}"#,
    r#"{"do":"update","object":{"kind":"Pod","metadata":{"name":"b"},"spec":{"x":1}}}"#,
    r#"{"do":"update","object":{"kind":"Pod","metadata":{"name":"c"},"spec":{"x":2}}}"#,
    r#"{"do":"update","object":{"kind":"Pod","metadata":{"name":"d"},"spec":{"x":2}}}"#,
    r#"{"do":"update","object":{"kind":"Pod","metadata":{"name":"e"},"spec":{"x":2}}}"#,
    r#"{"do":"update","object":{"kind":"Pod","metadata":{"labels":{"x":"y"},"name":"a"}}}"#,
    r#"{"do":"update","object":{"kind":"Pod","metadata":{"name":"a","resourceVersion":"7"}}}"#,
    r#"{"do":"update","object":{"kind":"Pod","metadata":{"name":"b","resourceVersion":"8"}}}"#,
    r#"{"do":"delete","kind":"Pod","name":"a"}"#,
    r#"{"do":"delete","kind":"Pod","name":"b"}"#,
    r#"{"do":"delete","kind":"Pod","name":"c"}"#,
    r#"{"do":"delete","kind":"Pod","name":"h"}"#,
    r#"{"do":"delete","kind":"Pod","name":"d","at":"2024-01-01T00:00:00Z"}"#,
    r#"{"do":"get","kind":"Pod","name":"a"}"#,
    r#"{"do":"get","kind":"Pod","name":"b"}"#,
    r#"{"do":"get","kind":"Pod","name":"c"}"#,
    r#"{"do":"get","kind":"Pod","name":"h"}"#,
    r#"{"do":"list","kind":"Pod"}"#,
    r#"{"do":"list","kind":"Pod"}"#,
    r#"{"do":"list","kind":"Pod"}"#,
];

/// The next pseudorandom number, by the multiplier and the increment of Knuth's MMIX.
fn rolled(state: u64) -> u64 {
    state
        .wrapping_mul(6_364_136_223_846_793_005)
        .wrapping_add(1_442_695_040_888_963_407)
}

/// Notes the call of a copy of the request.
fn note_call<R: Wait>(rt: &R, log: &Mutex<Log>, name: u64, request: &Request) -> Option<()> {
    let noted = request.clone().ok()?;
    log.lock(rt).call(name, noted).ok()
}

/// Sends one request, and notes it with its reply.
fn ask<S: SharedStore, R: Wait>(
    rt: &R,
    alloc: Global,
    store: &S,
    caller: &mut S::Caller,
    log: &Mutex<Log>,
    name: u64,
    line: &str,
) -> Option<()> {
    let request = request_of(alloc, line)?;
    if note_call(rt, log, name, &request).is_none() {
        drop(request);
        return None;
    }
    let (reply, number) = answered(rt, store, &NoGate, caller, request).ok()?;
    log.lock(rt).reply(name, number, reply).ok()
}

const EXPIRED: &str = "{\"code\":410,\"reason\":\"Expired\"}\n";

const LIST: &str = r#"{"do":"list","kind":"Pod"}"#;

/// The list at a number, and at 0 the present one.
fn list_of(alloc: Global, number: u64) -> Option<Request> {
    match request_of(alloc, LIST)? {
        Request::List {
            kind,
            namespace,
            ..
        } => Some(Request::List {
            kind,
            namespace,
            exact: number,
        }),
        other => {
            drop(other);
            None
        }
    }
}

/// The line of a list at a number, or at 0 of the present one, with the number of the list.
fn listed<S: SharedStore, R: Wait>(
    rt: &R,
    alloc: Global,
    store: &S,
    caller: &mut S::Caller,
    at: u64,
) -> Option<(Vec<u8>, u64)> {
    let request = list_of(alloc, at)?;
    let (reply, number) = answered(rt, store, &NoGate, caller, request).ok()?;
    let line = printed(alloc, &reply);
    drop(reply);
    Some((line.ok()?, number))
}

/// Whether a second list at its number is the same, unless a compaction passed that meanwhile.
fn is_listed_again<S: SharedStore, R: Wait>(
    rt: &R,
    alloc: Global,
    store: &S,
    caller: &mut S::Caller,
) -> Option<bool> {
    let (now, number) = listed(rt, alloc, store, caller, 0)?;
    if number == 0 {
        return Some(true);
    }
    let (again, _) = listed(rt, alloc, store, caller, number)?;
    Some(again.as_slice() == now.as_slice() || again.as_slice() == EXPIRED.as_bytes())
}

/// Compacts the store to what the caller has seen, or lists what it has seen again. Neither is noted.
fn ask_unnoted<S: SharedStore, R: Wait>(
    rt: &R,
    alloc: Global,
    store: &S,
    caller: &mut S::Caller,
    compacts: bool,
) -> Option<()> {
    if compacts {
        let seen = store.seen(caller);
        drop(store.compact(rt, caller, seen));
        return Some(());
    }
    if is_listed_again(rt, alloc, store, caller)? {
        return Some(());
    }
    None
}

/// All requests of one thread, with a caller of its own.
fn work<S: SharedStore, R: Wait>(
    rt: &R,
    alloc: Global,
    store: &S,
    log: &Mutex<Log>,
    name: u64,
) -> Option<()> {
    let mut caller = store.caller(rt).ok()?;
    let mut state = rolled(name.wrapping_add(1));
    for _ in 0..REQUESTS {
        state = rolled(state);
        let chosen = (state >> 33) as usize % 34;
        match ASKED.get(chosen) {
            Some(line) => ask(rt, alloc, store, &mut caller, log, name, *line)?,
            None => ask_unnoted(rt, alloc, store, &mut caller, chosen == 31)?,
        }
    }
    Some(())
}

/// The log has a legal order: by the number of writes, the last of these first, and then as the requests were called.
fn assert_legal<R: Abort>(rt: &R, alloc: Global, log: Log) -> Result<(), Fail> {
    let size = RaceSpec {
        controllers: THREADS as u64,
        shards: 8,
        rounds: REQUESTS,
        replicas: 0,
        operator: false,
    };
    let report = judged(alloc, CAPACITY, &size, log)?.report;
    assert_so(rt, report.legal, "an order that is legal");
    assert_so(rt, report.twice == 0, "no pod that was created twice");
    Ok(())
}

const FREE: &str = r#"{"do":"create","object":{"kind":"Pod","metadata":{"name":"z"}}}"#;

/// Whether a create of a free name is refused because no number is left.
fn is_full<S: SharedStore, R: Wait>(rt: &R, alloc: Global, store: &S) -> Option<bool> {
    let mut caller = store.caller(rt).ok()?;
    let request = request_of(alloc, FREE)?;
    let (reply, _) = answered(rt, store, &NoGate, &mut caller, request).ok()?;
    let is_full = matches!(reply, Reply::Refused(Reason::StoreFull));
    drop(reply);
    Some(is_full)
}

/// Eight threads send random requests until the store is full; their replies are legal.
pub(crate) fn assert_replies_are_legal<S: SharedStore + Sync, R: Threads + Wait + Abort + Sync>(
    rt: &R,
    alloc: Global,
    store: &S,
) -> Result<(), Fail>
where
    S::Caller: Send,
    S::Ticket: Send,
{
    let log = Mutex::new(Log::new(alloc));
    let noted = &log;
    let done = thread::map_indices(
        rt,
        alloc,
        THREADS,
        &|index: usize| { work(rt, alloc, store, noted, index as u64).is_some() },
    )?;
    for (index, is_done) in done.iter().enumerate() {
        assert_numbered(rt, *is_done, "the thread", index);
    }
    assert_so(
        rt,
        is_full(rt, alloc, store) == Some(true),
        "a store that is full",
    );
    assert_legal(rt, alloc, log.into_inner())
}
