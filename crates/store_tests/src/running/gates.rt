// Four threads: one is held between the draw of its number and its fill, under its shard's lock. A compaction waits for
// that lock and holds the floor's; and an exact list, which must hold none, waits for the floor's. Or a list of now
// waits for that lock, and must not hold the floor's: then exact lists are answered.
ghost use Rattle.std.specs.Prelude.{◌≡◌, true};
ghost use Rattle.requests.specs.Verdict.{is_write};

use crate::running::asking::{TURNS, assert_so, has_reply, is_printed, request_of, write_of};
use racing::{SharedStore, answered};
use requests::{Reply, Request};
use std::alloc::Global;
use std::process::Abort;
use std::sync::Wait;
use std::sync::atomic::{AtomicU64, Ordering};
use std::test::Fail;
use std::thread::{Threads, join, yield_now};
use store::{Gate, NoGate};

/// What waits for the held lock.
#[derive(Clone, Copy, PartialEq)]
enum Waiter {
    Compaction,
    List,
}

/// A line that creates a pod, and lines about a pod in the other of two shards.
#[derive(Clone, Copy)]
pub(crate) struct Lines {
    waiter: Waiter,
    held: &'static str,
    create: &'static str,
    created: &'static str,
    get: &'static str,
}

pub(crate) const B_IS_HELD: Lines = Lines {
    waiter: Waiter::Compaction,
    held: r#"{"do":"create","object":{"kind":"Pod","metadata":{"name":"b"}}}"#,
    create: r#"{"do":"create","object":{"kind":"Pod","metadata":{"name":"a"}}}"#,
    created: r#"{"code":201,"object":{"kind":"Pod","metadata":{"generation":1,"name":"a","namespace":"default","resourceVersion":"2","uid":"00000000-0000-4000-8000-000000000002"}},"result":"Created"}"#,
    get: r#"{"do":"get","kind":"Pod","name":"a"}"#,
};

pub(crate) const A_IS_HELD: Lines = Lines {
    waiter: Waiter::Compaction,
    held: r#"{"do":"create","object":{"kind":"Pod","metadata":{"name":"a"}}}"#,
    create: r#"{"do":"create","object":{"kind":"Pod","metadata":{"name":"b"}}}"#,
    created: r#"{"code":201,"object":{"kind":"Pod","metadata":{"generation":1,"name":"b","namespace":"default","resourceVersion":"2","uid":"00000000-0000-4000-8000-000000000002"}},"result":"Created"}"#,
    get: r#"{"do":"get","kind":"Pod","name":"b"}"#,
};

pub(crate) const LIST_WAITS: Lines = Lines {
    waiter: Waiter::List,
    ..B_IS_HELD
};

const MISSING: &str = r#"{"code":404,"reason":"NotFound"}"#;

/// No write gets this number, so that a list at it is refused, by the floor's lock alone.
const LIST: &str = r#"{"do":"list","kind":"Pod","resourceVersion":"3"}"#;

const LIST_OF_NOW: &str = r#"{"do":"list","kind":"Pod"}"#;

const TOO_LARGE: &str = r#"{"code":504,"reason":"TooLarge"}"#;

/// How often the other pod is read, and an exact list is sent, while the compaction or the list of now waits: often
/// enough for it to have reached the held lock, and for the exact list to have reached that of the floor.
const READS: u64 = 1_000;

/// Steps that the threads have reached.
#[derive(Drop)]
struct Steps {
    drawn: AtomicU64,
    waits: AtomicU64,
    refused: AtomicU64,
    tried: AtomicU64,
    filled: AtomicU64,
    late: AtomicU64,
}

/// Waits until the step is made, and says whether it was.
fn is_made(step: &AtomicU64) -> bool {
    for _ in 0..TURNS {
        if step.load(Ordering::SeqCst) != 0 {
            return true;
        }
        yield_now();
    }
    false
}

fn make(step: &AtomicU64) {
    step.store(1, Ordering::SeqCst);
}

impl Gate for Steps {
    fn between(&self, number: u64) {
        if number != 1 {
            return;
        }
        make(&self.drawn);
        if !is_made(&self.tried) {
            make(&self.late);
        }
    }

    fn round(&self, _controller: u64, _round: u64) {}
}

fn first<S: SharedStore, R: Wait>(
    rt: &R,
    alloc: Global,
    store: &S,
    mut caller: S::Caller,
    lines: Lines,
    steps: &Steps,
) -> bool {
    let Some(request) = write_of(alloc, lines.held) else {
        return false;
    };
    let submitted = store.submit(rt, &mut caller, request, steps);
    make(&steps.filled);
    match submitted {
        Ok(ticket) => store.place(&ticket) == 1,
        Err(_) => false,
    }
}

/// Whether the reply for the other pod is that it is missing, however often it is read.
fn is_missing<S: SharedStore, R: Wait>(
    rt: &R,
    alloc: Global,
    store: &S,
    caller: &mut S::Caller,
    lines: Lines,
) -> bool {
    for _ in 0..READS {
        yield_now();
        if has_reply(rt, alloc, store, caller, lines.get, MISSING) != Some(true) {
            return false;
        }
    }
    true
}

/// Whether exact lists are refused meanwhile, often. Those beside a compaction wait for it.
fn is_refused(lines: Lines, steps: &Steps) -> bool {
    lines.waiter == Waiter::Compaction || is_made(&steps.refused)
}

/// Whether the create of the other pod gets the reply that it should, after reads of it while the compaction or the
/// list of now waits; or none if a step came too early or too late.
fn second<S: SharedStore, R: Wait>(
    rt: &R,
    alloc: Global,
    store: &S,
    mut caller: S::Caller,
    lines: Lines,
    steps: &Steps,
) -> Option<bool> {
    if !is_made(&steps.waits)
        || !is_missing(rt, alloc, store, &mut caller, lines)
        || !is_refused(lines, steps)
    {
        make(&steps.tried);
        return None;
    }
    let request = write_of(alloc, lines.create)?;
    let reply = answered_in_steps(rt, store, &mut caller, request, steps)?;
    let is_so = is_printed(alloc, &reply, lines.created);
    drop(reply);
    is_so.ok()
}

/// Whether a try finds nothing yet.
fn is_early<S: SharedStore>(store: &S, caller: &mut S::Caller, ticket: &mut S::Ticket) -> bool
    requires { S.is_of ticket.old caller.old }
    ensures { S.is_of ticket.new caller.new }
{
    match store.try_reply(ticket, caller) {
        Some(reply) => {
            drop(reply);
            false
        }
        None => true,
    }
}

/// The reply to the third try: the first one is made before the fill of the other thread's number, and finds nothing; so does
/// the second one, which only raises the frontier to that number.
fn third_try<S: SharedStore>(
    store: &S,
    caller: &mut S::Caller,
    ticket: S::Ticket,
    steps: &Steps,
) -> Option<Reply>
    requires { S.is_of ticket caller.old }
{
    let mut ticket = ticket;
    let first = is_early(store, caller, &mut ticket);
    make(&steps.tried);
    let filled = is_made(&steps.filled);
    let second = is_early(store, caller, &mut ticket);
    let seen = store.seen(caller);
    let reply = store.try_reply(&mut ticket, caller);
    if first && filled && second && seen == 1 {
        return reply;
    }
    drop(reply);
    None
}

/// The reply to a write, with tries at these steps.
fn answered_in_steps<S: SharedStore, R: Wait>(
    rt: &R,
    store: &S,
    caller: &mut S::Caller,
    request: Request,
    steps: &Steps,
) -> Option<Reply>
    requires { is_write request ≡ true }
{
    match store.submit(rt, caller, request, &NoGate) {
        Ok(ticket) => third_try(store, caller, ticket, steps),
        Err(_) => None,
    }
}

/// Whether a compaction to 0 gets its reply.
fn is_compacted<S: SharedStore, R: Wait>(rt: &R, store: &S, caller: &mut S::Caller) -> bool {
    let reply = store.compact(rt, caller, 0);
    let is_so = matches!(reply, Reply::Compacted { revision: 0 });
    drop(reply);
    is_so
}

/// Whether a list of now is answered.
fn is_listed<S: SharedStore, R: Wait>(
    rt: &R,
    alloc: Global,
    store: &S,
    caller: &mut S::Caller,
) -> bool {
    let Some(request) = request_of(alloc, LIST_OF_NOW) else {
        return false;
    };
    match answered(rt, store, &NoGate, caller, request) {
        Ok((reply, _)) => {
            let is_so = matches!(
                reply,
                Reply::Listed {
                    objects: _,
                    revision: _,
                }
            );
            drop(reply);
            is_so
        }
        Err(_) => false,
    }
}

/// Whether the compaction or the list of now, which begins while the first write is held, gets its reply.
fn third<S: SharedStore, R: Wait>(
    rt: &R,
    alloc: Global,
    store: &S,
    mut caller: S::Caller,
    lines: Lines,
    steps: &Steps,
) -> bool {
    if !is_made(&steps.drawn) {
        return false;
    }
    make(&steps.waits);
    match lines.waiter {
        Waiter::Compaction => is_compacted(rt, store, &mut caller),
        Waiter::List => is_listed(rt, alloc, store, &mut caller),
    }
}

/// Whether a list above all numbers is refused, each time that it is sent until the other write is tried.
fn fourth<S: SharedStore, R: Wait>(
    rt: &R,
    alloc: Global,
    store: &S,
    mut caller: S::Caller,
    steps: &Steps,
) -> bool {
    if !is_made(&steps.waits) {
        return false;
    }
    for turn in 0..TURNS {
        if has_reply(rt, alloc, store, &mut caller, LIST, TOO_LARGE) != Some(true) {
            return false;
        }
        if turn == READS {
            make(&steps.refused);
        }
        if steps.tried.load(Ordering::SeqCst) != 0 {
            return true;
        }
        yield_now();
    }
    false
}

/// The two writers at once.
fn writers<S: SharedStore + Sync, R: Threads + Wait + Sync>(
    rt: &R,
    alloc: Global,
    store: &S,
    one: S::Caller,
    two: S::Caller,
    lines: Lines,
    steps: &Steps,
) -> (bool, Option<bool>)
where
    S::Caller: Send,
    S::Ticket: Send,
{
    join(
        rt,
        || first(rt, alloc, store, one, lines, steps),
        || second(rt, alloc, store, two, lines, steps),
    )
}

/// The compaction, or the list of now, and the exact list at once.
fn waiters<S: SharedStore + Sync, R: Threads + Wait + Sync>(
    rt: &R,
    alloc: Global,
    store: &S,
    three: S::Caller,
    four: S::Caller,
    lines: Lines,
    steps: &Steps,
) -> (bool, bool)
where
    S::Caller: Send,
    S::Ticket: Send,
{
    join(
        rt,
        || third(rt, alloc, store, three, lines, steps),
        || fourth(rt, alloc, store, four, steps),
    )
}

/// A shard works while another is held, a compaction or a list of now waits for that one, and an exact list for the
/// compaction alone; and its write waits for the number before its own.
pub(crate) fn assert_steps<S: SharedStore + Sync, R: Threads + Wait + Abort + Sync>(
    rt: &R,
    alloc: Global,
    store: &S,
    lines: Lines,
) -> Result<(), Fail>
where
    S::Caller: Send,
    S::Ticket: Send,
{
    let one = store.caller(rt)?;
    let two = store.caller(rt)?;
    let three = store.caller(rt)?;
    let four = store.caller(rt)?;
    let steps = Steps {
        drawn: AtomicU64::new(0),
        waits: AtomicU64::new(0),
        refused: AtomicU64::new(0),
        tried: AtomicU64::new(0),
        filled: AtomicU64::new(0),
        late: AtomicU64::new(0),
    };
    let made = &steps;
    let ((placed, written), (waited, refused)) = join(
        rt,
        || writers(rt, alloc, store, one, two, lines, made),
        || waiters(rt, alloc, store, three, four, lines, made),
    );
    let in_time = steps.late.load(Ordering::SeqCst) == 0;
    drop(steps);
    assert_so(rt, placed, "the number 1 of the first create");
    assert_so(rt, in_time, "a step that is in time");
    assert_so(rt, written == Some(true), "the reply to the other create");
    assert_so(rt, waited, "the reply to the compaction or the list of now");
    assert_so(rt, refused, "the replies to the exact list");
    Ok(())
}
