//! Allocation failures. `rt try --test --fail-alloc N` refuses the Nth allocation of each test. From 1 on, up to an N
//! that no test of this file reaches, it has to pass: one call may run out of memory, and the same call after it has
//! enough.
ghost use Rattle.std.specs.Prelude.{IfSome};

use crate::running::asking::{assert_so, has_reply, write_of};
use crate::running::scenes::{Scene, assert_on};
use racing::SharedStore;
use requests::Reply;
use std::alloc::Global;
use std::process::Abort;
use std::sync::Wait;
use std::test::Fail;
use store::NoGate;

static CREATES: [(&str, u64); 2] = [
    (
        r#"{"do":"create","object":{"kind":"Pod","metadata":{"name":"a"}}}"#,
        1,
    ),
    (
        r#"{"do":"create","object":{"kind":"Pod","metadata":{"name":"b"}}}"#,
        2,
    ),
];

/// The ticket of the create of a pod, or none if memory ran out.
fn handed<S: SharedStore, R: Wait>(
    rt: &R,
    alloc: Global,
    store: &S,
    caller: &mut S::Caller,
    line: &str,
) -> Option<S::Ticket>
    ensures { IfSome result (λ t. S.is_of t caller.new) }
{
    let request = write_of(alloc, line)?;
    store.submit(rt, caller, request, &NoGate).ok()
}

/// The same, once more if memory ran out.
fn handed_again<S: SharedStore, R: Wait>(
    rt: &R,
    alloc: Global,
    store: &S,
    caller: &mut S::Caller,
    line: &str,
) -> Option<S::Ticket>
    ensures { IfSome result (λ t. S.is_of t caller.new) }
{
    match handed(rt, alloc, store, caller, line) {
        Some(ticket) => Some(ticket),
        None => handed(rt, alloc, store, caller, line),
    }
}

/// The reply to a write, after at most two tries.
fn reply_in_two_tries<S: SharedStore>(
    store: &S,
    caller: &mut S::Caller,
    ticket: S::Ticket,
) -> Option<Reply>
    requires { S.is_of ticket caller.old }
{
    let mut ticket = ticket;
    match store.try_reply(&mut ticket, caller) {
        Some(reply) => Some(reply),
        None => store.try_reply(&mut ticket, caller),
    }
}

/// The revision of the object that was created, or 0.
fn created_revision(reply: &Reply) -> u64 {
    match reply {
        Reply::Created(object) => object.meta.revision,
        _ => 0,
    }
}

/// The place of a create and the revision of what it created, or none without a reply.
fn created<S: SharedStore, R: Wait>(
    rt: &R,
    alloc: Global,
    store: &S,
    caller: &mut S::Caller,
    line: &str,
) -> Option<(u64, u64)> {
    let ticket = handed_again(rt, alloc, store, caller, line)?;
    let place = store.place(&ticket);
    let reply = reply_in_two_tries(store, caller, ticket)?;
    let revision = created_revision(&reply);
    drop(reply);
    Some((place, revision))
}

/// A read that was refused memory changes nothing, so that the next one gets its reply.
fn is_read<S: SharedStore, R: Wait>(
    rt: &R,
    alloc: Global,
    store: &S,
    caller: &mut S::Caller,
    line: &str,
    expected: &str,
) -> bool {
    let is_so = match has_reply(rt, alloc, store, caller, line, expected) {
        Some(is_so) => Some(is_so),
        None => has_reply(rt, alloc, store, caller, line, expected),
    };
    is_so == Some(true)
}

static READS: [(&str, &str); 3] = [
    (
        r#"{"do":"get","kind":"Pod","name":"a"}"#,
        r#"{"code":200,"object":{"kind":"Pod","metadata":{"generation":1,"name":"a","namespace":"default","resourceVersion":"1","uid":"00000000-0000-4000-8000-000000000001"}},"result":"Found"}"#,
    ),
    (
        r#"{"do":"list","kind":"Pod"}"#,
        r#"{"code":200,"items":[{"kind":"Pod","metadata":{"generation":1,"name":"a","namespace":"default","resourceVersion":"1","uid":"00000000-0000-4000-8000-000000000001"}},{"kind":"Pod","metadata":{"generation":1,"name":"b","namespace":"default","resourceVersion":"2","uid":"00000000-0000-4000-8000-000000000002"}}],"resourceVersion":"2","result":"Listed"}"#,
    ),
    (
        r#"{"do":"list","kind":"Pod","resourceVersion":"1"}"#,
        r#"{"code":200,"items":[{"kind":"Pod","metadata":{"generation":1,"name":"a","namespace":"default","resourceVersion":"1","uid":"00000000-0000-4000-8000-000000000001"}}],"resourceVersion":"1","result":"Listed"}"#,
    ),
];

/// Creates of a and b, and reads of them, of which at most one call is refused memory.
pub(crate) fn assert_ample<S: SharedStore, R: Wait + Abort>(
    rt: &R,
    alloc: Global,
    store: &S,
) -> Result<(), Fail> {
    let mut caller = store.caller(rt)?;
    // a create that was refused memory has drawn no number, so that the next one has it
    for (line, number) in CREATES.iter() {
        let created = created(rt, alloc, store, &mut caller, *line);
        assert_so(rt, created == Some((*number, *number)), *line);
    }
    for (line, expected) in READS.iter() {
        let is_so = is_read(rt, alloc, store, &mut caller, *line, *expected);
        assert_so(rt, is_so, *line);
    }
    Ok(())
}

/// Each allocation of a store, a caller, a write and a read is refused in turn, and nothing is lost.
#[test]
fn an_allocation_failure_draws_no_number(rt: HostRuntime) -> Result<(), Fail> {
    assert_on(&rt, rt.alloc(), 10, 2, Scene::AllocationFailures)
}
