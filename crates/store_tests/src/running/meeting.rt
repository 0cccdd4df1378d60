// Two callers that meet.
use crate::running::asking::{assert_reply, assert_so, request_of};
use racing::{SharedStore, answered};
use std::alloc::Global;
use std::process::Abort;
use std::sync::Wait;
use std::test::Fail;
use store::{Caller, Naming, NoGate, Sharding, Store};

const CREATE: &str = r#"{"do":"create","object":{"kind":"Pod","metadata":{"name":"a"}}}"#;

/// The place of the create of a, or 0 if memory ran out.
fn place_of_a<S: SharedStore, R: Wait>(
    rt: &R,
    alloc: Global,
    store: &S,
    caller: &mut S::Caller,
) -> u64 {
    let Some(request) = request_of(alloc, CREATE) else {
        return 0;
    };
    match answered(rt, store, &NoGate, caller, request) {
        Ok((reply, place)) => {
            drop(reply);
            place
        }
        Err(_) => 0,
    }
}

/// The first caller creates a; the second, which has seen nothing, meets the first.
fn meet_after_a_create<H: Sharding, N: Naming, R: Wait + Abort>(
    rt: &R,
    alloc: Global,
    store: &Store<H, N>,
    first: &mut Caller<H, N>,
    second: &mut Caller<H, N>,
) {
    let place = place_of_a(rt, alloc, store, first);
    assert_so(rt, place == 1, "the place of the create of a");
    assert_so(rt, second.seen() == 0, "what the second has seen before");
    store.meet(first, second);
    assert_so(rt, second.seen() >= 1, "what the second has seen then");
}

/// Whose turn it is: the second caller's, or else the first's.
static TURNS: [(bool, &str, &str); 6] = [
    (
        true,
        r#"{"do":"get","kind":"Pod","name":"a"}"#,
        r#"{"code":200,"object":{"kind":"Pod","metadata":{"generation":1,"name":"a","namespace":"default","resourceVersion":"1","uid":"00000000-0000-4000-8000-000000000001"}},"result":"Found"}"#,
    ),
    (
        true,
        r#"{"do":"update","object":{"kind":"Pod","metadata":{"labels":{"x":"y"},"name":"a"}}}"#,
        r#"{"code":200,"object":{"kind":"Pod","metadata":{"generation":1,"labels":{"x":"y"},"name":"a","namespace":"default","resourceVersion":"2","uid":"00000000-0000-4000-8000-000000000001"}},"result":"Updated"}"#,
    ),
    (
        true,
        r#"{"do":"compact","resourceVersion":"2"}"#,
        r#"{"code":200,"resourceVersion":"2","result":"Compacted"}"#,
    ),
    (
        false,
        r#"{"do":"update","object":{"kind":"Pod","metadata":{"name":"a","resourceVersion":"1"}}}"#,
        r#"{"code":409,"reason":"Conflict"}"#,
    ),
    (
        true,
        r#"{"do":"create","object":{"kind":"Pod","metadata":{"name":"b"}}}"#,
        r#"{"code":201,"object":{"kind":"Pod","metadata":{"generation":1,"name":"b","namespace":"default","resourceVersion":"3","uid":"00000000-0000-4000-8000-000000000003"}},"result":"Created"}"#,
    ),
    (
        false,
        r#"{"do":"create","object":{"kind":"Pod","metadata":{"name":"d"}}}"#,
        r#"{"code":507,"reason":"StoreFull"}"#,
    ),
];

/// Both write in turn, up to a full store.
fn assert_turns<S: SharedStore, R: Wait + Abort>(
    rt: &R,
    alloc: Global,
    store: &S,
    first: &mut S::Caller,
    second: &mut S::Caller,
) {
    for (of_second, line, expected) in TURNS.iter() {
        if *of_second {
            assert_reply(rt, alloc, store, second, *line, *expected);
        } else {
            assert_reply(rt, alloc, store, first, *line, *expected);
        }
    }
}

/// What one caller has seen, another has seen after they met.
pub(crate) fn assert_meeting<H: Sharding, N: Naming, R: Wait + Abort>(
    rt: &R,
    alloc: Global,
    store: &Store<H, N>,
) -> Result<(), Fail> {
    let mut first = store.caller(rt)?;
    let mut second = store.caller(rt)?;
    meet_after_a_create(rt, alloc, store, &mut first, &mut second);
    assert_turns(rt, alloc, store, &mut first, &mut second);
    Ok(())
}
