// The replies to one caller, in lines that were worked out by hand, and each scene on a store of its own.
use crate::running::crowds::CAPACITY;
use crate::running::scenes::{Scene, assert_on};
use std::test::Fail;

/// A pod is created, read, changed at its version and read again; the past is listed, compacted away and refused; then
/// the store is full, and lists its pods in the order of their names. No get and no refused write keeps the past from
/// being listed.
pub(crate) static ROWS: [(&str, &str); 23] = [
    (
        r#"{"do":"list","kind":"Pod"}"#,
        r#"{"code":200,"items":[],"resourceVersion":"0","result":"Listed"}"#,
    ),
    (
        r#"{"do":"create","object":{"kind":"Pod","metadata":{"name":"web-0"}}}"#,
        r#"{"code":201,"object":{"kind":"Pod","metadata":{"generation":1,"name":"web-0","namespace":"default","resourceVersion":"1","uid":"00000000-0000-4000-8000-000000000001"}},"result":"Created"}"#,
    ),
    (
        r#"{"do":"get","kind":"Pod","name":"web-0"}"#,
        r#"{"code":200,"object":{"kind":"Pod","metadata":{"generation":1,"name":"web-0","namespace":"default","resourceVersion":"1","uid":"00000000-0000-4000-8000-000000000001"}},"result":"Found"}"#,
    ),
    (
        r#"{"do":"update","object":{"kind":"Pod","metadata":{"labels":{"a":"b"},"name":"web-0","resourceVersion":"1"}}}"#,
        r#"{"code":200,"object":{"kind":"Pod","metadata":{"generation":1,"labels":{"a":"b"},"name":"web-0","namespace":"default","resourceVersion":"2","uid":"00000000-0000-4000-8000-000000000001"}},"result":"Updated"}"#,
    ),
    (
        r#"{"do":"get","kind":"Pod","name":"web-0"}"#,
        r#"{"code":200,"object":{"kind":"Pod","metadata":{"generation":1,"labels":{"a":"b"},"name":"web-0","namespace":"default","resourceVersion":"2","uid":"00000000-0000-4000-8000-000000000001"}},"result":"Found"}"#,
    ),
    (
        r#"{"do":"create","object":{"kind":"Pod","metadata":{"name":"web-0"}}}"#,
        r#"{"code":409,"reason":"AlreadyExists"}"#,
    ),
    (
        r#"{"do":"list","kind":"Pod","resourceVersion":"1"}"#,
        r#"{"code":200,"items":[{"kind":"Pod","metadata":{"generation":1,"name":"web-0","namespace":"default","resourceVersion":"1","uid":"00000000-0000-4000-8000-000000000001"}}],"resourceVersion":"1","result":"Listed"}"#,
    ),
    (
        r#"{"do":"list","kind":"Pod","resourceVersion":"3"}"#,
        r#"{"code":504,"reason":"TooLarge"}"#,
    ),
    (
        r#"{"do":"compact","resourceVersion":"3"}"#,
        r#"{"code":504,"reason":"TooLarge"}"#,
    ),
    (
        r#"{"do":"compact","resourceVersion":"2"}"#,
        r#"{"code":200,"resourceVersion":"2","result":"Compacted"}"#,
    ),
    (
        r#"{"do":"list","kind":"Pod","resourceVersion":"1"}"#,
        r#"{"code":410,"reason":"Expired"}"#,
    ),
    (
        r#"{"do":"list","kind":"Pod","resourceVersion":"2"}"#,
        r#"{"code":200,"items":[{"kind":"Pod","metadata":{"generation":1,"labels":{"a":"b"},"name":"web-0","namespace":"default","resourceVersion":"2","uid":"00000000-0000-4000-8000-000000000001"}}],"resourceVersion":"2","result":"Listed"}"#,
    ),
    (
        r#"{"do":"list","kind":"Pod","namespace":"other","resourceVersion":"2"}"#,
        r#"{"code":200,"items":[],"resourceVersion":"2","result":"Listed"}"#,
    ),
    (
        r#"{"do":"compact","resourceVersion":"1"}"#,
        r#"{"code":410,"reason":"Expired"}"#,
    ),
    (
        r#"{"do":"compact","resourceVersion":"2"}"#,
        r#"{"code":200,"resourceVersion":"2","result":"Compacted"}"#,
    ),
    (
        r#"{"do":"create","object":{"kind":"Pod","metadata":{"name":"a"}}}"#,
        r#"{"code":201,"object":{"kind":"Pod","metadata":{"generation":1,"name":"a","namespace":"default","resourceVersion":"3","uid":"00000000-0000-4000-8000-000000000003"}},"result":"Created"}"#,
    ),
    (
        r#"{"do":"create","object":{"kind":"Pod","metadata":{"name":"a"}}}"#,
        r#"{"code":409,"reason":"AlreadyExists"}"#,
    ),
    (
        r#"{"do":"create","object":{"kind":"Pod","metadata":{"name":"c"}}}"#,
        r#"{"code":507,"reason":"StoreFull"}"#,
    ),
    (
        r#"{"do":"update","object":{"kind":"Pod","metadata":{"labels":{"a":"b"},"name":"web-0","resourceVersion":"1"}}}"#,
        r#"{"code":409,"reason":"Conflict"}"#,
    ),
    (
        r#"{"do":"delete","kind":"Pod","name":"c"}"#,
        r#"{"code":404,"reason":"NotFound"}"#,
    ),
    (
        r#"{"do":"delete","kind":"Pod","name":"web-0","at":"2024-01-01T00:00:00Z"}"#,
        r#"{"code":507,"reason":"StoreFull"}"#,
    ),
    (
        r#"{"do":"get","kind":"Pod","name":"c"}"#,
        r#"{"code":404,"reason":"NotFound"}"#,
    ),
    (
        r#"{"do":"list","kind":"Pod"}"#,
        r#"{"code":200,"items":[{"kind":"Pod","metadata":{"generation":1,"name":"a","namespace":"default","resourceVersion":"3","uid":"00000000-0000-4000-8000-000000000003"}},{"kind":"Pod","metadata":{"generation":1,"labels":{"a":"b"},"name":"web-0","namespace":"default","resourceVersion":"2","uid":"00000000-0000-4000-8000-000000000001"}}],"resourceVersion":"3","result":"Listed"}"#,
    ),
];

#[test]
fn stores_of_few_and_of_many_shards_answer(rt: HostRuntime) -> Result<(), Fail> {
    assert_on(&rt, rt.alloc(), 3, 1, Scene::Rows)?;
    assert_on(&rt, rt.alloc(), 3, 2, Scene::Rows)?;
    assert_on(&rt, rt.alloc(), 3, 64, Scene::Rows)
}

/// What one caller has seen, another has seen after they met. Two callers over two shards, up to a full store.
#[test]
fn callers_that_meet(rt: HostRuntime) -> Result<(), Fail> {
    assert_on(&rt, rt.alloc(), 3, 2, Scene::Meeting)
}

#[test]
fn the_last_of_4097_callers_is_refused(rt: HostRuntime) -> Result<(), Fail> {
    assert_on(&rt, rt.alloc(), 10, 1, Scene::Callers)
}

/// A shard works while another is held, and its write waits for the number before its own. No list that waits for a compaction
/// holds it, whichever of the two it is. No list of now holds what compactions wait for.
#[test]
fn shards_work_at_once(rt: HostRuntime) -> Result<(), Fail> {
    assert_on(&rt, rt.alloc(), 10, 2, Scene::Gate)?;
    assert_on(&rt, rt.alloc(), 10, 2, Scene::OtherGate)?;
    assert_on(&rt, rt.alloc(), 10, 2, Scene::ListGate)
}

/// Eight threads send random requests; their replies are legal.
#[test]
fn replies_to_eight_threads_are_legal(rt: HostRuntime) -> Result<(), Fail> {
    assert_on(&rt, rt.alloc(), CAPACITY, 8, Scene::Crowd)
}
