//! The records of two pods and a claim, and what is read of them before compactions, after each, and after later
//! records. All of it was worked out by hand.
use crate::shards::readings::{lists, newest, reads};
use crate::shards::rising::Rising;
use objects::{Key, Kind, Object, read_object};
use std::alloc::Global;
use std::process::Abort;
use std::test::Fail;
use versions::Shard;

/// Keys by kind, namespace and name. The other pod is in another namespace.
const A: (Kind, &str, &str) = (Kind::Pod, "default", "a");

const B: (Kind, &str, &str) = (Kind::Pod, "default", "b");

const OTHER: (Kind, &str, &str) = (Kind::Pod, "default-a", "a");

const CLAIM: (Kind, &str, &str) = (Kind::PersistentVolumeClaim, "default", "a");

/// A number, the key that has a record there, and the object, or none after a removal.
type Record = (
    u64,
    (Kind, &'static str, &'static str),
    Option<&'static str>,
);

/// A pod is created and changes twice. The first record of another is a removal.
static FIRST: [Record; 4] = [
    (
        2,
        A,
        Some(r#"{"kind":"Pod","metadata":{"name":"a","resourceVersion":"20"}}"#),
    ),
    (3, B, None),
    (
        5,
        A,
        Some(r#"{"kind":"Pod","metadata":{"name":"a","resourceVersion":"50"}}"#),
    ),
    (
        7,
        A,
        Some(r#"{"kind":"Pod","metadata":{"name":"a","resourceVersion":"70"}}"#),
    ),
];

/// Further keys, out of the order of their names; then the first pod is removed, and created again.
static LATER: [Record; 5] = [
    (
        9,
        B,
        Some(r#"{"kind":"Pod","metadata":{"name":"b","resourceVersion":"90"}}"#),
    ),
    (
        10,
        OTHER,
        Some(
            r#"{"kind":"Pod","metadata":{"name":"a","namespace":"default-a","resourceVersion":"100"}}"#,
        ),
    ),
    (
        11,
        CLAIM,
        Some(r#"{"kind":"PersistentVolumeClaim","metadata":{"name":"a","resourceVersion":"110"}}"#),
    ),
    (12, A, None),
    (
        14,
        A,
        Some(r#"{"kind":"Pod","metadata":{"name":"a","resourceVersion":"140"}}"#),
    ),
];

/// What the first pod is at numbers on both sides of its first records.
static BEFORE: [(u64, Option<u64>); 8] = [
    (0, None),
    (1, None),
    (2, Some(20)),
    (4, Some(20)),
    (5, Some(50)),
    (6, Some(50)),
    (7, Some(70)),
    (u64::MAX, Some(70)),
];

/// What it is after the later records.
static BEHIND: [(u64, Option<u64>); 6] = [
    (7, Some(70)),
    (11, Some(70)),
    (12, None),
    (13, None),
    (14, Some(140)),
    (u64::MAX, Some(140)),
];

/// Compactions to numbers, and after each how many records and which floor it leaves, and what the first pod is there.
static COMPACTIONS: [(u64, usize, u64, u64); 3] = [
    (6, 3, 6, 50),
    // It drops nothing, as its number is below the floor.
    (4, 3, 6, 50),
    (7, 2, 7, 70),
];

/// A kind and a namespace, a number, and the names and resource versions of what is there.
type Listing = ((Kind, &'static str), u64, &'static [(&'static str, u64)]);

static LISTS: [Listing; 9] = [
    ((Kind::Pod, "default"), 8, &[("a", 70)]),
    ((Kind::Pod, "default"), 9, &[("a", 70), ("b", 90)]),
    ((Kind::Pod, "default"), 12, &[("b", 90)]),
    ((Kind::Pod, "default"), 14, &[("a", 140), ("b", 90)]),
    ((Kind::Pod, "default-a"), 14, &[("a", 100)]),
    ((Kind::PersistentVolumeClaim, "default"), 10, &[]),
    ((Kind::PersistentVolumeClaim, "default"), 11, &[("a", 110)]),
    ((Kind::StatefulSet, "default"), 14, &[]),
    // No object can be in it.
    ((Kind::Pod, "X"), 14, &[]),
];

fn key_of(alloc: Global, parts: (Kind, &str, &str)) -> Result<Key, Fail> {
    let (kind, namespace, name) = parts;
    Ok(Key::of(alloc, kind, namespace, name)?)
}

fn state(alloc: Global, object: Option<&str>) -> Result<Option<Object>, Fail> {
    match object {
        Some(text) => Ok(Some(read_object(alloc, text.as_bytes())?.object)),
        None => Ok(None),
    }
}

/// Pushes a record of a key, with that object or none.
fn push(
    rt: &impl Abort,
    alloc: Global,
    rising: &mut Rising,
    number: u64,
    key: &Key,
    object: Option<&str>,
) -> Result<(), Fail> {
    let state = state(alloc, object)?;
    rising.push(rt, number, key, state)
}

fn push_record(
    rt: &impl Abort,
    alloc: Global,
    rising: &mut Rising,
    record: &Record,
) -> Result<(), Fail> {
    let (number, parts, object) = record;
    let key = key_of(alloc, *parts)?;
    let pushed = push(rt, alloc, rising, *number, &key, *object);
    drop(key);
    pushed
}

fn push_all(
    rt: &impl Abort,
    alloc: Global,
    rising: &mut Rising,
    records: &[Record],
) -> Result<(), Fail> {
    for record in records {
        push_record(rt, alloc, rising, record)?;
    }
    Ok(())
}

fn assert_so(rt: &impl Abort, holds: bool, what: &str) {
    assert!(rt; holds, "of {what}");
}

fn has_size(shard: &Shard, records: usize, floor: u64) -> bool {
    shard.records() == records && shard.floor() == floor
}

/// Whether a key has these versions at these numbers, and that newest record.
fn is_key(
    rt: &impl Abort,
    alloc: Global,
    shard: &Shard,
    parts: (Kind, &str, &str),
    readings: &[(u64, Option<u64>)],
    last: Option<(u64, Option<u64>)>,
) -> Result<bool, Fail> {
    let key = key_of(alloc, parts)?;
    let is_so = reads(rt, shard, &key, readings) && newest(shard, &key) == last;
    drop(key);
    Ok(is_so)
}

/// Whether the second pod has only its removal.
fn is_removed(rt: &impl Abort, alloc: Global, shard: &Shard, number: u64) -> Result<bool, Fail> {
    let readings = [(number, None)];
    is_key(rt, alloc, shard, B, readings.as_slice(), Some((3, None)))
}

fn assert_before_compactions(rt: &impl Abort, alloc: Global, shard: &Shard) -> Result<(), Fail> {
    assert_so(rt, has_size(shard, 4, 0), "four records");
    let last = Some((7, Some(70)));
    let is_read = is_key(rt, alloc, shard, A, BEFORE.as_slice(), last)?;
    assert_so(rt, is_read, "the first pod");
    let is_unknown = is_key(rt, alloc, shard, CLAIM, [(9, None)].as_slice(), None)?;
    assert_so(rt, is_unknown, "a claim with no record");
    assert_so(rt, is_removed(rt, alloc, shard, 3)?, "the second pod");
    Ok(())
}

/// Compacts to a number, and asserts how many records and which floor this leaves, and what the first pod is at the floor.
/// What the pods are now is always the same.
fn assert_compacts(
    rt: &impl Abort,
    alloc: Global,
    rising: &mut Rising,
    row: &(u64, usize, u64, u64),
) -> Result<(), Fail> {
    let (number, records, floor, resource_version) = row;
    rising.compact(*number);
    let shard = rising.shard();
    assert_so(
        rt,
        has_size(shard, *records, *floor),
        "the size that is left",
    );
    let readings = [(*floor, Some(*resource_version)), (7, Some(70))];
    let last = Some((7, Some(70)));
    let is_read = is_key(rt, alloc, shard, A, readings.as_slice(), last)?;
    assert_so(rt, is_read, "the first pod behind a compaction");
    assert_so(
        rt,
        is_removed(rt, alloc, shard, *floor)?,
        "the removal that stays",
    );
    Ok(())
}

fn assert_lists(rt: &impl Abort, alloc: Global, shard: &Shard) -> Result<(), Fail> {
    for (collection, number, expected) in LISTS.iter() {
        let is_so = lists(rt, alloc, shard, *collection, *number, *expected)?;
        assert!(rt; is_so, "a list at {number}");
    }
    Ok(())
}

fn assert_behind_later_records(rt: &impl Abort, alloc: Global, shard: &Shard) -> Result<(), Fail> {
    assert_so(rt, has_size(shard, 7, 7), "seven records");
    let last = Some((14, Some(140)));
    let is_read = is_key(rt, alloc, shard, A, BEHIND.as_slice(), last)?;
    assert_so(rt, is_read, "the first pod, which went and came again");
    assert_lists(rt, alloc, shard)
}

fn assert_story(rt: &impl Abort, alloc: Global, rising: &mut Rising) -> Result<(), Fail> {
    push_all(rt, alloc, rising, FIRST.as_slice())?;
    assert_before_compactions(rt, alloc, rising.shard())?;
    for row in COMPACTIONS.iter() {
        assert_compacts(rt, alloc, rising, row)?;
    }
    push_all(rt, alloc, rising, LATER.as_slice())?;
    assert_behind_later_records(rt, alloc, rising.shard())
}

#[test]
fn a_key_is_what_its_last_record_says(rt: HostRuntime) -> Result<(), Fail> {
    let mut rising = Rising::new(rt.alloc());
    let asserted = assert_story(&rt, rt.alloc(), &mut rising);
    drop(rising);
    asserted
}
