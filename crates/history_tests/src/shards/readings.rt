// What is read of a shard. An object is recognized by its resource version.
use objects::{Key, Kind, Object, Text};
use std::alloc::Global;
use std::process::Abort;
use std::test::Fail;
use versions::Shard;

/// The resource version of the object that the key had at a number.
fn resource_version_at(rt: &impl Abort, shard: &Shard, key: &Key, number: u64) -> Option<u64> {
    assert!(rt; shard.floor() <= number);
    Some(shard.at(key, number)?.meta.revision)
}

/// Whether the key had objects of these resource versions, or none, at these numbers.
pub(crate) fn reads(
    rt: &impl Abort,
    shard: &Shard,
    key: &Key,
    readings: &[(u64, Option<u64>)],
) -> bool {
    for (number, expected) in readings {
        if resource_version_at(rt, shard, key, *number) != *expected {
            return false;
        }
    }
    true
}

/// The number of a key's newest record, and the resource version of its object.
pub(crate) fn newest(shard: &Shard, key: &Key) -> Option<(u64, Option<u64>)> {
    let (number, object) = shard.newest(key)?;
    match object {
        Some(object) => Some((number, Some(object.meta.revision))),
        None => Some((number, None)),
    }
}

/// The objects of a kind in a namespace at a number.
fn objects_at(
    rt: &impl Abort,
    alloc: Global,
    shard: &Shard,
    collection: (Kind, &str),
    number: u64,
) -> Result<Vec<Object>, Fail> {
    assert!(rt; shard.floor() <= number);
    let (kind, namespace) = collection;
    let namespace = Text::copy_of(alloc, namespace)?;
    let objects = shard.list_at(kind, &namespace, number);
    drop(namespace);
    Ok(objects?)
}

/// Whether the objects are those of these names and resource versions, in that order.
fn are(objects: &[Object], expected: &[(&str, u64)]) -> bool {
    for (object, (name, resource_version)) in objects.iter().zip(expected.iter()) {
        if object.key.name.as_str() != *name || object.meta.revision != *resource_version {
            return false;
        }
    }
    objects.len() == expected.len()
}

/// Whether a list at a number has the objects of these names and resource versions, in that order.
pub(crate) fn lists(
    rt: &impl Abort,
    alloc: Global,
    shard: &Shard,
    collection: (Kind, &str),
    number: u64,
    expected: &[(&str, u64)],
) -> Result<bool, Fail> {
    let objects = objects_at(rt, alloc, shard, collection, number)?;
    let is_so = are(objects.as_slice(), expected);
    drop(objects);
    Ok(is_so)
}
