//! Keys in a hash map: no command has one.
use crate::object_texts::asserts::assert_so;
use objects::{Key, Kind, ReadError};
use std::alloc::{AllocError, Global};
use std::hash::{DefaultHasher, Hash, Hasher};

fn hash_of(key: &Key) -> u64 {
    let mut hasher = DefaultHasher::new();
    key.hash(&mut hasher);
    hasher.finish()
}

fn are_told_apart(alloc: Global) -> Result<bool, ReadError> {
    let key = Key::of(alloc, Kind::Pod, "default", "a")?;
    let copy: Result<_, AllocError> = key.clone();
    let is_alike = copy.is_ok_and(|copy| hash_of(&copy) == hash_of(&key));
    let other = Key::of(alloc, Kind::Pod, "default", "b");
    let is_other = other.is_ok_and(|other| hash_of(&other) != hash_of(&key));
    drop(key);
    Ok(is_alike && is_other)
}

#[test]
fn equal_keys_are_hashed_alike(rt: HostRuntime) {
    assert_so(
        &rt,
        are_told_apart(rt.alloc()),
        "a key, its copy and another",
    );
}
