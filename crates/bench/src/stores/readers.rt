// What a thread that reads does.
use crate::stores::pods::{PODS, key, namespace};
use objects::{Kind, ReadError};
use racing::SharedStore;
use requests::Reply;
use std::alloc::Global;
use std::sync::Wait;

/// How many reads a thread makes, and of what.
#[derive(Clone, Copy)]
pub(crate) struct Reading {
    pub(crate) reads: u64,
    /// One read in so many is a list, the first one too; none if it is 0.
    pub(crate) lists: u64,
    /// The seed for the numbers that pick the pods.
    pub(crate) seed: u64,
}

/// The next pseudorandom number, by the multiplier and the increment of Knuth's MMIX.
fn rolled(state: u64) -> u64 {
    state
        .wrapping_mul(6_364_136_223_846_793_005)
        .wrapping_add(1_442_695_040_888_963_407)
}

/// How many objects a reply has.
fn objects_in(reply: &Reply) -> u64 {
    match reply {
        Reply::Found(_) => 1,
        Reply::Listed { objects, .. } => objects.as_slice().len() as u64,
        _ => 0,
    }
}

/// How many objects a get of a pod finds, or a list of its namespace.
fn read<S: SharedStore, R: Wait>(
    rt: &R,
    alloc: Global,
    store: &S,
    caller: &mut S::Caller,
    pod: u64,
    is_list: bool,
) -> Result<u64, ReadError> {
    let reply = if is_list {
        let namespace = namespace(alloc, pod)?;
        store.list(rt, caller, Kind::Pod, &namespace)?
    } else {
        let key = key(alloc, pod)?;
        store.get(rt, caller, &key)?
    };
    let count = objects_in(&reply);
    drop(reply);
    Ok(count)
}

/// Reads random pods, and returns how many objects the reads found.
pub(crate) fn read_all<S: SharedStore, R: Wait>(
    rt: &R,
    alloc: Global,
    store: &S,
    caller: &mut S::Caller,
    reading: Reading,
) -> Result<u64, ReadError> {
    let mut found = 0_u64;
    let mut state = reading.seed;
    for index in 0..reading.reads {
        state = rolled(state);
        let pod = (state >> 33) % PODS;
        let is_list = reading.lists != 0 && index % reading.lists == 0;
        let count = read(rt, alloc, store, caller, pod, is_list)?;
        found = found.wrapping_add(count);
    }
    Ok(found)
}
