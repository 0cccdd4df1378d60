// How long one shard takes for many pushes, with a compaction after each and with none, and for as many readings of one key
// with a tenth as many versions.
//
// A compaction should cost what it drops, and not a walk over all keys; the first load keeps 1,000 records, the second
// all of them. A reading should halve the records of its key, and not walk through them. All objects share one body, so
// that what is measured is the shard.
ghost use Rattle.std.specs.Prelude.{◌+◌};
ghost use Rattle.versions.specs.Records.{IsAbove};

use crate::timing::report;
use anyhow::Result;
use objects::{Key, Kind, Memory, Object, read_object};
use requests::Version;
use std::alloc::Global;
use std::time::Instant;
use versions::Shard;

const OBJECT: &str =
    r#"{"kind":"Pod","metadata":{"labels":{"app":"web"},"name":"web-0"},"spec":{"containers":[{"image":"web:1","name":"web"}],"nodeName":"node-1"}}"#;

/// How many pushes and how many readings there are by default.
const COUNT: u64 = 100_000;

const KEYS: u64 = 1_000;

/// There are so many readings for each version.
const READ_AGAIN: u64 = 10;

/// A step from one reading to the next, which reaches all numbers in turn if it has no factor in common with how many
/// there are.
const STEP: u64 = 61_803;

/// A shard, and a number that none of its records is above.
#[derive(Drop)]
struct Rising {
    shard: Shard,
    last: u64,
    ghost above: { IsAbove shard.records (last + 1) },
}

impl Rising {
    fn new(alloc: Global) -> Rising {
        Rising {
            shard: Shard::new(alloc),
            last: 0,
        }
    }

    fn shard(&self) -> &Shard {
        &self.shard
    }

    /// Gives the key that object at a number. Returns whether it did: the number has to be above those of all records.
    fn push(&mut self, number: u64, key: &Key, object: &Object) -> Result<bool, Memory> {
        if number <= self.last {
            return Ok(false);
        }
        let version = Version {
            key: key.clone()?,
            state: Some(object.clone()?),
        };
        self.shard.make_room(key)?;
        self.shard.push(number, version);
        self.last = number;
        Ok(true)
    }

    fn compact(&mut self, number: u64) {
        self.shard.compact(number);
    }
}

fn pods(alloc: Global, count: u64) -> Result<Vec<Key>> {
    let mut keys = Vec::new(alloc);
    for number in 0..count {
        let name = format!(in alloc; "web-{number}")?;
        let key = Key::of(alloc, Kind::Pod, "default", name.as_str())?;
        keys.push(key)?;
    }
    Ok(keys)
}

/// Pushes at the numbers from 1 on, which use the keys in turn; with a compaction to each number, or with none.
fn push_all(
    rising: &mut Rising,
    keys: &[Key],
    object: &Object,
    pushes: u64,
    compacts: bool,
) -> Result<()> {
    for (number, key) in (1..=pushes).zip(keys.iter().cycle()) {
        rising.push(number, key, object)?;
        if compacts {
            rising.compact(number);
        }
    }
    Ok(())
}

/// How many records are left of so many pushes over so many keys.
fn records_after(
    alloc: Global,
    object: &Object,
    pushes: u64,
    keys: u64,
    compacts: bool,
) -> Result<usize> {
    let keys = pods(alloc, keys)?;
    let mut rising = Rising::new(alloc);
    let pushed = push_all(&mut rising, keys.as_slice(), object, pushes, compacts);
    let records = rising.shard().records();
    drop(rising);
    pushed?;
    Ok(records)
}

/// How many readings of one key with so many versions find an object, at numbers spread over all of them.
fn found_in(alloc: Global, object: &Object, versions: u64, readings: u64) -> Result<u64> {
    let keys = pods(alloc, 1)?;
    let mut rising = Rising::new(alloc);
    let pushed = push_all(&mut rising, keys.as_slice(), object, versions, false);
    let found = found(rising.shard(), keys.as_slice(), versions, readings);
    drop(rising);
    pushed?;
    Ok(found)
}

fn found(shard: &Shard, keys: &[Key], versions: u64, readings: u64) -> u64 {
    let Some(key) = keys.first() else {
        return 0;
    };
    if versions == 0 {
        return 0;
    }
    let mut found = 0_u64;
    let mut spread = 0_u64;
    for _ in 0..readings {
        spread = spread.wrapping_add(STEP);
        let number = 1 + spread % versions;
        if shard.floor() <= number && shard.at(key, number).is_some() {
            found = found.wrapping_add(1);
        }
    }
    found
}

/// Measures the pushes, with a compaction after each or with none.
fn pushes(rt: &HostRuntime, object: &Object, load: &str, count: u64, compacts: bool) -> Result<()> {
    let start = Instant::now(rt)?;
    let records = records_after(rt.alloc(), object, count, KEYS, compacts)?;
    let elapsed = start.elapsed(rt)?;
    println!(rt; "records after {load}: {records}")?;
    report(rt, load, count, elapsed)
}

/// Measures the readings.
fn readings(rt: &HostRuntime, object: &Object, count: u64) -> Result<()> {
    let start = Instant::now(rt)?;
    let found = found_in(rt.alloc(), object, count / READ_AGAIN, count)?;
    let elapsed = start.elapsed(rt)?;
    println!(rt; "objects found: {found}")?;
    report(rt, "readings", count, elapsed)
}

fn pod(alloc: Global) -> Result<Object> {
    let draft = read_object(alloc, OBJECT.as_bytes())?;
    Ok(draft.object)
}

fn measure_all(rt: &HostRuntime, object: &Object, count: u64) -> Result<()> {
    pushes(rt, object, "pushes with compactions", count, true)?;
    pushes(rt, object, "pushes without", count, false)?;
    readings(rt, object, count)
}

pub(crate) fn measure(rt: &HostRuntime, asked: Option<u64>) -> Result<()> {
    let object = pod(rt.alloc())?;
    let measured = measure_all(rt, &object, asked.unwrap_or(COUNT));
    drop(object);
    measured
}
