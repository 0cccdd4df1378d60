//! A run of one controller over the interleaved store.
use crate::sample::{MOMENT, ONE, request_of};
use controllers::{ClusterEvent, ClusterFault, ClusterRun, ClusterSpec, SetSpec, run_cluster};
use history::Event;
use objects::Memory;
use std::alloc::Global;

/// What happens, and to which controller or caller. Three of these are not enabled: there is one controller, which
/// waits for a reply, and it was caller 0. The others have the indices from 0 to 13. The first get has read nothing
/// when its caller crashes, and the second one, of caller 1, finds what was created.
static EVENTS: [(&str, u64); 17] = [
    ("next", 1),
    ("next", 0),
    ("read", 0),
    ("crash", 0),
    ("next", 0),
    ("next", 0),
    ("outside", 7),
    ("check", 7),
    ("reserve", 7),
    ("publish", 7),
    ("raise", 0),
    ("reply", 7),
    ("outside", 0),
    ("read", 1),
    ("part", 1),
    ("reply", 1),
    ("next", 0),
];

fn event(alloc: Global, word: &str, number: u64) -> Result<ClusterEvent, Memory> {
    Ok(match word {
        "next" => ClusterEvent::Next(number as usize),
        "crash" => ClusterEvent::Crash(number as usize),
        "outside" => ClusterEvent::Outside(number, request_of(alloc, ONE)?),
        "check" => ClusterEvent::Step(Event::Check(number)),
        "reserve" => ClusterEvent::Step(Event::Reserve(number)),
        "publish" => ClusterEvent::Step(Event::Publish(number)),
        "raise" => ClusterEvent::Step(Event::Raise),
        "read" => ClusterEvent::Step(Event::Read(number)),
        "part" => ClusterEvent::Step(Event::Part(number)),
        _ => ClusterEvent::Step(Event::Reply(number)),
    })
}

fn add_events(alloc: Global, events: &mut Vec<ClusterEvent>) -> Result<(), Memory> {
    for (word, number) in EVENTS.iter() {
        events.push(event(alloc, word, *number)?)?;
    }
    Ok(())
}

#[tactic(auto, unfolding(objects::specs::Names::is_dns_label))]
fn set(alloc: Global) -> Result<SetSpec, Memory> {
    SetSpec::new(alloc, "default", "web", 10, MOMENT)
}

fn spec(alloc: Global) -> Result<ClusterSpec, Memory> {
    let mut sets = Vec::new(alloc);
    sets.push(set(alloc)?)?;
    Ok(ClusterSpec {
        shards: 2,
        capacity: 10,
        sets,
    })
}

/// What was passed to the store, the order, and whose the callers are.
fn is_right(found: &ClusterRun) -> bool {
    let owners = &found.owners;
    found.events.len() == 14
        && found.run.order.as_slice() == [0, 4, 3].as_slice()
        && owners.get(&0).copied() == Some(Some(0))
        && owners.get(&1).copied() == Some(Some(0))
        && owners.get(&7).copied() == Some(None)
        && owners.get(&2).is_none()
}

fn judged(found: Result<ClusterRun, ClusterFault>) -> Result<bool, Memory> {
    match found {
        Ok(found) => {
            let is_so = is_right(&found);
            drop(found);
            Ok(is_so)
        }
        Err(ClusterFault::Memory) => Err(Memory),
        Err(_) => Ok(false),
    }
}

fn ran_over(alloc: Global, events: &[ClusterEvent]) -> Result<bool, Memory> {
    let spec = spec(alloc)?;
    let found = judged(run_cluster(alloc, &spec, events));
    drop(spec);
    found
}

/// Whether the run is what it should be; or memory ran out.
pub(crate) fn ran(alloc: Global) -> Result<bool, Memory> {
    let mut events = Vec::new(alloc);
    let found = match add_events(alloc, &mut events) {
        Ok(()) => ran_over(alloc, events.as_slice()),
        Err(Memory) => Err(Memory),
    };
    drop(events);
    found
}
