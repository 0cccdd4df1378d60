//! A run over two shards, step by step, with each kind of event. Of the pods `a` is in the shard 1, and `b` in the shard 0.
use history::{Event, Item, Run};
use objects::Memory;
use plain::{Reply, read_request};
use std::alloc::Global;

const CREATE_A: &str = r#"{"do":"create","object":{"kind":"Pod","metadata":{"name":"a"}}}"#;

const CREATE_B: &str = r#"{"do":"create","object":{"kind":"Pod","metadata":{"name":"b"}}}"#;

const GET_B: &str = r#"{"do":"get","kind":"Pod","name":"b"}"#;

const PODS: &str = r#"{"do":"list","kind":"Pod"}"#;

const PODS_AT_1: &str = r#"{"do":"list","kind":"Pod","resourceVersion":"1"}"#;

const COMPACT_2: &str = r#"{"do":"compact","resourceVersion":"2"}"#;

const LABEL_B: &str =
    r#"{"do":"update","object":{"kind":"Pod","metadata":{"labels":{"x":"y"},"name":"b","resourceVersion":"1"}}}"#;

const STALE_B: &str =
    r#"{"do":"update","object":{"kind":"Pod","metadata":{"labels":{"x":"z"},"name":"b","resourceVersion":"1"}}}"#;

/// An event, its caller, and the line of a call. The caller of a conflict that waits crashes before the frontier is
/// there. What holds the frontier back is a write whose caller has crashed too. A list at 1 begins before a compaction
/// to 2, and a second one after it.
static STEPS: [(&str, u64, &str); 44] = [
    ("call", 1, CREATE_B),
    ("check", 1, ""),
    ("reserve", 1, ""),
    ("publish", 1, ""),
    ("raise", 0, ""),
    ("reply", 1, ""),
    ("call", 2, CREATE_A),
    ("check", 2, ""),
    ("reserve", 2, ""),
    ("call", 1, LABEL_B),
    ("check", 1, ""),
    ("reserve", 1, ""),
    ("publish", 1, ""),
    ("call", 4, STALE_B),
    ("call", 5, CREATE_B),
    ("check", 5, ""),
    ("check", 4, ""),
    ("crash", 4, ""),
    // Not enabled: the frontier is at 1.
    ("reply", 5, ""),
    ("call", 3, GET_B),
    ("read", 3, ""),
    ("part", 3, ""),
    ("reply", 3, ""),
    ("crash", 2, ""),
    ("publish", 2, ""),
    ("raise", 0, ""),
    ("raise", 0, ""),
    ("reply", 5, ""),
    ("call", 3, PODS_AT_1),
    ("readat", 3, ""),
    ("call", 1, COMPACT_2),
    // Not enabled: the caller waits for its update.
    ("compact", 1, ""),
    ("reply", 1, ""),
    ("call", 1, COMPACT_2),
    ("compact", 1, ""),
    ("reply", 1, ""),
    ("part", 3, ""),
    ("part", 3, ""),
    ("reply", 3, ""),
    ("call", 3, PODS),
    ("read", 3, ""),
    ("part", 3, ""),
    ("part", 3, ""),
    ("reply", 3, ""),
];

/// The replies: the index, the caller, the word, and the resource version, 0 for a refusal.
static REPLIES: [(u64, u64, &str, u64); 7] = [
    (5, 1, "Created", 1),
    (22, 3, "Found", 1),
    (27, 5, "AlreadyExists", 0),
    (32, 1, "Updated", 3),
    (35, 1, "Compacted", 2),
    (38, 3, "Listed", 1),
    (43, 3, "Listed", 3),
];

/// The get did not see the update, which comes after the creation of `a`. The refused creation depends on the update.
const ORDER: [u64; 8] = [0, 19, 6, 9, 14, 28, 33, 39];

fn called(alloc: Global, caller: u64, line: &str) -> Result<Event, Memory> {
    match read_request(alloc, line.as_bytes()) {
        Ok(request) => Ok(Event::Call(caller, request)),
        Err(_) => Err(Memory),
    }
}

/// The call of a get.
pub(crate) fn call_of(alloc: Global, caller: u64) -> Result<Event, Memory> {
    called(alloc, caller, GET_B)
}

fn event(alloc: Global, step: &(&'static str, u64, &'static str)) -> Result<Event, Memory> {
    let (word, caller, line) = step;
    if *word == "call" {
        return called(alloc, *caller, line);
    }
    Ok(match *word {
        "check" => Event::Check(*caller),
        "reserve" => Event::Reserve(*caller),
        "publish" => Event::Publish(*caller),
        "raise" => Event::Raise,
        "read" => Event::Read(*caller),
        "readat" => Event::ReadAt(*caller),
        "compact" => Event::Compact(*caller),
        "part" => Event::Part(*caller),
        "crash" => Event::Crash(*caller),
        _ => Event::Reply(*caller),
    })
}

fn add_events(alloc: Global, events: &mut Vec<Event>) -> Result<(), Memory> {
    for step in STEPS.iter() {
        events.push(event(alloc, step)?)?;
    }
    Ok(())
}

/// The events of the steps.
pub(crate) fn events(alloc: Global) -> Result<Vec<Event>, Memory> {
    let mut events = Vec::new(alloc);
    match add_events(alloc, &mut events) {
        Ok(()) => Ok(events),
        Err(Memory) => {
            drop(events);
            Err(Memory)
        }
    }
}

/// The word of a reply, and its resource version.
fn told(reply: &Reply) -> (&'static str, u64) {
    match reply {
        Reply::Created(object) => ("Created", object.meta.revision),
        Reply::Found(object) => ("Found", object.meta.revision),
        Reply::Listed {
            objects: _,
            revision,
        } => ("Listed", *revision),
        Reply::Updated(object) => ("Updated", object.meta.revision),
        Reply::Unchanged(object) => ("Unchanged", object.meta.revision),
        Reply::Marked(object) => ("Marked", object.meta.revision),
        Reply::Removed(object) => ("Removed", object.meta.revision),
        Reply::Compacted { revision } => ("Compacted", *revision),
        Reply::Refused(reason) => (reason.name(), 0),
    }
}

fn is_told(item: &Item, wanted: &(u64, u64, &'static str, u64)) -> bool {
    match item {
        Item::Call {
            place: _,
            caller: _,
            request: _,
        } => false,
        Item::Reply {
            place,
            caller,
            reply,
        } => {
            let (word, revision) = told(reply);
            *place == wanted.0 && *caller == wanted.1 && word == wanted.2 && revision == wanted.3
        }
    }
}

fn has_reply(items: &[Item], wanted: &(u64, u64, &'static str, u64)) -> bool {
    for item in items {
        if is_told(item, wanted) {
            return true;
        }
    }
    false
}

fn has_replies(items: &[Item]) -> bool {
    for wanted in REPLIES.iter() {
        if !has_reply(items, wanted) {
            return false;
        }
    }
    true
}

/// Whether a run has the nine calls and these replies, and the order.
pub(crate) fn is_right(run: &Run) -> bool {
    let items = run.trace.items.as_slice();
    items.len() == 16 && has_replies(items) && run.order.as_slice() == ORDER.as_slice()
}
