//! What a serving and a store return if an allocation is refused. With `rt try --test --fail-alloc N` the Nth
//! allocation is; without it none is, and there is enough memory.
use crate::served::calls::asked;
use crate::served::story::{LINES, REPLIES};
use json::Writer;
use objects::Memory;
use plain::{BufferSink, Plain, Reply, ServeFault, SliceSource, end_line, serve, write_reply};
use std::alloc::{AllocError, Global};

/// Whether all replies are written, or, if memory runs out, a prefix of them.
fn serves_or_stops(alloc: Global, lines: &str, replies: &str) -> Result<bool, AllocError> {
    let mut reader = SliceSource::new(lines.as_bytes());
    let mut writer = BufferSink::with_room(alloc, replies.len())?;
    match serve(alloc, &mut reader, &mut writer, 100) {
        Ok(count) => Ok(count == 24 && writer.bytes() == replies.as_bytes()),
        Err(fault) => {
            Ok(fault == ServeFault::Memory && replies.as_bytes().starts_with(writer.bytes()))
        }
    }
}

/// The test says nothing if its own setup is refused memory.
#[test]
fn a_serving_ends_at_an_allocation_failure(rt: HostRuntime) {
    let is_so = serves_or_stops(rt.alloc(), LINES, REPLIES) != Ok(false);
    assert!(rt; is_so);
}

/// Whether the reply is printed as that line.
fn is_printed(alloc: Global, reply: &Reply, line: &str) -> Result<bool, AllocError> {
    let mut out = Writer::new(Vec::new(alloc));
    write_reply(reply, &mut out)?;
    let text = end_line(out)?;
    Ok(text.as_slice().strip_suffix(b"\n") == Some(line.as_bytes()))
}

/// Whether a line has that reply. It is sent again if an allocation is refused, and the reply is printed again.
fn has_reply(alloc: Global, plain: &mut Plain, line: &str, expected: &str) -> bool {
    let reply = match asked(alloc, plain, line) {
        Ok(reply) => Ok(reply),
        Err(Memory) => asked(alloc, plain, line),
    };
    let Ok(reply) = reply else {
        return false;
    };
    let is_so = is_printed(alloc, &reply, expected) == Ok(true)
        || is_printed(alloc, &reply, expected) == Ok(true);
    drop(reply);
    is_so
}

/// The first of the lines that has another reply.
fn first_wrong<'a>(
    alloc: Global,
    plain: &mut Plain,
    lines: &'a str,
    replies: &str,
) -> Option<&'a str> {
    for (line, reply) in lines.lines().zip(replies.lines()) {
        if !has_reply(alloc, plain, line, reply) {
            return Some(line);
        }
    }
    None
}

/// A request that was refused an allocation has changed nothing, so that, sent again, it gets the reply of a first
/// time, and so do all later ones.
#[test]
fn a_store_is_as_before_an_allocation_failure(rt: HostRuntime) {
    let Ok(mut plain) = Plain::new(rt.alloc(), 100) else {
        panic!(rt; "no store");
    };
    let wrong = first_wrong(rt.alloc(), &mut plain, LINES, REPLIES);
    drop(plain);
    if let Some(line) = wrong {
        panic!(rt; "of {line}");
    }
}
