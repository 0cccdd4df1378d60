// Request lines to a store by one caller, and the lines of the replies.
ghost use Rattle.std.specs.Prelude.{◌≡◌, IfSome, true};
ghost use Rattle.requests.specs.Verdict.{is_write};

use json::Writer;
use plain::{end_line, read_request, write_reply};
use racing::{SharedStore, answered};
use requests::{Reply, Request};
use std::alloc::{AllocError, Global};
use std::process::Abort;
use std::sync::Wait;
use std::test::Fail;
use store::NoGate;

/// How often a thread looks for a step of another one.
pub(crate) const TURNS: u64 = 1_000_000_000;

pub(crate) fn request_of(alloc: Global, line: &str) -> Option<Request> {
    read_request(alloc, line.as_bytes()).ok()
}

pub(crate) fn write_of(alloc: Global, line: &str) -> Option<Request>
    ensures { IfSome result (λ request. is_write request ≡ true) }
{
    let request = request_of(alloc, line)?;
    if request.is_write() {
        return Some(request);
    }
    drop(request);
    None
}

/// The line of a reply.
pub(crate) fn printed(alloc: Global, reply: &Reply) -> Result<Vec<u8>, AllocError> {
    let mut out = Writer::new(Vec::new(alloc));
    write_reply(reply, &mut out)?;
    end_line(out)
}

/// Whether the reply is printed as that line.
pub(crate) fn is_printed(alloc: Global, reply: &Reply, line: &str) -> Result<bool, AllocError> {
    let text = printed(alloc, reply)?;
    Ok(text.as_slice().strip_suffix(b"\n") == Some(line.as_bytes()))
}

/// Whether a line has that reply, or none if memory ran out.
pub(crate) fn has_reply<S: SharedStore, R: Wait>(
    rt: &R,
    alloc: Global,
    store: &S,
    caller: &mut S::Caller,
    line: &str,
    expected: &str,
) -> Option<bool> {
    let request = request_of(alloc, line)?;
    let (reply, _) = answered(rt, store, &NoGate, caller, request).ok()?;
    let is_so = is_printed(alloc, &reply, expected);
    drop(reply);
    is_so.ok()
}

/// A message of parts is proved again in each place where it is, so it is here.
pub(crate) fn assert_so(rt: &impl Abort, is_so: bool, what: &str) {
    assert!(rt; is_so, "of {what}");
}

pub(crate) fn assert_numbered(rt: &impl Abort, is_so: bool, what: &str, number: usize) {
    assert!(rt; is_so, "of {what} {number}");
}

pub(crate) fn assert_reply<S: SharedStore, R: Wait + Abort>(
    rt: &R,
    alloc: Global,
    store: &S,
    caller: &mut S::Caller,
    line: &str,
    expected: &str,
) {
    let is_so = has_reply(rt, alloc, store, caller, line, expected);
    assert_so(rt, is_so == Some(true), line);
}

/// Asserts the replies of a store to a new caller.
pub(crate) fn assert_rows<S: SharedStore, R: Wait + Abort>(
    rt: &R,
    alloc: Global,
    store: &S,
    rows: &[(&str, &str)],
) -> Result<(), Fail> {
    let mut caller = store.caller(rt)?;
    for (line, expected) in rows.iter() {
        assert_reply(rt, alloc, store, &mut caller, *line, *expected);
    }
    Ok(())
}
