//! The line of an event.
ghost use Rattle.std.specs.Prelude.{◌≡◌, ◌<◌, ◌-◌, ◌^◌, ◌++◌, codes, string_bytes, Some, OnOk};
ghost use Rattle.traces.specs.Lines.{caller_words, denied_words, event_line, event_words, given_words, head, outcome_words, verdict_words};

use crate::enabled::is_enabled;
use crate::places::put_place;
use crate::run_state::RunState;
use history::CallerPhase;
use interleavings::Event;
use pictures::{Roles, put_reply, put_request};
use requests::Reply;
use std::alloc::AllocError;

/// Appends the line of an event, by the states before and after it and by the reply that its caller gets.
pub(crate) fn put_line<R: Roles>(
    place: u64,
    event: &Event,
    before: RunState,
    after: RunState,
    delivered: &Option<Reply>,
    roles: &R,
    out: &mut String,
) -> Result<(), AllocError>
    requires { after.frontier < 2 ^ 64 - 1 }
    ensures { OnOk result (string_bytes out.new ≡ string_bytes out.old ++ event_line (R.role roles.now) place event.now before after delivered.now) }
{
    let caller = event.caller();
    let enabled = is_enabled(event, before);
    put_head(place, caller, roles, out)?;
    put_event(event, delivered, out)?;
    put_verdict(event, enabled, after.standing, out)?;
    put_place(caller, enabled, after, out)?;
    write!(out, "\n")
}

fn put_head<R: Roles>(
    place: u64,
    caller: Option<u64>,
    roles: &R,
    out: &mut String,
) -> Result<(), AllocError>
    ensures { OnOk result (string_bytes out.new ≡ string_bytes out.old ++ head (R.role roles.now) place caller) }
{
    write!(out, "{place}: ")?;
    put_caller(caller, roles, out)
}

fn put_caller<R: Roles>(caller: Option<u64>, roles: &R, out: &mut String) -> Result<(), AllocError>
    ensures { OnOk result (string_bytes out.new ≡ string_bytes out.old ++ caller_words (R.role roles.now) caller) }
{
    match caller {
        Some(caller) => put_named(caller, roles, out),
        None => Ok(()),
    }
}

fn put_named<R: Roles>(caller: u64, roles: &R, out: &mut String) -> Result<(), AllocError>
    ensures { OnOk result (string_bytes out.new ≡ string_bytes out.old ++ caller_words (R.role roles.now) (Some caller)) }
{
    roles.put_role(caller, out)?;
    write!(out, "caller {caller}: ")
}

/// Appends what the event is.
fn put_event(event: &Event, delivered: &Option<Reply>, out: &mut String) -> Result<(), AllocError>
    ensures { OnOk result (string_bytes out.new ≡ string_bytes out.old ++ event_words event.now delivered.now) }
{
    match event {
        Event::Call(_, request) => put_request(request, out),
        Event::Check(_) => out.push_str("check"),
        Event::Reserve(_) => out.push_str("reserve"),
        Event::Publish(_) => out.push_str("publish"),
        Event::Raise => out.push_str("raise"),
        Event::Read(_) => out.push_str("read"),
        Event::ReadAt(_) => out.push_str("readat"),
        Event::Compact(_) => out.push_str("compact"),
        Event::Part(_) => out.push_str("part"),
        Event::Reply(_) => put_delivered(delivered, out),
        Event::Crash(_) => out.push_str("crash"),
    }
}

fn put_delivered(delivered: &Option<Reply>, out: &mut String) -> Result<(), AllocError>
    ensures { OnOk result (string_bytes out.new ≡ string_bytes out.old ++ given_words delivered.now) }
{
    match delivered {
        Some(reply) => put_given(reply, out),
        None => out.push_str("reply"),
    }
}

fn put_given(reply: &Reply, out: &mut String) -> Result<(), AllocError>
    ensures { OnOk result (string_bytes out.new ≡ string_bytes out.old ++ given_words (Some reply.now)) }
{
    out.push_str("reply ")?;
    put_reply(reply, out)
}

fn put_verdict(
    event: &Event,
    enabled: bool,
    after: CallerPhase,
    out: &mut String,
) -> Result<(), AllocError>
    ensures { OnOk result (string_bytes out.new ≡ string_bytes out.old ++ verdict_words event.now enabled after) }
{
    if !enabled {
        return out.push_str(": not enabled: ");
    }
    put_outcome(event, after, out)
}

/// Appends a colon, and that a write is not accepted, that no number is left for it, or that a list at a version is denied.
fn put_outcome(event: &Event, after: CallerPhase, out: &mut String) -> Result<(), AllocError>
    ensures { OnOk result (string_bytes out.new ≡ string_bytes out.old ++ (codes ": " ++ outcome_words event.now after)) }
{
    match after {
        CallerPhase::Waiting { saw: _ } => put_denied(event, out),
        _ => out.push_str(": "),
    }
}

fn put_denied(event: &Event, out: &mut String) -> Result<(), AllocError>
    ensures { OnOk result (string_bytes out.new ≡ string_bytes out.old ++ (codes ": " ++ denied_words event.now)) }
{
    match event {
        Event::Check(_) => out.push_str(": not accepted, "),
        Event::Reserve(_) => out.push_str(": no number is left, "),
        Event::ReadAt(_) => out.push_str(": denied, "),
        _ => out.push_str(": "),
    }
}
