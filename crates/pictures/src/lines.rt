//! The line of each event that is enabled, by its index and by its caller's state before and after it.
ghost use Rattle.std.specs.Prelude.{◌≡◌, ◌<◌, ◌-◌, ◌^◌, ◌++◌, string_bytes, OnOk};
ghost use Rattle.history.specs.declared.caller_phase.CallerPhase.TheVariants.{Idle};
ghost use Rattle.pictures.specs.Lines.{answering, begun_line, call_line, check_line, checked_line, compact_line, crash_line, drawn_line, hole_line, left_line, part_line, publish_lines, published_line, raise_line, read_at_line, read_line, reply_line, reserve_line};

use crate::labels::{put_reply, put_request};
use history::{CallerPhase, FirstStep};
use requests::{Reply, Request};
use std::alloc::AllocError;

pub(crate) fn put_call(
    place: u64,
    caller: u64,
    request: &Request,
    before: CallerPhase,
    out: &mut String,
) -> Result<(), AllocError>
    ensures { OnOk result (string_bytes out.new ≡ string_bytes out.old ++ call_line place caller request.now before) }
{
    match before {
        CallerPhase::Idle => put_called(place, caller, request, out),
        _ => Ok(()),
    }
}

fn put_called(
    place: u64,
    caller: u64,
    request: &Request,
    out: &mut String,
) -> Result<(), AllocError>
    ensures { OnOk result (string_bytes out.new ≡ string_bytes out.old ++ call_line place caller request.now Idle) }
{
    write!(out, "    Note over C{caller}: {place}: ")?;
    put_request(request, out)?;
    write!(out, "\n")
}

pub(crate) fn put_check(
    place: u64,
    caller: u64,
    before: CallerPhase,
    after: CallerPhase,
    out: &mut String,
) -> Result<(), AllocError>
    ensures { OnOk result (string_bytes out.new ≡ string_bytes out.old ++ check_line place caller before after) }
{
    match before {
        CallerPhase::Called(FirstStep::Write { shard }) => put_checked(
            place, caller, shard, after, out,
        ),
        _ => Ok(()),
    }
}

fn put_checked(
    place: u64,
    caller: u64,
    shard: usize,
    after: CallerPhase,
    out: &mut String,
) -> Result<(), AllocError>
    ensures { OnOk result (string_bytes out.new ≡ string_bytes out.old ++ checked_line place caller shard after) }
{
    match after {
        CallerPhase::Holding { shard: _ } => {
            write!(
                out,
                "    C{caller}->>S{shard}: {place}: check, holds the shard\n"
            )
        }
        CallerPhase::Waiting { saw } => {
            write!(
                out,
                "    C{caller}->>S{shard}: {place}: check, not accepted, sees {saw}\n"
            )
        }
        _ => Ok(()),
    }
}

pub(crate) fn put_reserve(
    place: u64,
    caller: u64,
    before: CallerPhase,
    after: CallerPhase,
    out: &mut String,
) -> Result<(), AllocError>
    ensures { OnOk result (string_bytes out.new ≡ string_bytes out.old ++ reserve_line place caller before after) }
{
    match before {
        CallerPhase::Holding { shard: _ } => put_drawn(place, caller, after, out),
        _ => Ok(()),
    }
}

fn put_drawn(
    place: u64,
    caller: u64,
    after: CallerPhase,
    out: &mut String,
) -> Result<(), AllocError>
    ensures { OnOk result (string_bytes out.new ≡ string_bytes out.old ++ drawn_line place caller after) }
{
    match after {
        CallerPhase::Drawn { number, shard: _ } => {
            write!(out, "    Note over C{caller}: {place}: draws {number}\n")
        }
        CallerPhase::Waiting { saw: _ } => {
            write!(out, "    Note over C{caller}: {place}: no number is left\n")
        }
        _ => Ok(()),
    }
}

/// The publication, and if the next number after the frontier is not filled, a line that says so.
pub(crate) fn put_publish(
    place: u64,
    caller: u64,
    before: CallerPhase,
    can_rise: bool,
    frontier: u64,
    out: &mut String,
) -> Result<(), AllocError>
    requires { frontier < 2 ^ 64 - 1 }
    ensures { OnOk result (string_bytes out.new ≡ string_bytes out.old ++ publish_lines place caller before can_rise frontier) }
{
    match before {
        CallerPhase::Drawn { number, shard } => {
            put_published(place, caller, number, shard, out)?;
            put_hole(can_rise, frontier, out)
        }
        CallerPhase::Left { number, shard } => {
            put_left(place, caller, number, shard, out)?;
            put_hole(can_rise, frontier, out)
        }
        _ => Ok(()),
    }
}

fn put_published(
    place: u64,
    caller: u64,
    number: u64,
    shard: usize,
    out: &mut String,
) -> Result<(), AllocError>
    ensures { OnOk result (string_bytes out.new ≡ string_bytes out.old ++ published_line place caller number shard) }
{
    write!(out, "    C{caller}->>S{shard}: {place}: publish {number}\n")
}

/// The same of a caller that is gone.
fn put_left(
    place: u64,
    caller: u64,
    number: u64,
    shard: usize,
    out: &mut String,
) -> Result<(), AllocError>
    ensures { OnOk result (string_bytes out.new ≡ string_bytes out.old ++ left_line place caller number shard) }
{
    write!(
        out,
        "    Note over S{shard}: {place}: publish {number} of caller {caller}\n"
    )
}

fn put_hole(can_rise: bool, frontier: u64, out: &mut String) -> Result<(), AllocError>
    requires { frontier < 2 ^ 64 - 1 }
    ensures { OnOk result (string_bytes out.new ≡ string_bytes out.old ++ hole_line can_rise frontier) }
{
    if can_rise {
        return Ok(());
    }
    let hole = frontier + 1;
    write!(out, "    Note over F: hole at {hole}\n")
}

pub(crate) fn put_raise(
    place: u64,
    could_rise: bool,
    frontier: u64,
    out: &mut String,
) -> Result<(), AllocError>
    ensures { OnOk result (string_bytes out.new ≡ string_bytes out.old ++ raise_line place could_rise frontier) }
{
    if could_rise {
        return write!(out, "    Note over F: {place}: raised to {frontier}\n");
    }
    Ok(())
}

pub(crate) fn put_read(
    place: u64,
    caller: u64,
    before: CallerPhase,
    after: CallerPhase,
    out: &mut String,
) -> Result<(), AllocError>
    ensures { OnOk result (string_bytes out.new ≡ string_bytes out.old ++ read_line place caller before after) }
{
    match before {
        CallerPhase::Called(FirstStep::Read) => put_begun(place, caller, after, out),
        _ => Ok(()),
    }
}

pub(crate) fn put_read_at(
    place: u64,
    caller: u64,
    before: CallerPhase,
    after: CallerPhase,
    out: &mut String,
) -> Result<(), AllocError>
    ensures { OnOk result (string_bytes out.new ≡ string_bytes out.old ++ read_at_line place caller before after) }
{
    match before {
        CallerPhase::Called(FirstStep::ReadAt) => put_begun(place, caller, after, out),
        _ => Ok(()),
    }
}

fn put_begun(
    place: u64,
    caller: u64,
    after: CallerPhase,
    out: &mut String,
) -> Result<(), AllocError>
    ensures { OnOk result (string_bytes out.new ≡ string_bytes out.old ++ begun_line place caller after) }
{
    match after {
        CallerPhase::Reading {
            number,
            shard: _,
            left: _,
        } => write!(out, "    C{caller}->>F: {place}: read at {number}\n"),
        CallerPhase::Waiting { saw: _ } => write!(
            out,
            "    C{caller}->>F: {place}: read, denied\n"
        ),
        _ => Ok(()),
    }
}

pub(crate) fn put_compact(
    place: u64,
    caller: u64,
    before: CallerPhase,
    out: &mut String,
) -> Result<(), AllocError>
    ensures { OnOk result (string_bytes out.new ≡ string_bytes out.old ++ compact_line place caller before) }
{
    match before {
        CallerPhase::Called(FirstStep::Compaction) => write!(
            out,
            "    C{caller}->>F: {place}: compact\n"
        ),
        _ => Ok(()),
    }
}

pub(crate) fn put_part(
    shards: usize,
    place: u64,
    caller: u64,
    before: CallerPhase,
    out: &mut String,
) -> Result<(), AllocError>
    ensures { OnOk result (string_bytes out.new ≡ string_bytes out.old ++ part_line shards place caller before) }
{
    match before {
        CallerPhase::Reading {
            number,
            shard,
            left,
        } => {
            // All shards have answered, so the event does nothing, and then it has no line.
            if left == 0 {
                return Ok(());
            }
            let shard = answering(shards, shard, left);
            write!(
                out,
                "    S{shard}-->>C{caller}: {place}: part at {number}\n"
            )
        }
        _ => Ok(()),
    }
}

/// The shard that answers a read: for a get its shard, for a list the first that has not answered.
fn answering(shards: usize, shard: Option<usize>, left: usize) -> usize
    ensures { result ≡ answering shards shard left }
{
    match shard {
        Some(shard) => shard,
        None => shards.saturating_sub(left),
    }
}

pub(crate) fn put_delivered(
    place: u64,
    caller: u64,
    delivered: &Option<Reply>,
    out: &mut String,
) -> Result<(), AllocError>
    ensures { OnOk result (string_bytes out.new ≡ string_bytes out.old ++ reply_line place caller delivered.now) }
{
    match delivered {
        Some(reply) => put_reply_line(place, caller, reply, out),
        None => Ok(()),
    }
}

fn put_reply_line(
    place: u64,
    caller: u64,
    reply: &Reply,
    out: &mut String,
) -> Result<(), AllocError>
    ensures { OnOk result (string_bytes out.new ≡ string_bytes out.old ++ reply_line place caller (Some reply.now)) }
{
    write!(out, "    F-->>C{caller}: {place}: ")?;
    put_reply(reply, out)?;
    write!(out, "\n")
}

pub(crate) fn put_crash(
    place: u64,
    caller: u64,
    before: CallerPhase,
    out: &mut String,
) -> Result<(), AllocError>
    ensures { OnOk result (string_bytes out.new ≡ string_bytes out.old ++ crash_line place caller before) }
{
    match before {
        CallerPhase::Gone
        | CallerPhase::Left {
            number: _,
            shard: _,
        } => Ok(()),
        _ => write!(out, "    C{caller}-xF: {place}: crash\n"),
    }
}
