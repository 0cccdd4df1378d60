//! The state of a caller, and of the frontier, in words.
ghost use Rattle.std.specs.Prelude.{◌≡◌, ◌<◌, ◌-◌, ◌^◌, ◌++◌, string_bytes, OnOk};
ghost use Rattle.traces.specs.Places.{first_step_words, check_words, drawn_words, frontier_words, left_words, place_words, reading_words, caller_phase_words, waiting_words};

use crate::run_state::RunState;
use history::{CallerPhase, FirstStep};
use std::alloc::AllocError;

/// Appends the state of the event's caller, or, if the event names none, where the frontier is.
pub(crate) fn put_place(
    caller: Option<u64>,
    enabled: bool,
    after: RunState,
    out: &mut String,
) -> Result<(), AllocError>
    requires { after.frontier < 2 ^ 64 - 1 }
    ensures { OnOk result (string_bytes out.new ≡ string_bytes out.old ++ place_words caller enabled after) }
{
    match caller {
        Some(_) => put_standing(after.standing, after.is_held, after.frontier, out),
        None => put_frontier(enabled, after.frontier, out),
    }
}

fn put_frontier(enabled: bool, frontier: u64, out: &mut String) -> Result<(), AllocError>
    requires { frontier < 2 ^ 64 - 1 }
    ensures { OnOk result (string_bytes out.new ≡ string_bytes out.old ++ frontier_words enabled frontier) }
{
    if enabled {
        return write!(out, "the frontier is {frontier}");
    }
    let hole = frontier + 1;
    write!(out, "the frontier is {frontier}, and {hole} is not filled")
}

fn put_standing(
    standing: CallerPhase,
    is_held: bool,
    frontier: u64,
    out: &mut String,
) -> Result<(), AllocError>
    ensures { OnOk result (string_bytes out.new ≡ string_bytes out.old ++ caller_phase_words standing is_held frontier) }
{
    match standing {
        CallerPhase::Idle => out.push_str("idle"),
        CallerPhase::Called(first_step) => put_first_step(first_step, is_held, out),
        CallerPhase::Holding { shard } => write!(out, "holds shard {shard}"),
        CallerPhase::Drawn { number, shard } => put_drawn(number, shard, out),
        CallerPhase::Waiting { saw } => put_waiting(saw, frontier, out),
        CallerPhase::Reading {
            number,
            shard: _,
            left,
        } => put_reading(number, left, out),
        CallerPhase::Gone => out.push_str("gone"),
        CallerPhase::Left { number, shard } => put_left(number, shard, out),
    }
}

fn put_first_step(first_step: FirstStep, is_held: bool, out: &mut String) -> Result<(), AllocError>
    ensures { OnOk result (string_bytes out.new ≡ string_bytes out.old ++ first_step_words first_step is_held) }
{
    match first_step {
        FirstStep::Write { shard } => put_check(shard, is_held, out),
        FirstStep::Read => out.push_str("next is read"),
        FirstStep::ReadAt => out.push_str("next is readat"),
        FirstStep::Compaction => out.push_str("next is compact"),
    }
}

fn put_check(shard: usize, is_held: bool, out: &mut String) -> Result<(), AllocError>
    ensures { OnOk result (string_bytes out.new ≡ string_bytes out.old ++ check_words shard is_held) }
{
    if is_held {
        return write!(out, "next is check, in shard {shard}, which is held");
    }
    write!(out, "next is check, in shard {shard}")
}

fn put_drawn(number: u64, shard: usize, out: &mut String) -> Result<(), AllocError>
    ensures { OnOk result (string_bytes out.new ≡ string_bytes out.old ++ drawn_words number shard) }
{
    write!(out, "holds shard {shard}, has drawn {number}")
}

fn put_left(number: u64, shard: usize, out: &mut String) -> Result<(), AllocError>
    ensures { OnOk result (string_bytes out.new ≡ string_bytes out.old ++ left_words number shard) }
{
    write!(
        out,
        "gone, {number} is still to be published in shard {shard}"
    )
}

fn put_waiting(saw: u64, frontier: u64, out: &mut String) -> Result<(), AllocError>
    ensures { OnOk result (string_bytes out.new ≡ string_bytes out.old ++ waiting_words saw frontier) }
{
    if saw <= frontier {
        return out.push_str("next is reply");
    }
    write!(out, "waits for the frontier to reach {saw}")
}

fn put_reading(number: u64, left: usize, out: &mut String) -> Result<(), AllocError>
    ensures { OnOk result (string_bytes out.new ≡ string_bytes out.old ++ reading_words number left) }
{
    if left == 0 {
        return write!(out, "has read at {number}, next is reply");
    }
    write!(out, "reads at {number}, parts left: {left}")
}
