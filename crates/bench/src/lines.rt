// How many numbers a second threads draw and fill, and how often they raise the frontier, at 1, 2, 4 and 8 threads.
ghost use Rattle.std.specs.Prelude.{◌≡◌, All, IfOk, None};
ghost use Rattle.line.specs.Seat.{caller_seat, new_caller_seat, new_shard_seat, shard_seat};

use crate::timing::report;
use anyhow::Result;
use line::{Blank, Blanks};
use objects::Memory;
use std::alloc::{AllocError, Global};
use std::thread;
use std::thread::Threads;
use std::time::{Clock, Instant};

type Line = line::Line<Blank, Blanks>;

type Ends = line::Ends<Blank, Blanks>;

type ShardSeat = line::ShardSeat<Blank>;

type CallerSeat = line::CallerSeat<Blank>;

const NUMBERS: u64 = 1_048_576;

/// Draws and fills numbers until none is left, and returns how many.
fn draw_all(line: &Line, mut seat: ShardSeat) -> u64
    requires line { seat.line ≡ line.now.name }
    requires pending { (seat.view.plain.pending ≡ None) × (seat.view.caller ≡ None) }
{
    let mut count = 0_u64;
    for _ in 0..u64::MAX {
        let Some(drawn) = line.draw(&mut seat) else {
            break;
        };
        line.fill(&mut seat, drawn);
        count = count.wrapping_add(1);
    }
    count
}

/// Raises the frontier until it is at the last number, and returns how many raises that took.
fn raise_all(line: &Line, mut caller: CallerSeat, last: u64) -> u64
    requires { caller.line ≡ line.now.name }
{
    let mut count = 0_u64;
    for _ in 0..u64::MAX {
        if caller.seen() >= last {
            break;
        }
        line.raise(&mut caller);
        count = count.wrapping_add(1);
    }
    count
}

/// How many numbers each seat drew and filled, in a thread of its own, until none was left.
fn drawn<R: Threads + Sync>(
    rt: &R,
    line: &Line,
    seats: Vec<ShardSeat>,
) -> Result<Vec<u64>, AllocError>
    requires { All (λ s. (shard_seat s ≡ new_shard_seat line.now.name) × (s.view.caller ≡ None)) seats.items }
{
    thread::map_vec(
        rt,
        seats,
        &|seat: ShardSeat| -> u64
            requires { (shard_seat seat ≡ new_shard_seat line.now.name) × (seat.view.caller ≡ None) }
        { draw_all(line, seat) },
    )
}

/// So many callers' seats, none of which has seen anything.
fn callers(
    alloc: Global,
    line: &Line,
    first: &mut CallerSeat,
    count: usize,
) -> Result<Vec<CallerSeat>, Memory>
    requires { caller_seat first.old ≡ new_caller_seat line.now.name 0 }
    ensures { IfOk result (λ v. All (λ s. caller_seat s ≡ new_caller_seat line.now.name 0) v.items) }
{
    let mut seats = Vec::new(alloc);
    for _ in 0..count {
        seats.push(line.split(first)?)?;
    }
    Ok(seats)
}

/// How often each caller raised, in a thread of its own, until it had seen the last number.
fn raised<R: Threads + Sync>(
    rt: &R,
    line: &Line,
    callers: Vec<CallerSeat>,
    last: u64,
) -> Result<Vec<u64>, AllocError>
    requires { All (λ s. caller_seat s ≡ new_caller_seat line.now.name 0) callers.items }
{
    thread::map_vec(
        rt,
        callers,
        &|caller: CallerSeat| -> u64
            requires { caller_seat caller ≡ new_caller_seat line.now.name 0 }
        { raise_all(line, caller, last) },
    )
}

fn sum(counts: &[u64]) -> u64 {
    counts
        .iter()
        .fold(0_u64, |sum, count| sum.wrapping_add(*count))
}

/// Draws and fills all numbers of a line, and raises the frontier over them.
fn raced<R: Threads + Clock + Print + Eprint + Sync>(
    rt: &R,
    alloc: Global,
    threads: usize,
) -> Result<()> {
    let Ends {
        line,
        shards,
        mut caller,
    } = Line::new(alloc, NUMBERS, threads)?;
    let start = Instant::now(rt)?;
    let counts = drawn(rt, &line, shards)?;
    let elapsed = start.elapsed(rt)?;
    let load = format!(in alloc; "drawn and filled by {threads} threads")?;
    report(rt, load.as_str(), sum(counts.as_slice()), elapsed)?;
    let callers = callers(alloc, &line, &mut caller, threads)?;
    let start = Instant::now(rt)?;
    let counts = raised(rt, &line, callers, NUMBERS)?;
    let elapsed = start.elapsed(rt)?;
    let load = format!(in alloc; "raised by {threads} threads")?;
    report(rt, load.as_str(), sum(counts.as_slice()), elapsed)?;
    let closed = line.close();
    println!(rt;
        "{threads} threads: drawn {}, frontier {}",
        closed.drawn, closed.frontier
    )?;
    Ok(())
}

pub(crate) fn measure<R: Threads + Clock + Print + Eprint + Sync>(
    rt: &R,
    alloc: Global,
) -> Result<()> {
    for threads in [1, 2, 4, 8] {
        raced(rt, alloc, threads)?;
    }
    Ok(())
}
