// Lines that are used up by threads, each with a shard's seat.
ghost use Rattle.std.specs.Prelude.{◌≡◌, None, All};
ghost use Rattle.line.specs.Seat.{new_shard_seat, shard_seat};

use crate::numbering::blank::{Ends, Line, ShardSeat};
use crate::numbering::numbers::{numbers_of, raised, sorted};
use std::alloc::Global;
use std::test::Fail;
use std::thread;
use std::thread::Threads;

/// One more than any line has numbers.
const TRIES: usize = 1_048_577;

/// What each seat drew and filled, in a thread of its own, until all numbers were drawn.
fn drawn_in_threads<R: Threads + Sync>(
    rt: &R,
    alloc: Global,
    line: &Line,
    shards: Vec<ShardSeat>,
) -> Option<Vec<Option<Vec<u64>>>>
    requires { All (λ s. (shard_seat s ≡ new_shard_seat line.now.name) × (s.view.caller ≡ None)) shards.items }
{
    thread::map_vec(
        rt,
        shards,
        &|seat: ShardSeat| -> Option<Vec<u64>>
            requires { (shard_seat seat ≡ new_shard_seat line.now.name) × (seat.view.caller ≡ None) }
        { numbers_of(alloc, line, seat, TRIES) },
    )
    .ok()
}

/// Whether the shards of a line draw each of its numbers once, and one caller then raises the frontier over all of them.
fn is_used_up<R: Threads + Sync>(
    rt: &R,
    alloc: Global,
    capacity: u64,
    shards: usize,
) -> Result<bool, Fail> {
    let Ends {
        line,
        shards,
        mut caller,
    } = Line::new(alloc, capacity, shards)?;
    let lists = drawn_in_threads(rt, alloc, &line, shards).ok_or("no memory")?;
    let numbers = sorted(alloc, lists)?;
    let is_each_drawn = numbers.iter().copied().eq(1..=capacity);
    let frontier = raised(&line, &mut caller, capacity);
    let closed = line.close();
    Ok(
        is_each_drawn
            && frontier == capacity
            && closed.drawn == capacity
            && closed.frontier == capacity,
    )
}

#[test]
fn threads_use_lines_up(rt: HostRuntime) -> Result<(), Fail> {
    // eight threads, and the least and the greatest line
    assert!(rt; is_used_up(&rt, rt.alloc(), 1000, 8)?);
    assert!(rt; is_used_up(&rt, rt.alloc(), 1, 64)?);
    assert!(rt; is_used_up(&rt, rt.alloc(), 1_048_576, 1)?);
    Ok(())
}
