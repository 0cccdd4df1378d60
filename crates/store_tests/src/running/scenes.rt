// Scenes on a new store. A store's markers are picked once its shards, and then its line, are known, and a function
// that is called so has no text among its parameters: so a test names a scene, and there is one way to a store.
ghost use Rattle.std.specs.Prelude.{◌≡◌, ◌<◌, vec_len};
ghost use Rattle.line.specs.Seat.{AreShards};
ghost use Rattle.store.specs.Callers.{IsLine};

use crate::running::allocation_failures::assert_ample;
use crate::running::asking::{assert_rows, assert_so};
use crate::running::callers::assert_callers;
use crate::running::crowds::assert_replies_are_legal;
use crate::running::gates::{A_IS_HELD, B_IS_HELD, LIST_WAITS, Lines, assert_steps};
use crate::running::meeting::assert_meeting;
use crate::running::rows::ROWS;
use line::{Ends, Line, LineError};
use std::alloc::Global;
use std::marker::Brand;
use std::process::Abort;
use std::sync::Wait;
use std::test::Fail;
use std::thread::Threads;
use store::{ByShards, Naming, Sharding, Store, StoreError, Writing};

#[derive(Clone, Copy, PartialEq)]
pub(crate) enum Scene {
    Rows,
    Meeting,
    Callers,
    Gate,
    OtherGate,
    ListGate,
    Crowd,
    /// Here a store may be refused because memory ran out.
    AllocationFailures,
}

/// The lines of a scene with a held shard.
fn lines_of(scene: Scene) -> Lines {
    if scene == Scene::Gate {
        return B_IS_HELD;
    }
    if scene == Scene::OtherGate {
        return A_IS_HELD;
    }
    LIST_WAITS
}

fn assert_scene<
    H: Sharding + Send + Sync,
    N: Naming + Send + Sync,
    R: Threads + Wait + Abort + Sync,
>(rt: &R, alloc: Global, store: &Store<H, N>, scene: Scene) -> Result<(), Fail> {
    match scene {
        Scene::Rows => assert_rows(rt, alloc, store, ROWS.as_slice()),
        Scene::Meeting => assert_meeting(rt, alloc, store),
        Scene::Callers => assert_callers(rt, alloc, store),
        Scene::Gate | Scene::OtherGate | Scene::ListGate => {
            assert_steps(rt, alloc, store, lines_of(scene))
        }
        Scene::Crowd => assert_replies_are_legal(rt, alloc, store),
        Scene::AllocationFailures => assert_ample(rt, alloc, store),
    }
}

fn assert_on_line<
    H: Sharding + Send + Sync,
    N: Naming + Send + Sync,
    R: Threads + Wait + Abort + Sync,
>(rt: &R, alloc: Global, ends: Ends<Writing, ByShards<H>>, scene: Scene) -> Result<(), Fail>
    requires line { IsLine N.line N.capacity ends.line }
    requires caller { ends.caller.line ≡ N.line }
    requires shards { AreShards N.line N.capacity ends.shards.items }
    requires some { (vec_len ends.shards ≡ H.shards) × (0 < H.shards) }
{
    match Store::<H, N>::new(alloc, ends) {
        Ok(store) => assert_scene(rt, alloc, &store, scene),
        Err(error) => {
            let is_so = error == StoreError::Memory && scene == Scene::AllocationFailures;
            assert_so(
                rt,
                is_so,
                "a store that is refused for want of memory alone",
            );
            Ok(())
        }
    }
}

fn assert_on_shards<H: Sharding + Send + Sync, R: Threads + Wait + Abort + Sync>(
    rt: &R,
    alloc: Global,
    capacity: u64,
    shards: usize,
    scene: Scene,
) -> Result<(), Fail>
    requires { H.shards ≡ shards }
{
    match Line::<Writing, ByShards<H>>::new(alloc, capacity, shards) {
        Ok(ends) => assert_on_line::<H, Brand, R>(rt, alloc, ends, scene),
        Err(error) => {
            let is_so = error == LineError::Memory && scene == Scene::AllocationFailures;
            assert_so(rt, is_so, "a line that is refused for want of memory alone");
            Ok(())
        }
    }
}

/// Plays a scene on a new store with that capacity and so many shards.
pub(crate) fn assert_on<R: Threads + Wait + Abort + Sync>(
    rt: &R,
    alloc: Global,
    capacity: u64,
    shards: usize,
    scene: Scene,
) -> Result<(), Fail> {
    assert_on_shards::<Brand, R>(rt, alloc, capacity, shards, scene)
}
