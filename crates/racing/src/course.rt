// What the threads of a race signal to one another, in words that they share.
ghost use Rattle.std.specs.Prelude.{◌≡◌};

use objects::Memory;
use race_log::RaceSpec;
use std::alloc::Global;
use std::sync::Wait;
use std::sync::atomic::{AtomicU64, Ordering};
use std::time::Duration;

/// The values of the start word once all threads are there, and if one could not be made. Before, it is 0.
const GO: u64 = 1;

const GIVE_UP: u64 = 2;

/// How many milliseconds a thread sleeps, at most, before it looks again whether all controllers have ended.
const PAUSE: u64 = 1;

/// The size of a race, and its progress.
#[derive(Drop)]
pub(crate) struct Course {
    pub spec: RaceSpec,
    pub alloc: Global,
    /// The next place for a call or a reply.
    places: AtomicU64,
    /// How many rounds the controllers together have begun.
    begun: AtomicU64,
    /// How many controllers have ended.
    ended: AtomicU64,
    start: AtomicU64,
}

/// The part of the word on which a thread sleeps.
fn low(word: u64) -> u32 {
    (word & 0xffff_ffff) as u32
}

impl Course {
    pub(crate) fn new(alloc: Global, spec: &RaceSpec) -> Course
        ensures { result.spec ≡ spec.now }
    {
        Course {
            spec: *spec,
            alloc,
            places: AtomicU64::new(0),
            begun: AtomicU64::new(0),
            ended: AtomicU64::new(0),
            start: AtomicU64::new(0),
        }
    }

    /// A place that no other call or reply has.
    pub(crate) fn next_place(&self) -> u64 {
        self.places.fetch_add(1, Ordering::SeqCst)
    }

    /// Waits until all threads are there.
    ///
    /// # Errors
    ///
    /// `Memory` if one of them could not be made.
    pub(crate) fn wait_for_start<R: Wait>(&self, rt: &R) -> Result<(), Memory> {
        for _ in rt.forever() {
            match self.start.load(Ordering::SeqCst) {
                0 => self.start.park(rt, 0),
                GO => return Ok(()),
                _ => return Err(Memory),
            }
        }
        unreachable!()
    }

    /// Starts the threads, or makes them give up if not all of them could be made.
    pub(crate) fn begin(&self, all_there: bool) {
        let word = if all_there { GO } else { GIVE_UP };
        self.start.store(word, Ordering::SeqCst);
        self.start.wake_all();
    }

    /// A controller begins a round.
    pub(crate) fn begin_round(&self) {
        self.begun.fetch_add(1, Ordering::SeqCst);
        self.begun.wake_all();
    }

    /// A controller has ended.
    pub(crate) fn end(&self) {
        self.ended.fetch_add(1, Ordering::SeqCst);
        self.ended.wake_all();
    }

    /// Whether all controllers have ended.
    pub(crate) fn has_ended(&self) -> bool {
        self.ended.load(Ordering::SeqCst) >= self.spec.controllers
    }

    /// Waits until the controllers together have begun so many rounds, or all of them have ended.
    pub(crate) fn wait_for_rounds<R: Wait>(&self, rt: &R, rounds: u64) {
        for _ in rt.forever() {
            let begun = self.begun.load(Ordering::SeqCst);
            if begun >= rounds || self.has_ended() {
                return;
            }
            self.begun
                .park_timeout(rt, low(begun), Duration::from_millis(PAUSE));
        }
    }

    /// Sleeps for so many microseconds, and no longer than until another controller ends.
    pub(crate) fn sleep<R: Wait>(&self, rt: &R, micros: u64) {
        let ended = self.ended.load(Ordering::SeqCst);
        self.ended
            .park_timeout(rt, low(ended), Duration::from_micros(micros));
    }
}
