// How many writes and reads a second threads make in a running store, at 1, 2, 4 and 8 threads over 8 and over 64 shards.
//
// A writer has pods of its own: it creates one, updates it at the version that it has four times, and deletes it. A
// reader gets random pods from a store that has them all; in another load one read in fifty lists a namespace of a
// hundred. At last there are as many writers as readers at once, over a store that is empty at first. A load's threads
// begin together.
ghost use Rattle.std.specs.Prelude.{◌≡◌, ◌<◌, vec_len};
ghost use Rattle.line.specs.Seat.{AreShards};
ghost use Rattle.store.specs.Callers.{IsLine};

mod pods;
mod readers;
mod writers;

use crate::asked::Counts;
use crate::timing::report;
use anyhow::Result;
use line::{Ends, Line, MAX_NUMBERS};
use pods::{Drafts, PODS, key};
use racing::{SharedStore, answered};
use readers::{Reading, read_all};
use requests::Request;
use std::alloc::Global;
use std::marker::Brand;
use std::sync::Wait;
use std::sync::atomic::{AtomicU64, Ordering};
use std::thread;
use std::thread::{Threads, yield_now};
use std::time::{Clock, Duration, Instant};
use store::{ByShards, Naming, NoGate, Sharding, Store, Writing};
use writers::{Share, make_all, write_all, write_made};

/// How much is done by default.
const COUNTS: Counts = Counts {
    writes: 12_000,
    reads: 24_000,
};

const SHARDS: [usize; 2] = [8, 64];

/// One read in so many is a list, if there are lists.
const LISTS: u64 = 50;

/// If there are lists, there are so many times fewer reads.
const FEWER: u64 = 4;

/// How many seconds a thread waits for the others of its load. If one cannot be made, another does its work.
const PATIENCE: u64 = 10;

/// How many threads write and how many read in each load; one read in how many is a list: none if that is 0; and
/// whether all requests are made before.
const CREWS: [(usize, usize, u64, bool); 19] = [
    (1, 0, 0, false),
    (2, 0, 0, false),
    (4, 0, 0, false),
    (8, 0, 0, false),
    (1, 0, 0, true),
    (2, 0, 0, true),
    (4, 0, 0, true),
    (8, 0, 0, true),
    (0, 1, 0, false),
    (0, 2, 0, false),
    (0, 4, 0, false),
    (0, 8, 0, false),
    (0, 1, LISTS, false),
    (0, 2, LISTS, false),
    (0, 4, LISTS, false),
    (0, 8, LISTS, false),
    (1, 1, 0, false),
    (2, 2, 0, false),
    (4, 4, 0, false),
];

/// The threads of a load, over how many shards they work, and how much they do in all.
#[derive(Clone, Copy)]
struct Crew {
    shards: usize,
    writers: usize,
    readers: usize,
    lists: u64,
    /// Whether writers make all requests before they begin.
    is_made: bool,
    counts: Counts,
}

impl Crew {
    /// Whether the store has all pods at first.
    fn is_filled(self) -> bool {
        self.writers == 0
    }

    fn threads(self) -> usize {
        self.writers.saturating_add(self.readers)
    }

    /// What the writer of that index does.
    fn share(self, index: usize) -> Share {
        let writers = (self.writers as u64).max(1);
        Share {
            writes: self.counts.writes / writers,
            index: index as u64,
            writers,
        }
    }

    /// What the reader of that index does.
    fn reading(self, index: usize) -> Reading {
        let all = match self.lists {
            0 => self.counts.reads,
            _ => self.counts.reads / FEWER,
        };
        Reading {
            reads: all / (self.readers as u64).max(1),
            lists: self.lists,
            seed: (index as u64).wrapping_add(1),
        }
    }

    /// The name of the load.
    fn name(self, alloc: Global) -> Result<String> {
        let (shards, writers, readers) = (self.shards, self.writers, self.readers);
        let name = match (writers, readers, self.lists) {
            (_, 0, _) if self.is_made => {
                format!(in alloc; "{shards} shards, {writers} writers with requests made before")?
            }
            (_, 0, _) => format!(in alloc; "{shards} shards, {writers} writers")?,
            (0, _, 0) => format!(in alloc; "{shards} shards, {readers} readers")?,
            (0, _, _) => format!(in alloc; "{shards} shards, {readers} readers with lists")?,
            _ => format!(in alloc; "{shards} shards, {writers} writers and {readers} readers")?,
        };
        Ok(name)
    }
}

/// How many writes were accepted, or how many reads were made and how many objects these found; and when the first thread
/// began and the last one ended, since the load began.
#[derive(Clone, Copy)]
struct Work {
    count: u64,
    found: u64,
    begun: Duration,
    ended: Duration,
}

impl Work {
    fn beside(self, other: Work) -> Work {
        Work {
            count: self.count.wrapping_add(other.count),
            found: self.found.wrapping_add(other.found),
            begun: self.begun.min(other.begun),
            ended: self.ended.max(other.ended),
        }
    }

    fn took(self) -> Duration {
        self.ended.saturating_sub(self.begun)
    }
}

/// What threads did together, if there are any.
fn together(works: &[Work]) -> Option<Work> {
    works.iter().copied().reduce(|all, work| all.beside(work))
}

/// Creates all pods.
fn fill<S: SharedStore, R: Wait>(rt: &R, alloc: Global, store: &S) -> Result<()> {
    let mut caller = store.caller(rt)?;
    let mut drafts = Drafts::new(alloc);
    for pod in 0..PODS {
        let created = Request::Create(drafts.next(pod, 0)?);
        let (reply, _) = answered(rt, store, &NoGate, &mut caller, created)?;
        drop(reply);
    }
    Ok(())
}

/// How many writes were accepted in all, as one more caller sees it.
fn frontier<S: SharedStore, R: Wait>(rt: &R, alloc: Global, store: &S) -> Result<u64> {
    let mut caller = store.caller(rt)?;
    let key = key(alloc, 0)?;
    let reply = store.get(rt, &mut caller, &key)?;
    drop(reply);
    Ok(store.seen(&caller))
}

/// When the threads of a load began.
#[derive(Drop)]
struct Start {
    at: Instant,
    arrived: AtomicU64,
}

/// Waits until all threads of a load are there, and returns when that was.
fn begin<R: Clock>(rt: &R, start: &Start, crew: Crew) -> Result<Duration> {
    start.arrived.fetch_add(1, Ordering::SeqCst);
    for _ in 0..u64::MAX {
        let all_there = start.arrived.load(Ordering::SeqCst) >= crew.threads() as u64;
        if all_there || start.at.elapsed(rt)?.as_secs() >= PATIENCE {
            break;
        }
        yield_now();
    }
    Ok(start.at.elapsed(rt)?)
}

/// What the writer of that index did.
fn written<S: SharedStore, R: Wait + Clock>(
    rt: &R,
    alloc: Global,
    store: &S,
    crew: Crew,
    start: &Start,
    index: usize,
) -> Result<Work> {
    let mut caller = store.caller(rt)?;
    let share = crew.share(index);
    let (begun, count) = if crew.is_made {
        let made = make_all(alloc, share)?;
        let begun = begin(rt, start, crew)?;
        (begun, write_made(rt, store, &mut caller, made)?)
    } else {
        let begun = begin(rt, start, crew)?;
        (begun, write_all(rt, alloc, store, &mut caller, share)?)
    };
    Ok(Work {
        count,
        found: 0,
        begun,
        ended: start.at.elapsed(rt)?,
    })
}

/// What the reader of that index did.
fn read<S: SharedStore, R: Wait + Clock>(
    rt: &R,
    alloc: Global,
    store: &S,
    crew: Crew,
    start: &Start,
    index: usize,
) -> Result<Work> {
    let mut caller = store.caller(rt)?;
    let reading = crew.reading(index);
    let begun = begin(rt, start, crew)?;
    let found = read_all(rt, alloc, store, &mut caller, reading)?;
    Ok(Work {
        count: reading.reads,
        found,
        begun,
        ended: start.at.elapsed(rt)?,
    })
}

/// What the thread of that index did: the first ones write, and the others read.
fn worked<S: SharedStore, R: Wait + Clock>(
    rt: &R,
    alloc: Global,
    store: &S,
    crew: Crew,
    start: &Start,
    index: usize,
) -> Result<Work> {
    if index < crew.writers {
        written(rt, alloc, store, crew, start, index)
    } else {
        read(rt, alloc, store, crew, start, index - crew.writers)
    }
}

/// What each thread of a load over that store did.
fn works<S: SharedStore + Sync, R: Threads + Wait + Clock + Sync>(
    rt: &R,
    alloc: Global,
    store: &S,
    crew: Crew,
) -> Result<Vec<Work>>
where
    S::Caller: Send,
    S::Ticket: Send,
{
    let start = Start {
        at: Instant::now(rt)?,
        arrived: AtomicU64::new(0),
    };
    let results = thread::map_indices(
        rt,
        alloc,
        crew.threads(),
        &|index: usize| { worked(rt, alloc, store, crew, &start, index) },
    )?;
    let mut works = Vec::new(alloc);
    for result in results {
        works.push(result?)?;
    }
    Ok(works)
}

/// Prints what was counted, and how long it took. What readers find while others write differs from run to run.
fn tell(
    rt: &(impl Print + Eprint),
    alloc: Global,
    crew: Crew,
    works: &[Work],
    frontier: u64,
) -> Result<()> {
    let name = crew.name(alloc)?;
    let (writers, readers) = works.split_at(crew.writers.min(works.len()));
    if let Some(all) = together(writers) {
        let accepted = all.count;
        println!(rt; "{name}: {accepted} writes accepted, frontier {frontier}")?;
        let load = format!(in alloc; "{name}: writes")?;
        report(rt, load.as_str(), accepted, all.took())?;
    }
    if let Some(all) = together(readers) {
        let (reads, found) = (all.count, all.found);
        if writers.is_empty() {
            println!(rt; "{name}: {reads} reads, {found} objects, frontier {frontier}")?;
        }
        let load = format!(in alloc; "{name}: reads")?;
        report(rt, load.as_str(), reads, all.took())?;
    }
    Ok(())
}

/// Runs a load over an unused store.
fn run<S: SharedStore + Sync, R: Threads + Wait + Clock + Print + Eprint + Sync>(
    rt: &R,
    alloc: Global,
    store: &S,
    crew: Crew,
) -> Result<()>
where
    S::Caller: Send,
    S::Ticket: Send,
{
    if crew.is_filled() {
        fill(rt, alloc, store)?;
    }
    let works = works(rt, alloc, store, crew)?;
    let frontier = frontier(rt, alloc, store)?;
    tell(rt, alloc, crew, works.as_slice(), frontier)
}

/// Runs a load over the store of that line.
fn run_on_line<
    H: Sharding + Send + Sync,
    N: Naming + Send + Sync,
    R: Threads + Wait + Clock + Print + Eprint + Sync,
>(rt: &R, alloc: Global, ends: Ends<Writing, ByShards<H>>, crew: Crew) -> Result<()>
    requires line { IsLine N.line N.capacity ends.line }
    requires caller { ends.caller.line ≡ N.line }
    requires shards { AreShards N.line N.capacity ends.shards.items }
    requires some { (vec_len ends.shards ≡ H.shards) × (0 < H.shards) }
{
    let store = Store::<H, N>::new(alloc, ends)?;
    run(rt, alloc, &store, crew)
}

/// Runs a load over a new store of its crew's shards.
fn run_on_shards<H: Sharding + Send + Sync, R: Threads + Wait + Clock + Print + Eprint + Sync>(
    rt: &R,
    alloc: Global,
    crew: Crew,
) -> Result<()>
    requires { H.shards ≡ crew.shards }
{
    let ends = Line::<Writing, ByShards<H>>::new(alloc, MAX_NUMBERS, crew.shards)?;
    run_on_line::<H, Brand, R>(rt, alloc, ends, crew)
}

/// Runs a load. A store's markers are picked once its shards, and then its line, are known.
fn run_crew<R: Threads + Wait + Clock + Print + Eprint + Sync>(
    rt: &R,
    alloc: Global,
    crew: Crew,
) -> Result<()> {
    run_on_shards::<Brand, R>(rt, alloc, crew)
}

pub(crate) fn measure<R: Threads + Wait + Clock + Print + Eprint + Sync>(
    rt: &R,
    alloc: Global,
    asked: Option<Counts>,
) -> Result<()> {
    let counts = asked.unwrap_or(COUNTS);
    for shards in SHARDS {
        for (writers, readers, lists, is_made) in CREWS {
            let crew = Crew {
                shards,
                writers,
                readers,
                lists,
                is_made,
                counts,
            };
            run_crew(rt, alloc, crew)?;
        }
    }
    Ok(())
}
