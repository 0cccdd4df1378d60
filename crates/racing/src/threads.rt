// The threads of a race.
ghost use Rattle.std.specs.Prelude.{◌≡◌, ◌++◌, ◌+◌, ◌≤◌, [], IfOk, OnOk, length, map};
ghost use Rattle.std.specs.List.{All};
ghost use Rattle.race_log.specs.RaceSet.{creates_set};
ghost use Rattle.racing.specs.Children.{Promises, promised_number};
ghost use Rattle.racing.specs.Jobs.{IsJob, IsPartAt, number_of};
ghost use Rattle.racing.specs.Parts.{AreParts, CountFrom, HasAskedOnce, IsPartOf, caller_of, operators_in};

use crate::course::Course;
use crate::field::RaceContext;
use crate::jobs::{Job, operators_of, racers_of, run_job};
use crate::shared::SharedStore;
use objects::Memory;
use race_log::{Part, RaceSpec, TimedExchange, set_creation};
use std::sync::Wait;
use std::thread;
use std::thread::{Promise, PromisedHandle, Scope, Threads};
use store::{Gate, StoreError};

/// The thread yields the part of that number.
#[derive(Drop)]
struct PartOf<'a, S> {
    store: &'a S,
    spec: RaceSpec,
    number: u64,
}

impl<'a, S: SharedStore> Promise<Result<Part, Memory>> for PartOf<'a, S> {
    ghost use Rattle.std.specs.Prelude.{IfOk};
    ghost use Rattle.racing.specs.Children.{Promises, promised_number};
    ghost use Rattle.racing.specs.Jobs.{IsPartAt};

    ghost kept_by = { λ promise result. IfOk result (IsPartAt S.shards S.capacity promise.spec promise.number) };
}

/// A thread for each job, in their order. If one is refused, those that were made wait for the start.
fn spawn_all<'s, E, S: SharedStore + Sync, R: Threads + Wait + Sync, G: Gate + Sync>(
    rt: &'s R,
    scope: &'s Scope<'s, E>,
    store: &'s S,
    gate: &'s G,
    course: &'s Course,
    jobs: Vec<Job<S::Caller>>,
) -> Result<Vec<PromisedHandle<Result<Part, Memory>, PartOf<'s, S>>>, Memory>
where
    S::Caller: Send,
    S::Ticket: Send,
    requires { All (IsJob course.now.spec) jobs.items }
    ensures spec { IfOk result (λ children. All (Promises course.now.spec) children.items) }
    ensures numbers { IfOk result (λ children. map promised_number children.items ≡ map number_of jobs.items) }
{
    let mut children = Vec::new(course.alloc);
    for job in jobs {
        let promise = PartOf {
            store,
            spec: course.spec,
            number: job.number(),
        };
        let spawned = scope.spawn_with(
            promise,
            move || -> Result<Part, Memory>
                requires { IsJob course.now.spec job }
                ensures { IfOk result (IsPartAt S.shards S.capacity course.entry.now.spec (number_of job)) }
            {
                run_job(
                    rt,
                    &RaceContext {
                        store,
                        gate,
                        course,
                    },
                    job,
                )
            },
        );
        let Ok(child) = spawned else {
            return Err(Memory);
        };
        children.push(child)?;
    }
    Ok(children)
}

/// Joins the threads, and appends their parts.
fn join_all<S: SharedStore, R: Threads>(
    rt: &R,
    spec: &RaceSpec,
    parts: &mut Vec<Part>,
    children: Vec<PromisedHandle<Result<Part, Memory>, PartOf<'_, S>>>,
) -> Result<(), Memory>
    requires spec { All (Promises spec.now) children.items }
    ensures numbers { OnOk result (map caller_of parts.new.items ≡ map caller_of parts.old.items ++ map promised_number children.entry.items) }
    ensures each { All (IsPartOf S.shards S.capacity spec.now) parts.old.items → OnOk result (All (IsPartOf S.shards S.capacity spec.now) parts.new.items) }
{
    for child in children {
        let part = child.join(rt)?;
        parts.push(part)?;
    }
    Ok(())
}

/// The threads of a race.
struct Children<'s, S: SharedStore> {
    racers: Vec<PromisedHandle<Result<Part, Memory>, PartOf<'s, S>>>,
    operators: Vec<PromisedHandle<Result<Part, Memory>, PartOf<'s, S>>>,
}

/// All threads of a race. They wait for the start.
fn spawn_race<'s, E, S: SharedStore + Sync, R: Threads + Wait + Sync, G: Gate + Sync>(
    rt: &'s R,
    scope: &'s Scope<'s, E>,
    store: &'s S,
    gate: &'s G,
    course: &'s Course,
) -> Result<Children<'s, S>, StoreError>
where
    S::Caller: Send,
    S::Ticket: Send,
    requires few { course.now.spec.controllers ≤ 64 }
    ensures racers { IfOk result (λ all. All (Promises course.now.spec) all.racers.items) }
    ensures numbers { IfOk result (λ all. CountFrom 0 (map promised_number all.racers.items)) }
    ensures many { IfOk result (λ all. length all.racers.items ≡ course.now.spec.controllers + 1) }
    ensures operators { IfOk result (λ all. All (Promises course.now.spec) all.operators.items) }
    ensures operator { IfOk result (λ all. map promised_number all.operators.items ≡ operators_in course.now.spec) }
{
    let racers = racers_of(rt, store, course)?;
    let operators = operators_of(rt, store, course)?;
    Ok(Children {
        racers: spawn_all(rt, scope, store, gate, course, racers)?,
        operators: spawn_all(rt, scope, store, gate, course, operators)?,
    })
}

/// The parts of all threads, and between them that of the caller that creates the set.
fn join_race<S: SharedStore, R: Threads>(
    rt: &R,
    course: &Course,
    children: Children<'_, S>,
    creation: Vec<TimedExchange>,
) -> Result<Vec<Part>, Memory>
    requires few { course.now.spec.controllers ≤ 64 }
    requires creation { HasAskedOnce S.shards S.capacity (creates_set course.now.spec.replicas) creation.items }
    requires racers { All (Promises course.now.spec) children.racers.items }
    requires numbers { CountFrom 0 (map promised_number children.racers.items) }
    requires many { length children.racers.items ≡ course.now.spec.controllers + 1 }
    requires operators { All (Promises course.now.spec) children.operators.items }
    requires operator { map promised_number children.operators.items ≡ operators_in course.now.spec }
    ensures { IfOk result (λ parts. AreParts S.shards S.capacity course.now.spec parts.items) }
{
    let Children { racers, operators } = children;
    let mut parts = Vec::new(course.alloc);
    join_all(rt, &course.spec, &mut parts, racers)?;
    let caller = course.spec.controllers + 1;
    parts.push(Part {
        caller,
        exchanges: creation,
    })?;
    join_all(rt, &course.spec, &mut parts, operators)?;
    Ok(parts)
}

/// Creates the set, and returns once it exists.
fn create_set<S: SharedStore, R: Wait, G: Gate>(
    rt: &R,
    field: &RaceContext<'_, S, G>,
) -> Result<Vec<TimedExchange>, StoreError>
    ensures { IfOk result (λ exchanges. HasAskedOnce S.shards S.capacity (creates_set field.now.course.now.spec.replicas) exchanges.items) }
{
    let mut caller = field.store.caller(rt)?;
    let creation = set_creation(field.course.alloc, field.course.spec.replicas)?;
    let mut exchanges = Vec::new(field.course.alloc);
    field.ask(rt, &mut caller, &mut exchanges, creation)?;
    Ok(exchanges)
}

/// Creates the set, runs all threads, and joins them. They begin once all of them are there.
fn run_in<'s, E, S: SharedStore + Sync, R: Threads + Wait + Sync, G: Gate + Sync>(
    rt: &'s R,
    scope: &'s Scope<'s, E>,
    store: &'s S,
    gate: &'s G,
    course: &'s Course,
) -> Result<Vec<Part>, StoreError>
where
    S::Caller: Send,
    S::Ticket: Send,
    requires few { course.now.spec.controllers ≤ 64 }
    ensures { IfOk result (λ parts. AreParts S.shards S.capacity course.now.spec parts.items) }
{
    let creation = create_set(
        rt,
        &RaceContext {
            store,
            gate,
            course,
        },
    )?;
    let children = spawn_race(rt, scope, store, gate, course);
    // Threads wait for this word, so it is set even if one of them could not be made.
    course.begin(children.is_ok());
    Ok(join_race(rt, course, children?, creation)?)
}

/// All of a race except its judgement.
pub(crate) fn run_all<S: SharedStore + Sync, R: Threads + Wait + Sync, G: Gate + Sync>(
    rt: &R,
    store: &S,
    gate: &G,
    course: &Course,
) -> Result<Vec<Part>, StoreError>
where
    S::Caller: Send,
    S::Ticket: Send,
    requires few { course.now.spec.controllers ≤ 64 }
    ensures { IfOk result (λ parts. AreParts S.shards S.capacity course.now.spec parts.items) }
{
    thread::scope(
        thread::scope_env(),
        rt,
        |scope| -> Result<Vec<Part>, StoreError>
            requires { course.now.spec.controllers ≤ 64 }
            ensures { IfOk result (λ parts. AreParts S.shards S.capacity course.entry.now.spec parts.items) }
        { run_in(rt, scope, store, gate, course) },
    )
}
