// What each thread of a race does.
ghost use Rattle.std.specs.Prelude.{◌≡◌, ◌+◌, ◌≤◌, IfOk, length, map};
ghost use Rattle.std.specs.List.{All};
ghost use Rattle.racing.specs.Jobs.{IsJob, IsPartAt, number_of};
ghost use Rattle.racing.specs.Parts.{CountFrom, operators_in};

use crate::controller_rounds::run_controller;
use crate::course::Course;
use crate::field::RaceContext;
use crate::kubelet_turns::run_kubelet;
use crate::operator_turns::run_operator;
use crate::shared::SharedStore;
use objects::Memory;
use race_log::Part;
use std::sync::Wait;
use store::{Gate, StoreError};

/// What one thread does; its number is its caller's.
#[derive(Drop)]
pub(crate) enum Job<C: Drop> {
    Controller(u64, C),
    Kubelet(u64, C),
    Operator(u64, C),
}

impl<C: Drop> Job<C> {
    pub(crate) fn number(&self) -> u64
        ensures { result ≡ number_of self.now }
    {
        match self {
            Job::Controller(me, _) => *me,
            Job::Kubelet(me, _) => *me,
            Job::Operator(me, _) => *me,
        }
    }
}

/// One job for each controller, from caller 0 on, and one for the kubelet.
pub(crate) fn racers_of<S: SharedStore, R: Wait>(
    rt: &R,
    store: &S,
    course: &Course,
) -> Result<Vec<Job<S::Caller>>, StoreError>
    ensures jobs { IfOk result (λ jobs. All (IsJob course.now.spec) jobs.items) }
    ensures numbers { IfOk result (λ jobs. CountFrom 0 (map number_of jobs.items)) }
    ensures many { IfOk result (λ jobs. length jobs.items ≡ course.now.spec.controllers + 1) }
{
    let controllers = course.spec.controllers;
    let mut jobs = Vec::new(course.alloc);
    for number in 0..controllers {
        jobs.push(Job::Controller(number, store.caller(rt)?))?;
    }
    jobs.push(Job::Kubelet(controllers, store.caller(rt)?))?;
    Ok(jobs)
}

/// The operator's job, if there is one. The number between is that of the caller that creates the set.
pub(crate) fn operators_of<S: SharedStore, R: Wait>(
    rt: &R,
    store: &S,
    course: &Course,
) -> Result<Vec<Job<S::Caller>>, StoreError>
    requires few { course.now.spec.controllers ≤ 64 }
    ensures jobs { IfOk result (λ jobs. All (IsJob course.now.spec) jobs.items) }
    ensures numbers { IfOk result (λ jobs. map number_of jobs.items ≡ operators_in course.now.spec) }
{
    let mut jobs = Vec::new(course.alloc);
    if course.spec.operator {
        let number = course.spec.controllers + 2;
        jobs.push(Job::Operator(number, store.caller(rt)?))?;
    }
    Ok(jobs)
}

/// The part that the job yields.
fn part_of<S: SharedStore, R: Wait, G: Gate>(
    rt: &R,
    field: &RaceContext<'_, S, G>,
    job: Job<S::Caller>,
) -> Result<Part, Memory>
    requires { IsJob field.now.course.now.spec job }
    ensures { IfOk result (IsPartAt S.shards S.capacity field.now.course.now.spec (number_of job)) }
{
    match job {
        Job::Controller(me, caller) => Ok(Part {
            caller: me,
            exchanges: run_controller(rt, field, me, caller)?,
        }),
        Job::Kubelet(me, caller) => Ok(Part {
            caller: me,
            exchanges: run_kubelet(rt, field, caller)?,
        }),
        Job::Operator(me, caller) => Ok(Part {
            caller: me,
            exchanges: run_operator(rt, field, caller)?,
        }),
    }
}

/// Does the job once all threads are there, and gives up if one of them could not be made.
pub(crate) fn run_job<S: SharedStore, R: Wait, G: Gate>(
    rt: &R,
    field: &RaceContext<'_, S, G>,
    job: Job<S::Caller>,
) -> Result<Part, Memory>
    requires { IsJob field.now.course.now.spec job }
    ensures { IfOk result (IsPartAt S.shards S.capacity field.now.course.now.spec (number_of job)) }
{
    if field.course.wait_for_start(rt).is_err() {
        drop(job);
        return Err(Memory);
    }
    part_of(rt, field, job)
}
