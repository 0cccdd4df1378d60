// A controller's rounds.
ghost use Rattle.std.specs.Prelude.{◌≡◌, ◌+◌, ℕ, true, false, IfOk, OnOk};
ghost use Rattle.rounds.specs.Phase.{asks, reading_set};
ghost use Rattle.controllers.specs.Controller.{is_waiting, phase_of, reconciler_of};
ghost use Rattle.racing.specs.Answered.{Learns};
ghost use Rattle.racing.specs.Parts.{HasMadeRounds, IsStanding, begins, is_get, racer};

use crate::field::{RaceContext, last_reply};
use crate::shared::SharedStore;
use controllers::Controller;
use objects::Memory;
use race_log::{NAMESPACE, SET, TimedExchange};
use requests::Request;
use std::alloc::Global;
use std::sync::Wait;
use store::Gate;

/// How many hex digits of its hash the name of a revision has.
const DIGITS: usize = 10;

/// What pods are marked with for deletion.
const MOMENT: &str = "2024-01-01T00:00:00Z";

#[tactic(auto, unfolding(objects::specs::Names::is_dns_label))]
fn controller(alloc: Global) -> Result<Controller, Memory>
    ensures reconciler { IfOk result (λ c. reconciler_of c ≡ racer) }
    ensures phase { IfOk result (λ c. phase_of c ≡ reading_set) }
{
    Controller::new(alloc, NAMESPACE, SET, DIGITS, MOMENT)
}

/// Whether it reads a single object.
fn is_get(request: &Request) -> bool
    ensures { result ≡ is_get request.now }
{
    matches!(request, Request::Get(_))
}

/// Sends the controller's next request, and gives it the reply.
#[tactic(auto, using(crate::proofs::Standing::stands_more))]
fn make_step<S: SharedStore, R: Wait, G: Gate>(
    rt: &R,
    field: &RaceContext<'_, S, G>,
    caller: &mut S::Caller,
    controller: &mut Controller,
    exchanges: &mut Vec<TimedExchange>,
    request: Request,
) -> Result<(), Memory>
    requires waits { is_waiting controller.old ≡ true }
    requires request { request ≡ asks (reconciler_of controller.old) (phase_of controller.old) }
    ensures stands { (rounds : ℕ) → IsStanding S.shards S.capacity (S.known caller.old) (reconciler_of controller.old) rounds (phase_of controller.old) exchanges.old.items
        → OnOk result (IsStanding S.shards S.capacity (S.known caller.new) (reconciler_of controller.old) (rounds + begins request) (phase_of controller.new) exchanges.new.items) }
    ensures same { OnOk result (reconciler_of controller.new ≡ reconciler_of controller.old) }
{
    field.ask(rt, caller, exchanges, request)?;
    match last_reply(exchanges.as_slice()) {
        Some(reply) => controller.take(reply),
        // The reply was just noted.
        None => unreachable!(),
    }
}

/// One round: the controller's requests, up to the read of the set with which the next round begins.
fn make_round<S: SharedStore, R: Wait, G: Gate>(
    rt: &R,
    field: &RaceContext<'_, S, G>,
    caller: &mut S::Caller,
    controller: &mut Controller,
    exchanges: &mut Vec<TimedExchange>,
    rounds: u64,
) -> Result<(), Memory>
    requires stands { IsStanding S.shards S.capacity (S.known caller.old) racer rounds (phase_of controller.old) exchanges.old.items }
    requires begins { is_get (asks racer (phase_of controller.old)) ≡ true }
    requires racer { reconciler_of controller.old ≡ racer }
    ensures stands { OnOk result (IsStanding S.shards S.capacity (S.known caller.new) racer (rounds + 1) (phase_of controller.new) exchanges.new.items) }
    ensures begins { OnOk result (is_get (asks racer (phase_of controller.new)) ≡ true) }
    ensures racer { OnOk result (reconciler_of controller.new ≡ racer) }
{
    let request = controller.next()?;
    make_step(rt, field, caller, controller, exchanges, request)?;
    for _ in rt.forever() {
        let request = controller.next()?;
        if is_get(&request) {
            drop(request);
            return Ok(());
        }
        make_step(rt, field, caller, controller, exchanges, request)?;
    }
    unreachable!()
}

/// Compacts what was before the frontier that the caller has seen.
#[tactic(auto, using(crate::proofs::Giving::learns_self))]
fn compact<S: SharedStore, R: Wait>(rt: &R, store: &S, caller: &mut S::Caller)
    ensures { Learns (S.known caller.old) (S.known caller.new) }
{
    let seen = store.seen(caller);
    // At 0 nothing is written yet, so there is nothing before it.
    if seen != 0 {
        drop(store.compact(rt, caller, seen));
    }
}

#[tactic(auto, using(crate::proofs::Standing::stands_first, crate::proofs::Standing::stands_later, crate::proofs::First::begins_first))]
fn make_rounds<S: SharedStore, R: Wait, G: Gate>(
    rt: &R,
    field: &RaceContext<'_, S, G>,
    me: u64,
    caller: &mut S::Caller,
) -> Result<Vec<TimedExchange>, Memory>
    ensures { IfOk result (λ exchanges. HasMadeRounds S.shards S.capacity racer field.now.course.now.spec.rounds exchanges.items) }
{
    let mut controller = controller(field.course.alloc)?;
    let mut exchanges = Vec::new(field.course.alloc);
    for round in 0..field.course.spec.rounds {
        field.course.begin_round();
        field.gate.round(me, round + 1);
        make_round(rt, field, caller, &mut controller, &mut exchanges, round)?;
        compact(rt, field.store, caller);
    }
    Ok(exchanges)
}

/// All rounds of a controller; then it has ended, even if memory ran out.
pub(crate) fn run_controller<S: SharedStore, R: Wait, G: Gate>(
    rt: &R,
    field: &RaceContext<'_, S, G>,
    me: u64,
    mut caller: S::Caller,
) -> Result<Vec<TimedExchange>, Memory>
    ensures { IfOk result (λ exchanges. HasMadeRounds S.shards S.capacity racer field.now.course.now.spec.rounds exchanges.items) }
{
    let made = make_rounds(rt, field, me, &mut caller);
    field.course.end();
    made
}
