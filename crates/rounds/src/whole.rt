//! Controllers over one store, event by event.
ghost use Rattle.std.specs.Prelude.{◌≡◌, ◌<◌, ◌⊎◌, [], ℕ, true, List, length, take, IfSome, IsErr, OnOk, OnErr, None, Some, vec_len, vec_capacity};
ghost use Rattle.std.specs.List.{AllByRecursion};
ghost use Rattle.requests.specs.declared.request.Request.{Request};
ghost use Rattle.plain_store.specs.Reached.{IsReached};
ghost use Rattle.plain_store.specs.Store.{Store, step};
ghost use Rattle.rounds.specs.declared.event.WholeEvent.{WholeEvent};
ghost use Rattle.rounds.specs.declared.event.WholeEvent.TheVariants.{Ask, Crash};
ghost use Rattle.rounds.specs.Before.{RunKeepsPromises};
ghost use Rattle.rounds.specs.Phase.{asks, reading_set, takes};
ghost use Rattle.rounds.specs.Reconciler.{Reconciler};
ghost use Rattle.rounds.specs.Shown.{HasTaken, IsIdle, Shows};
ghost use Rattle.rounds.specs.Sound.{IsSound};
ghost use Rattle.rounds.specs.World.{AreMadeOf, Matches, StandAt, StopsAt, Taken, World, happens, run, start};

use crate::control_loop::ControlLoop;
use crate::event::{Taken, WholeEvent};
use crate::laws::runs_keep_promises;
use plain_store::{Api, ApiFault};
use requests::Request;
use std::alloc::Global;

/// What the store handled, in order, and why the run stopped before the last event, if it did.
#[derive(Drop)]
pub struct WholeRun {
    pub taken: Vec<Taken>,
    pub fault: Option<ApiFault>,
}

/// Runs the events, one after another, until the end or a fault. What is taken has one entry for each request of any
/// client, with its reply; an event of a controller that does not exist has none. If memory is short, the run stops at
/// an event: the controllers are as those before it left them, and the store and what was taken are as they were then,
/// or as that event leaves them. Each controller keeps its reconciler. What was taken keeps the promises of sound
/// controllers.
pub fn run_whole<A: Api, C: ControlLoop>(
    alloc: Global,
    api: &mut A,
    controllers: &mut [C],
    events: &[WholeEvent],
) -> WholeRun
    requires { AllByRecursion (λ c. C.phase c ≡ reading_set) controllers.old }
    ensures whole { result.fault ≡ None → (reconcilers : ℕ → Reconciler) → AreMadeOf C.reconciler controllers.old reconcilers
        → Matches (A.store api.new) result.taken.items (run (length controllers.old) reconcilers (start (A.store api.old)) events.now) }
    ensures begun { (reconcilers : ℕ → Reconciler) → AreMadeOf C.reconciler controllers.old reconcilers
        → (n : ℕ) × Matches (A.store api.new) result.taken.items (run (length controllers.old) reconcilers (start (A.store api.old)) (take n events.now)) }
    ensures many { length controllers.new ≡ length controllers.old }
    ensures stand { result.fault ≡ None → (reconcilers : ℕ → Reconciler) → AreMadeOf C.reconciler controllers.old reconcilers
        → StandAt C.reconciler C.phase controllers.new reconcilers (run (length controllers.old) reconcilers (start (A.store api.old)) events.now).phases }
    ensures stopped { IfSome result.fault (λ fault. (reconcilers : ℕ → Reconciler) → AreMadeOf C.reconciler controllers.old reconcilers
        → StopsAt C.reconciler C.phase (length controllers.old) reconcilers (A.store api.old) events.now
        (A.store api.new) controllers.new result.taken.items) }
    ensures promises { (reconcilers : ℕ → Reconciler) → AreMadeOf C.reconciler controllers.old reconcilers
        → ((c : ℕ) → IsSound (reconcilers c)) → (reached : IsReached (A.store api.old))
        → (n : ℕ) × (result.fault ≡ None → take n events.now ≡ events.now)
        × Matches (A.store api.new) result.taken.items (run (length controllers.old) reconcilers (start (A.store api.old)) (take n events.now))
        × RunKeepsPromises (length controllers.old) reconcilers (A.store api.old) reached (take n events.now) }
    ensures reached { (result.taken.items ≡ []) ⊎ IsReached (A.store api.old) }
{
    runs_keep_promises();
    let mut taken = Vec::new(alloc);
    for event in events {
        if let Err(fault) = apply_event(api, controllers, event, &mut taken) {
            return WholeRun {
                taken,
                fault: Some(fault),
            };
        }
    }
    WholeRun { taken, fault: None }
}

fn apply_event<A: Api, C: ControlLoop>(
    api: &mut A,
    controllers: &mut [C],
    event: &WholeEvent,
    taken: &mut Vec<Taken>,
) -> Result<(), ApiFault>
    ensures many { length controllers.new ≡ length controllers.old }
    ensures reached { IsIdle (A.store api.old) (A.store api.new) taken.old.items taken.new.items ⊎ IsReached (A.store api.old) }
    ensures shows { OnOk result ((reconcilers : ℕ → Reconciler) (w : World)
        → Shows C.reconciler C.phase reconcilers (A.store api.old) controllers.old taken.old.items w
        → Shows C.reconciler C.phase reconcilers (A.store api.new) controllers.new taken.new.items (happens (length controllers.old) reconcilers w event.now)) }
    ensures fault { OnErr result ((reconcilers : ℕ → Reconciler) (w : World)
        → Shows C.reconciler C.phase reconcilers (A.store api.old) controllers.old taken.old.items w
        → StandAt C.reconciler C.phase controllers.new reconcilers w.phases
        × (Matches (A.store api.new) taken.new.items w
        ⊎ Matches (A.store api.new) taken.new.items (happens (length controllers.old) reconcilers w event.now))) }
{
    match event {
        WholeEvent::Ask(number) => {
            if *number < controllers.len() {
                return ask_number(api, controllers, *number, taken);
            }
            Ok(())
        }
        WholeEvent::Crash(number) => {
            if *number < controllers.len() {
                crash_number(controllers, *number);
            }
            Ok(())
        }
        WholeEvent::Outside(request) => ask_outside(api, request, taken),
    }
}

fn ask_number<A: Api, C: ControlLoop>(
    api: &mut A,
    controllers: &mut [C],
    number: usize,
    taken: &mut Vec<Taken>,
) -> Result<(), ApiFault>
    requires { number < length controllers.old }
    ensures many { length controllers.new ≡ length controllers.old }
    ensures reached { IsIdle (A.store api.old) (A.store api.new) taken.old.items taken.new.items ⊎ IsReached (A.store api.old) }
    ensures shows { OnOk result ((reconcilers : ℕ → Reconciler) (w : World)
        → Shows C.reconciler C.phase reconcilers (A.store api.old) controllers.old taken.old.items w
        → Shows C.reconciler C.phase reconcilers
        (A.store api.new) controllers.new taken.new.items (happens (length controllers.old) reconcilers w (Ask number))) }
    ensures fault { OnErr result ((reconcilers : ℕ → Reconciler) (w : World)
        → Shows C.reconciler C.phase reconcilers (A.store api.old) controllers.old taken.old.items w
        → StandAt C.reconciler C.phase controllers.new reconcilers w.phases
        × (Matches (A.store api.new) taken.new.items w
        ⊎ Matches (A.store api.new) taken.new.items (happens (length controllers.old) reconcilers w (Ask number)))) }
{
    ask_one(api, &mut controllers[number], number, taken)
}

fn crash_number<C: ControlLoop>(controllers: &mut [C], number: usize)
    requires { number < length controllers.old }
    ensures many { length controllers.new ≡ length controllers.old }
    ensures shows { (reconcilers : ℕ → Reconciler) (store : Store) (taken : List Taken) (w : World)
        → Shows C.reconciler C.phase reconcilers store controllers.old taken w
        → Shows C.reconciler C.phase reconcilers store controllers.new taken (happens (length controllers.old) reconcilers w (Crash number)) }
{
    controllers[number].crash();
}

fn ask_one<A: Api, C: ControlLoop>(
    api: &mut A,
    controller: &mut C,
    number: usize,
    taken: &mut Vec<Taken>,
) -> Result<(), ApiFault>
    ensures reconciler { C.reconciler controller.new ≡ C.reconciler controller.old }
    ensures stays { OnErr result (C.phase controller.new ≡ C.phase controller.old) }
    ensures reached { IsIdle (A.store api.old) (A.store api.new) taken.old.items taken.new.items ⊎ IsReached (A.store api.old) }
    ensures taken { OnOk result (HasTaken (A.store api.old) (A.store api.new) taken.old.items taken.new.items
        (Some number) (asks (C.reconciler controller.old) (C.phase controller.old))) }
    ensures phase { OnOk result (C.phase controller.new
        ≡ takes (C.reconciler controller.old)
        (C.phase controller.old) (step (A.store api.old) (asks (C.reconciler controller.old) (C.phase controller.old))).1) }
    ensures fault { OnErr result (IsIdle (A.store api.old) (A.store api.new) taken.old.items taken.new.items
        ⊎ HasTaken (A.store api.old) (A.store api.new) taken.old.items taken.new.items
        (Some number) (asks (C.reconciler controller.old) (C.phase controller.old))) }
{
    if taken.reserve(1).is_err() {
        return Err(ApiFault::Memory);
    }
    let Ok(request) = controller.next() else {
        return Err(ApiFault::Memory);
    };
    let Ok(asked) = request.clone() else {
        return let_go(request);
    };
    ask_by(api, controller, number, request, asked, taken)
}

fn ask_by<A: Api, C: ControlLoop>(
    api: &mut A,
    controller: &mut C,
    number: usize,
    request: Request,
    asked: Request,
    taken: &mut Vec<Taken>,
) -> Result<(), ApiFault>
    requires same { asked ≡ request }
    requires next { request ≡ asks (C.reconciler controller.old) (C.phase controller.old) }
    requires waiting { C.is_waiting controller.old ≡ true }
    requires room { vec_len taken.old < vec_capacity taken.old }
    ensures reconciler { C.reconciler controller.new ≡ C.reconciler controller.old }
    ensures stays { OnErr result (C.phase controller.new ≡ C.phase controller.old) }
    ensures reached { IsReached (A.store api.old) }
    ensures taken { OnOk result (HasTaken (A.store api.old) (A.store api.new) taken.old.items taken.new.items (Some number) request) }
    ensures phase { OnOk result (C.phase controller.new ≡ takes (C.reconciler controller.old) (C.phase controller.old) (step (A.store api.old) request).1) }
    ensures fault { OnErr result (IsIdle (A.store api.old) (A.store api.new) taken.old.items taken.new.items
        ⊎ HasTaken (A.store api.old) (A.store api.new) taken.old.items taken.new.items (Some number) request) }
{
    let Ok(reply) = api.ask(request) else {
        return let_go(asked);
    };
    let heard = controller.take(&reply);
    taken.push_reserved((Some(number), asked, reply));
    if heard.is_err() {
        return Err(ApiFault::Memory);
    }
    Ok(())
}

fn ask_outside<A: Api>(
    api: &mut A,
    request: &Request,
    taken: &mut Vec<Taken>,
) -> Result<(), ApiFault>
    ensures reached { IsIdle (A.store api.old) (A.store api.new) taken.old.items taken.new.items ⊎ IsReached (A.store api.old) }
    ensures taken { OnOk result (HasTaken (A.store api.old) (A.store api.new) taken.old.items taken.new.items None request.now) }
    ensures fault { OnErr result (IsIdle (A.store api.old) (A.store api.new) taken.old.items taken.new.items) }
{
    if taken.reserve(1).is_err() {
        return Err(ApiFault::Memory);
    }
    let Ok(asked) = request.clone() else {
        return Err(ApiFault::Memory);
    };
    let Ok(request) = request.clone() else {
        return let_go(asked);
    };
    ask_copied(api, request, asked, taken)
}

fn ask_copied<A: Api>(
    api: &mut A,
    request: Request,
    asked: Request,
    taken: &mut Vec<Taken>,
) -> Result<(), ApiFault>
    requires same { asked ≡ request }
    requires room { vec_len taken.old < vec_capacity taken.old }
    ensures reached { IsReached (A.store api.old) }
    ensures taken { OnOk result (HasTaken (A.store api.old) (A.store api.new) taken.old.items taken.new.items None request) }
    ensures fault { OnErr result (IsIdle (A.store api.old) (A.store api.new) taken.old.items taken.new.items) }
{
    let Ok(reply) = api.ask(request) else {
        return let_go(asked);
    };
    taken.push_reserved((None, asked, reply));
    Ok(())
}

fn let_go(request: Request) -> Result<(), ApiFault>
    ensures { IsErr result }
{
    drop(request);
    Err(ApiFault::Memory)
}
