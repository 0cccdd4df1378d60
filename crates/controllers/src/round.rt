// A controller's round.
ghost use Rattle.std.specs.Prelude.{◌≡◌, ℕ, true, false, List, Result, IfOk, OnOk, OnErr};
ghost use Rattle.requests.specs.declared.request.Request.{Request};
ghost use Rattle.set_views.specs.declared.fault.PlanError.{PlanError};
ghost use Rattle.set_views.specs.Steps.{Gives};
ghost use Rattle.rounds.specs.Phase.{acts, asks, takes};
ghost use Rattle.rounds.specs.Reconciler.{Reconciler};
ghost use Rattle.controllers.specs.Planned.{or_none, why_not};
ghost use Rattle.controllers.specs.Progress.{is_carrying, is_listing, is_planning, phase_at, planned_at};
ghost use Rattle.controllers.specs.Reconciler.{reconciler_with};
ghost use Rattle.objects.specs.declared.key.Key.{Key};
ghost use Rattle.controllers.specs.declared.progress.Progress.TheVariants.{ReadingSet};
ghost use Rattle.controllers.specs.Controller.{is_waiting, phase_of, reconciler_of, refusal_after, refusal_of, refusals_of};
ghost use Rattle.controllers.specs.Round.{Hears, KeepsItself, StandsAt, Stays, Takes};

use crate::controller::Controller;
use crate::hearing::{acting, after_action, after_deletion, after_list, after_set, listed};
use crate::next::asked;
use crate::plan::requested;
use crate::progress::Progress;
use objects::{Memory, Object};
use requests::{Reply, Request};
use sets::PlanError;
use std::alloc::Global;
use std::mem;

impl Controller {
    /// The next request; the same again until its reply is handled. Out of memory, it waits only if it waited before.
    #[tactic(auto, unfolding(crate::specs::Controller::reconciler_of, crate::specs::Controller::phase_of, crate::specs::Controller::is_waiting, crate::specs::Controller::refusal_of, crate::specs::Controller::refusals_of))]
    pub fn next(&mut self) -> Result<Request, Memory>
        ensures asked { IfOk result (λ request. request ≡ asks (reconciler_of self.old) (phase_of self.old)) }
        ensures waiting { OnOk result (is_waiting self.new ≡ true) }
        ensures memory { OnErr result (is_waiting self.new ≡ is_waiting self.old) }
        ensures phase { phase_of self.new ≡ phase_of self.old }
        ensures refusal { refusal_of self.new ≡ refusal_of self.old }
        ensures reconciler { reconciler_of self.new ≡ reconciler_of self.old }
        ensures refusals { refusals_of self.new ≡ refusals_of self.old }
    {
        let request = asked(self)?;
        self.waits = true;
        Ok(request)
    }

    /// Handles the reply to its last request. If none waits, nothing changes; out of memory, it stays where it was, and
    /// still waits.
    #[tactic(auto, unfolding(crate::specs::Controller::reconciler_of, crate::specs::Controller::phase_of, crate::specs::Controller::is_waiting, crate::specs::Controller::refusal_of, crate::specs::Controller::refusals_of))]
    pub fn take(&mut self, reply: &Reply) -> Result<(), Memory>
        ensures taken { OnOk result (is_waiting self.old ≡ true → phase_of self.new ≡ takes (reconciler_of self.old) (phase_of self.old) reply.now) }
        ensures refusal { OnOk result (is_waiting self.old ≡ true
            → refusal_of self.new ≡ refusal_after (refusals_of self.old) (phase_of self.old) reply.now (refusal_of self.old)) }
        ensures waiting { OnOk result (is_waiting self.new ≡ false) }
        ensures idle { is_waiting self.old ≡ false → (phase_of self.new ≡ phase_of self.old) × (refusal_of self.new ≡ refusal_of self.old) }
        ensures memory { OnErr result ((phase_of self.new ≡ phase_of self.old)
            × (refusal_of self.new ≡ refusal_of self.old) × (is_waiting self.new ≡ is_waiting self.old)) }
        ensures reconciler { reconciler_of self.new ≡ reconciler_of self.old }
        ensures refusals { refusals_of self.new ≡ refusals_of self.old }
    {
        if self.waits {
            on_reply(self, reply)?;
            self.waits = false;
        }
        Ok(())
    }
}

/// Moves on by the reply to its last request.
#[tactic(auto, using(crate::proofs::Heard::carries))]
fn on_reply(controller: &mut Controller, reply: &Reply) -> Result<(), Memory>
    ensures { Takes reply.now controller.old controller.new result }
{
    if controller.progress.is_listing() {
        return on_list(controller, reply);
    }
    match &controller.progress {
        Progress::ReadingSet => on_set(controller, reply),
        Progress::ListingClaims {
            set: _,
            revisions: _,
            pods: _,
        } => on_claims(controller, reply),
        _ => {
            continue_requests(controller, reply);
            Ok(())
        }
    }
}

/// Moves on by the set, or by its absence.
#[tactic(auto, using(crate::proofs::Heard::set_heard, crate::proofs::Heard::refusal_at_set), unfolding(crate::specs::Controller::reconciler_of, crate::specs::Controller::phase_of, crate::specs::Controller::refusal_of, crate::specs::Controller::refusals_of))]
fn on_set(controller: &mut Controller, reply: &Reply) -> Result<(), Memory>
    requires { controller.old.progress ≡ ReadingSet }
    ensures { Takes reply.now controller.old controller.new result }
{
    let progress = after_set(reply)?;
    set_progress(controller, progress);
    Ok(())
}

/// What follows the reply to its list, except that of the claims for its plan.
fn progress_after_list(
    alloc: Global,
    progress: &Progress,
    reply: &Reply,
) -> Result<Progress, Memory>
    requires { is_listing progress.now ≡ true }
    ensures { IfOk result (λ p. (set : Key) (digits : ℕ) (moment : List ℕ)
        → phase_at p ≡ takes (reconciler_with set digits moment) (phase_at progress.now) reply.now) }
{
    match listed(reply) {
        Some((objects, revision)) => after_list(alloc, progress, objects, revision),
        None => Ok(Progress::ReadingSet),
    }
}

/// Moves on by a list, other than that of the claims for its plan.
#[tactic(auto, using(crate::proofs::Heard::refusal_stays), unfolding(crate::specs::Controller::reconciler_of, crate::specs::Controller::phase_of, crate::specs::Controller::refusal_of, crate::specs::Controller::refusals_of))]
fn on_list(controller: &mut Controller, reply: &Reply) -> Result<(), Memory>
    requires { is_listing controller.old.progress ≡ true }
    ensures { Takes reply.now controller.old controller.new result }
{
    let progress = progress_after_list(controller.alloc, &controller.progress, reply)?;
    set_progress(controller, progress);
    Ok(())
}

/// The requests of its plan, given the claims.
fn plan_with(controller: &Controller, claims: &[Object]) -> Result<Vec<Request>, PlanError>
    requires { is_planning controller.now.progress ≡ true }
    ensures { Gives (λ requests. requests.items) result (planned_at controller.now.digits controller.now.moment controller.now.progress claims.now) }
{
    match &controller.progress {
        Progress::ListingClaims {
            set,
            revisions,
            pods,
        } => requested(
            controller.alloc,
            set,
            controller.digits,
            &controller.moment,
            revisions.as_slice(),
            pods.as_slice(),
            claims,
        ),
        _ => unreachable!(),
    }
}

/// Moves on by the list of the claims for its plan.
fn on_claims(controller: &mut Controller, reply: &Reply) -> Result<(), Memory>
    requires { is_planning controller.old.progress ≡ true }
    ensures { Takes reply.now controller.old controller.new result }
{
    match listed(reply) {
        Some((claims, _)) => {
            let found = plan_with(controller, claims.as_slice());
            start_plan(controller, found)
        }
        None => {
            set_progress(controller, Progress::ReadingSet);
            Ok(())
        }
    }
}

/// Starts the plan, or keeps why it was refused.
#[tactic(auto, using(crate::proofs::Heard::refused_with), unfolding(crate::specs::Controller::reconciler_of, crate::specs::Controller::phase_of, crate::specs::Controller::refusal_of, crate::specs::Controller::refusals_of, crate::specs::Progress::phase_at))]
fn start_plan(
    controller: &mut Controller,
    found: Result<Vec<Request>, PlanError>,
) -> Result<(), Memory>
    ensures itself { KeepsItself controller.old controller.new }
    ensures starts { OnOk result ((planned : Result (List Request) PlanError)
        → Gives (λ requests. requests.items) found planned → StandsAt (acts (or_none planned)) (why_not planned) controller.new) }
    ensures memory { OnErr result (Stays controller.old controller.new) }
{
    match found {
        Ok(requests) => {
            refuse(controller, None);
            set_progress(controller, acting(requests));
            Ok(())
        }
        Err(PlanError::Memory) => Err(Memory),
        Err(error) => {
            refuse(controller, Some(error));
            set_progress(controller, Progress::ListingOldClaims);
            Ok(())
        }
    }
}

fn set_progress(controller: &mut Controller, progress: Progress)
    ensures { controller.new ≡ record controller.old { progress = progress } }
{
    drop(mem::replace(&mut controller.progress, progress));
}

fn refuse(controller: &mut Controller, refusal: Option<PlanError>)
    ensures { controller.new ≡ record controller.old { refusal = refusal } }
{
    controller.refusal = refusal;
}

/// Takes its progress out. What is left in its place stays there until the next progress is set.
fn take_progress(controller: &mut Controller) -> Progress
    ensures was { result ≡ controller.old.progress }
    ensures stays { controller.new ≡ record controller.old { progress = ReadingSet } }
{
    mem::replace(&mut controller.progress, Progress::ReadingSet)
}

/// What follows the reply to the last action or delete.
#[tactic(auto, unfolding(crate::specs::Progress::phase_at, rounds::specs::Phase::takes))]
fn progress_after(progress: Progress, reply: &Reply) -> Progress
    requires { is_carrying progress ≡ true }
    ensures { (c : Reconciler) → phase_at result ≡ takes c (phase_at progress) reply.now }
{
    match progress {
        Progress::Acting { next, later } => after_action(next, later, reply),
        Progress::Deleting { next, later } => after_deletion(next, later, reply),
        _ => unreachable!(),
    }
}

/// Moves on with its plan or its deletes, by the reply to the last one.
#[tactic(auto, using(crate::proofs::Heard::refusal_carried), unfolding(crate::specs::Controller::reconciler_of, crate::specs::Controller::phase_of, crate::specs::Controller::refusal_of, crate::specs::Controller::refusals_of))]
fn continue_requests(controller: &mut Controller, reply: &Reply)
    requires { is_carrying controller.old.progress ≡ true }
    ensures itself { KeepsItself controller.old controller.new }
    ensures hears { Hears reply.now controller.old controller.new }
{
    let progress = take_progress(controller);
    set_progress(controller, progress_after(progress, reply));
}
