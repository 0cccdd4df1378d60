// A controller that follows a caller: it handles the replies that the caller got.
ghost use Rattle.std.specs.Prelude.{◌≡◌, ◌==◌, ℕ, None, IfOk, IfSome, OnOk, if◌then◌else◌};
ghost use Rattle.std.specs.BTreeMap.{get};
ghost use Rattle.std.specs.Ordering.{nat_cmp};
ghost use Rattle.rounds.specs.Phase.{listing_old_claims, takes};
ghost use Rattle.controllers.specs.Controller.{phase_of, reconciler_of, refusal_after, refusal_of, refusals_of};
ghost use Rattle.traces.specs.RefusedPlans.{refusals_for};
ghost use Rattle.traces.specs.Standing.{HasHeard, IsOf, phases_in};

use controllers::{Controller, SetSpec};
use objects::Memory;
use requests::{Reason, Reply};
use set_views::PlanError;
use std::alloc::{AllocError, Global};
use std::collections::BTreeMap;

/// Handles the reply to what the controller sends in its phase.
fn take(controller: &mut Controller, reply: &Reply) -> Result<(), Memory>
    ensures phase { OnOk result (phase_of controller.new ≡ takes (reconciler_of controller.old) (phase_of controller.old) reply.now) }
    ensures refusal { OnOk result (refusal_of controller.new
        ≡ refusal_after (refusals_of controller.old) (phase_of controller.old) reply.now (refusal_of controller.old)) }
    ensures reconciler { OnOk result (reconciler_of controller.new ≡ reconciler_of controller.old) }
    ensures refusals { OnOk result (refusals_of controller.new ≡ refusals_of controller.old) }
{
    // A reply is handled only if a request waits for it.
    drop(controller.next()?);
    controller.take(reply)
}

/// Brings the controller to where a refused plan leaves it, with no refusal left. It collects next, as it does after it
/// read that its set was deleted.
#[tactic(auto, unfolding(rounds::specs::Phase::takes))]
fn pass_over(controller: &mut Controller) -> Result<(), Memory>
    ensures phase { OnOk result (phase_of controller.new ≡ listing_old_claims) }
    ensures refusal { OnOk result (refusal_of controller.new ≡ None) }
    ensures reconciler { OnOk result (reconciler_of controller.new ≡ reconciler_of controller.old) }
    ensures refusals { OnOk result (refusals_of controller.new ≡ refusals_of controller.old) }
{
    controller.crash();
    let gone = Reply::Refused(Reason::NotFound);
    let taken = take(controller, &gone);
    drop(gone);
    taken
}

fn copy_of(reason: &PlanError) -> Result<PlanError, AllocError>
    ensures { IfOk result (λ copy. copy ≡ reason.now) }
{
    match reason {
        PlanError::NameTooLong => Ok(PlanError::NameTooLong),
        PlanError::BadSpec => Ok(PlanError::BadSpec),
        PlanError::Foreign(pod) => Ok(PlanError::Foreign(pod.clone()?)),
        PlanError::OrdinalTooLarge => Ok(PlanError::OrdinalTooLarge),
        PlanError::NoRevisionName => Ok(PlanError::NoRevisionName),
        PlanError::Memory => Ok(PlanError::Memory),
    }
}

fn last_reason(controller: &Controller) -> Result<Option<PlanError>, AllocError>
    ensures { IfOk result (λ reason. reason ≡ refusal_of controller.now) }
{
    let Some(reason) = controller.last_refusal() else {
        return Ok(None);
    };
    Ok(Some(copy_of(reason)?))
}

/// Handles a reply, and returns why the plan is refused, if the reply completes the reading for a plan that is.
#[tactic(auto, using(crate::proofs::Passing::passed_over))]
fn on_reply(controller: &mut Controller, reply: &Reply) -> Result<Option<PlanError>, Memory>
    requires { refusal_of controller.old ≡ None }
    ensures reason { IfOk result (λ reason. reason ≡ refusal_after (refusals_of controller.old) (phase_of controller.old) reply.now None) }
    ensures phase { OnOk result (phase_of controller.new ≡ takes (reconciler_of controller.old) (phase_of controller.old) reply.now) }
    ensures refusal { OnOk result (refusal_of controller.new ≡ None) }
    ensures reconciler { OnOk result (reconciler_of controller.new ≡ reconciler_of controller.old) }
    ensures refusals { OnOk result (refusals_of controller.new ≡ refusals_of controller.old) }
{
    take(controller, reply)?;
    match last_reason(controller)? {
        Some(reason) => {
            pass_over(controller)?;
            Ok(Some(reason))
        }
        None => Ok(None),
    }
}

/// Takes the controller of a caller out, or makes one that has read nothing.
fn taken_out(
    alloc: Global,
    spec: &SetSpec,
    standing: &mut BTreeMap<u64, Controller>,
    caller: u64,
) -> Result<Controller, Memory>
    requires { IfSome (get nat_cmp standing.old caller) (IsOf spec.now) }
    ensures is_of { IfOk result (IsOf spec.now) }
    ensures phase { IfOk result (λ controller. phase_of controller ≡ phases_in standing.old caller) }
    ensures rest { (n : ℕ) → get nat_cmp standing.new n ≡ (if caller == n then None else get nat_cmp standing.old n) }
{
    match standing.remove(&caller) {
        Some(controller) => Ok(controller),
        None => Controller::of(alloc, spec),
    }
}

/// Lets the controller of a caller handle a reply, and returns why the plan is refused, if the reply completes the
/// reading for a plan that is.
pub(crate) fn reason_at(
    alloc: Global,
    spec: &SetSpec,
    standing: &mut BTreeMap<u64, Controller>,
    caller: u64,
    reply: &Reply,
) -> Result<Option<PlanError>, Memory>
    requires { IfSome (get nat_cmp standing.old caller) (IsOf spec.now) }
    ensures reason { IfOk result (λ reason. reason ≡ refusal_after (refusals_for spec.now) (phases_in standing.old caller) reply.now None) }
    ensures heard { OnOk result (HasHeard spec.now caller reply.now standing.old standing.new) }
{
    let mut controller = taken_out(alloc, spec, standing, caller)?;
    let reason = on_reply(&mut controller, reply)?;
    standing.insert(caller, controller)?;
    Ok(reason)
}
