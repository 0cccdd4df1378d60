// The plan of a controller over what a store has.
ghost use Rattle.std.specs.Prelude.{◌≡◌, ◌≤◌, ℕ, List, IfOk};
ghost use Rattle.controllers.specs.Controller.{refusals_with};
ghost use Rattle.set_views.specs.Set.{set_parts};
ghost use Rattle.set_views.specs.Steps.{Gives};
ghost use Rattle.sets.specs.PlanOfLists.{plan_of_lists};
ghost use Rattle.first_rounds.specs.Obstacles.{actions_for, refusal_over};

use crate::listing::listed;
use controllers::SetSpec;
use objects::{Kind, Memory, Object};
use plain_store::Trees;
use sets::{Plan, PlanError, Set, plan, read_set};
use std::alloc::Global;

/// Why the plan for the set is refused, if it is.
#[tactic(auto, unfolding(crate::specs::Obstacles::refusal_over))]
pub(crate) fn refusal_over(
    alloc: Global,
    spec: &SetSpec,
    store: &Trees,
    set: &Object,
) -> Result<Option<PlanError>, Memory>
    ensures { IfOk result (λ refusal. refusal ≡ refusal_over spec.now store.now set.now) }
{
    let revisions = listed(alloc, store, Kind::ControllerRevision, &spec.namespace)?;
    let pods = listed(alloc, store, Kind::Pod, &spec.namespace)?;
    let claims = listed(alloc, store, Kind::PersistentVolumeClaim, &spec.namespace)?;
    refusal(
        alloc,
        set,
        spec.digits,
        revisions.as_slice(),
        pods.as_slice(),
        claims.as_slice(),
    )
}

#[tactic(auto, using(crate::proofs::Refusing::of_plan, crate::proofs::Refusing::of_refusal))]
fn refusal(
    alloc: Global,
    set: &Object,
    digits: usize,
    revisions: &[Object],
    pods: &[Object],
    claims: &[Object],
) -> Result<Option<PlanError>, Memory>
    requires some { 1 ≤ digits }
    requires most { digits ≤ 64 }
    ensures { IfOk result (λ refusal. (moment : List ℕ) → refusal ≡ refusals_with digits moment set.now revisions.now pods.now claims.now) }
{
    match plan_of(alloc, set, digits, revisions, pods, claims) {
        Ok(plan) => {
            drop(plan);
            Ok(None)
        }
        Err(PlanError::Memory) => Err(Memory),
        Err(error) => Ok(Some(error)),
    }
}

#[tactic(auto, using(set_views::proofs::Chains::fails_then))]
fn plan_of(
    alloc: Global,
    set: &Object,
    digits: usize,
    revisions: &[Object],
    pods: &[Object],
    claims: &[Object],
) -> Result<Plan, PlanError>
    requires some { 1 ≤ digits }
    requires most { digits ≤ 64 }
    ensures { Gives (λ plan. plan.actions.items) result (actions_for set.now digits revisions.now pods.now claims.now) }
{
    let set = read_set(alloc, set)?;
    planned(alloc, &set, digits, revisions, pods, claims)
}

fn planned(
    alloc: Global,
    set: &Set,
    digits: usize,
    revisions: &[Object],
    pods: &[Object],
    claims: &[Object],
) -> Result<Plan, PlanError>
    requires some { 1 ≤ digits }
    requires most { digits ≤ 64 }
    ensures { Gives (λ plan. plan.actions.items) result (plan_of_lists (set_parts set.now) digits revisions.now pods.now claims.now) }
{
    plan(alloc, set, pods, claims, revisions, digits)
}
