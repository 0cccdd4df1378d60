// The plan of a set, as requests.
ghost use Rattle.std.specs.Prelude.{◌≤◌};
ghost use Rattle.set_views.specs.Set.{set_parts};
ghost use Rattle.set_views.specs.Steps.{Gives};
ghost use Rattle.sets.specs.PlanOfLists.{plan_of_lists};
ghost use Rattle.controllers.specs.Planned.{requested, requested_for};

use crate::actions::requests_of;
use objects::{Object, Text};
use requests::Request;
use sets::{Plan, PlanError, Set, plan, read_set};
use std::alloc::Global;

/// What is to be done for a set. It is one plan alone, by what was listed.
fn planned(
    alloc: Global,
    set: &Set,
    digits: usize,
    revisions: &[Object],
    pods: &[Object],
    claims: &[Object],
) -> Result<Plan, PlanError>
    requires some { 1 ≤ digits }
    requires most { digits ≤ 64 }
    ensures { Gives (λ plan. plan.actions.items) result (plan_of_lists (set_parts set.now) digits revisions.now pods.now claims.now) }
{
    plan(alloc, set, pods, claims, revisions, digits)
}

#[tactic(auto, using(set_views::proofs::Chains::fails_then), unfolding(crate::specs::Planned::requested_for))]
fn requested_for(
    alloc: Global,
    set: &Set,
    digits: usize,
    moment: &Text,
    revisions: &[Object],
    pods: &[Object],
    claims: &[Object],
) -> Result<Vec<Request>, PlanError>
    requires some { 1 ≤ digits }
    requires most { digits ≤ 64 }
    ensures { Gives (λ requests. requests.items) result (requested_for (set_parts set.now) digits moment.now revisions.now pods.now claims.now) }
{
    let plan = planned(alloc, set, digits, revisions, pods, claims)?;
    let namespace = set.object.key.namespace.as_str();
    Ok(requests_of(alloc, namespace, moment, plan.actions)?)
}

/// The requests of the plan of a set, in the order of its actions. Creates are of claims, pods and new revisions.
/// Updates, of a claim, a revision or the set's status, name the UID and the resource version that were read. A pod is
/// deleted by its UID, with the moment; a revision by its UID and resource version. A wait is no request, nor is what
/// no store can hold.
#[tactic(auto, using(set_views::proofs::Chains::fails_then), unfolding(crate::specs::Planned::requested))]
pub(crate) fn requested(
    alloc: Global,
    set: &Object,
    digits: usize,
    moment: &Text,
    revisions: &[Object],
    pods: &[Object],
    claims: &[Object],
) -> Result<Vec<Request>, PlanError>
    requires some { 1 ≤ digits }
    requires most { digits ≤ 64 }
    ensures { Gives (λ requests. requests.items) result (requested set.now digits moment.now revisions.now pods.now claims.now) }
{
    let set = read_set(alloc, set)?;
    requested_for(alloc, &set, digits, moment, revisions, pods, claims)
}
