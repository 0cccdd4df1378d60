// The plan of a set.
ghost use Rattle.std.specs.Prelude.{◌≡◌, ◌≤◌, ◌∷◌, [], map, take, true, IfOk, Result, Ok, Err};
ghost use Rattle.set_views.specs.declared.fault.PlanError.{PlanError};
ghost use Rattle.set_views.specs.declared.fault.PlanError.TheVariants.{Memory as OutOfMemory, NoRevisionName};
ghost use Rattle.set_views.specs.Pod.{pod_parts};
ghost use Rattle.set_views.specs.Set.{set_parts};
ghost use Rattle.set_views.specs.Steps.{Gives};
ghost use Rattle.revisions.specs.Plan.{PlanParts, objects_of, plan_parts};
ghost use Rattle.sets.specs.declared.action.Action.TheVariants.{WriteRevision};
ghost use Rattle.sets.specs.Plan.{IsPlan, fitting_pods, most_actions, names_fit, plan_by, plan_of_pods, refusal, unless_refused};
ghost use Rattle.claims.specs.Listed.{IsFor, claim_named};
ghost use Rattle.sets.specs.FullPlan.{full_plan};

use crate::action::{Action, Plan};
use crate::actions::Actions;
use crate::ending::{add_history, add_status, current_name};
use crate::steps::{add_steps, name_at, templates_of};
use claims::ListedClaims;
use objects::{MAX_LABEL, Memory, Object};
use pod_steps::{Replica, pod_steps, replicas_of, views_of};
use revisions::{RevisionPlan, Revisions, revision_plan};
use set_views::{PlanError, PodView, Set};
use std::alloc::Global;
use std::collections::BTreeMap;

/// Whether the name of the last pod in range, if there is one, is not too long.
fn names_fit(alloc: Global, set: &Set) -> Result<bool, Memory>
    ensures { IfOk result (λ fit. fit ≡ names_fit (set_parts set.now)) }
{
    if set.replicas == 0 {
        return Ok(true);
    }
    let last = name_at(alloc, set, set.start + set.replicas - 1)?;
    let fits = last.as_str().len() <= MAX_LABEL;
    Ok(fits)
}

/// The set's pods among the listed ones, given the names of its update and current revisions.
#[tactic(auto, using(set_views::proofs::Chains::fails_then), unfolding(crate::specs::Plan::fitting_pods))]
fn fitting_pods(
    alloc: Global,
    set: &Set,
    update: &str,
    current: &str,
    views: &[PodView<'_>],
) -> Result<BTreeMap<u32, Replica>, PlanError>
    ensures { Gives (λ pods. pods.entries) result (fitting_pods (set_parts set.now) update.now current.now (map pod_parts views.now)) }
{
    if names_fit(alloc, set)? {
        replicas_of(alloc, set, update, current, views)
    } else {
        Err(PlanError::NameTooLong)
    }
}

/// What is planned when the update revision is in place, over the set's pods.
fn actions_over(
    alloc: Global,
    set: &Set,
    views: &[PodView<'_>],
    claims: &ListedClaims<'_>,
    revisions: &Revisions<'_>,
    pods: &BTreeMap<u32, Replica>,
) -> Result<Vec<Action>, Memory>
    requires for_set { IsFor (set_parts set.now) claims.now }
    requires fit { names_fit (set_parts set.now) ≡ true }
    ensures { IfOk result (λ actions. actions.items ≡ take most_actions
        (full_plan (set_parts set.now) (claim_named claims.now) (map pod_parts views.now) (objects_of revisions.now.owned.items)
        revisions.now.current.object.now revisions.now.update.object.now pods.now.entries)) }
{
    // A map's length says that its keys are in order.
    let _len = pods.len();
    let steps = pod_steps(alloc, set, pods)?;
    let mut actions = Actions::new(alloc);
    let templates = templates_of(alloc, set, revisions)?;
    add_steps(&mut actions, alloc, set, claims, &templates, &steps)?;
    drop(templates);
    let current = current_name(set, revisions, pods);
    add_history(&mut actions, alloc, set, views, revisions, current, &steps)?;
    drop(steps);
    add_status(&mut actions, alloc, set, revisions, pods, current)?;
    Ok(actions.list)
}

/// What is planned when the update revision is in place.
fn plan_of_pods(
    alloc: Global,
    set: &Set,
    views: &[PodView<'_>],
    claims: &ListedClaims<'_>,
    revisions: &Revisions<'_>,
) -> Result<Plan, PlanError>
    requires { IsFor (set_parts set.now) claims.now }
    ensures { Gives (λ plan. plan.actions.items) result
        (plan_of_pods (set_parts set.now) (claim_named claims.now) (map pod_parts views.now) (objects_of revisions.now.owned.items)
        revisions.now.current.object.now revisions.now.update.object.now) }
{
    let pods = match fitting_pods(
        alloc,
        set,
        revisions.update.name,
        revisions.current.name,
        views,
    ) {
        Ok(pods) => pods,
        Err(error) => return Err(error),
    };
    let actions = actions_over(alloc, set, views, claims, revisions, &pods)?;
    Ok(Plan { actions })
}

/// The write of that revision alone.
#[tactic(auto, using(set_views::proofs::Chains::fails_then))]
fn write_alone(
    alloc: Global,
    set: &Set,
    views: &[PodView<'_>],
    revision: Object,
) -> Result<Plan, PlanError>
    ensures { Gives (λ plan. plan.actions.items) result (unless_refused (set_parts set.now) (map pod_parts views.now) (Ok (WriteRevision revision ∷ []))) }
{
    let pods = match fitting_pods(alloc, set, "", "", views) {
        Ok(pods) => pods,
        Err(error) => {
            drop(revision);
            return Err(error);
        }
    };
    drop(pods);
    let mut actions = Vec::new(alloc);
    actions.push(Action::WriteRevision(revision))?;
    Ok(Plan { actions })
}

/// The refusal when no revision can be named: what the pods refuse comes before it.
#[tactic(auto, using(set_views::proofs::Chains::fails_then))]
fn no_name_refusal(alloc: Global, set: &Set, views: &[PodView<'_>]) -> Result<Plan, PlanError>
    ensures { Gives (λ plan. plan.actions.items) result (unless_refused (set_parts set.now) (map pod_parts views.now) (Err NoRevisionName)) }
{
    let pods = fitting_pods(alloc, set, "", "", views)?;
    drop(pods);
    Err(PlanError::NoRevisionName)
}

/// The refusal of a plan whose revisions are refused.
fn refusal(
    alloc: Global,
    set: &Set,
    views: &[PodView<'_>],
    error: PlanError,
) -> Result<Plan, PlanError>
    ensures refused { Gives (λ plan. plan.actions.items) result (refusal (set_parts set.now) (map pod_parts views.now) error) }
    ensures memory { error ≡ OutOfMemory → result ≡ Err OutOfMemory }
{
    match error {
        PlanError::NoRevisionName => no_name_refusal(alloc, set, views),
        _ => Err(error),
    }
}

/// What is planned, given what is due of the revisions.
#[tactic(auto, unfolding(crate::specs::Plan::plan_by))]
fn plan_by(
    alloc: Global,
    set: &Set,
    views: &[PodView<'_>],
    claims: &ListedClaims<'_>,
    found: Result<RevisionPlan<'_>, PlanError>,
) -> Result<Plan, PlanError>
    requires { IsFor (set_parts set.now) claims.now }
    ensures planned { (planned : Result PlanParts PlanError) → Gives plan_parts found.entry planned
        → Gives (λ plan. plan.actions.items) result (plan_by (set_parts set.now) (claim_named claims.now) (map pod_parts views.now) planned) }
    ensures memory { found.entry ≡ Err OutOfMemory → result ≡ Err OutOfMemory }
{
    match found {
        Ok(RevisionPlan::Create(revision)) => write_alone(alloc, set, views, revision),
        Ok(RevisionPlan::Renumber(revision)) => write_alone(alloc, set, views, revision),
        Ok(RevisionPlan::Settled(revisions)) => plan_of_pods(alloc, set, views, claims, &revisions),
        Err(error) => refusal(alloc, set, views, error),
    }
}

/// Plans what is to be done for a set, given the pods, claims and revisions that were listed (Kubernetes,
/// "StatefulSets"). Objects of other kinds and namespaces are ignored, and of several with one name the first counts.
///
/// If a revision is to be made or to get a new number, its write is all of the plan. Else come the actions on pods, by
/// the set's `podManagementPolicy` and `updateStrategy`; if there are none of these, the deletions of revisions that
/// are history, by `revisionHistoryLimit`; and last the set with its new `status`, if that differs. Of all actions
/// these are the first 1,024. The changes of a pod's claims come before its create.
///
/// The refusals are tested in the order BadSpec, NameTooLong, Foreign, NoRevisionName. It is BadSpec if the revisions
/// have no next number or no template to make pods from; NameTooLong if the name of the last pod in range, or of a
/// revision to be made, has more than 63 bytes; Foreign if a listed pod with an ordinal in range is not the set's, with
/// the name of the least; and NoRevisionName if the names of 1,024 collision counts are in use.
pub fn plan(
    alloc: Global,
    set: &Set,
    pods: &[Object],
    claims: &[Object],
    revisions: &[Object],
    digits: usize,
) -> Result<Plan, PlanError>
    requires some { 1 ≤ digits }
    requires most { digits ≤ 64 }
    ensures { IsPlan (set_parts set.now) pods.now claims.now revisions.now digits result }
{
    let views = views_of(alloc, set, pods)?;
    let listed = ListedClaims::of(alloc, set, claims)?;
    let found = revision_plan(alloc, set, revisions, digits);
    plan_by(alloc, set, &views, &listed, found)
}
