// The actions of the steps on a set's pods.
ghost use Rattle.std.specs.Prelude.{◌≡◌, true, IfOk, OnOk, length, nat_le, take};
ghost use Rattle.std.specs.List.{flat_map};
ghost use Rattle.set_views.specs.declared.fault.PlanError.TheVariants.{Memory as OutOfMemory};
ghost use Rattle.set_views.specs.Set.{set_parts};
ghost use Rattle.objects.specs.Names.{most_label};
ghost use Rattle.claims.specs.Changes.{make_claims};
ghost use Rattle.claims.specs.Listed.{IsFor, claim_named};
ghost use Rattle.sets.specs.Actions.{actions_of, changes_in, claim_action, claim_actions, name_at, new_pod, revision_of};
ghost use Rattle.sets.specs.Truncation.{Adds, AreNameable, is_nameable};

use crate::action::Action;
use crate::actions::Actions;
use claims::{ClaimChange, ListedClaims, keep_claims, make_claims, release_claims};
use manifests::{PodTemplate, pod_of};
use objects::{Memory, Object, Text, pod_name};
use pod_steps::{Revision, Step};
use revisions::Revisions;
use set_views::{PlanError, Set};
use std::alloc::Global;

/// The name of the set's pod of that ordinal.
pub(crate) fn name_at(alloc: Global, set: &Set, ordinal: u32) -> Result<Text, Memory>
    ensures { IfOk result (λ name. name ≡ name_at (set_parts set.now) ordinal) }
{
    Ok(Text::from(pod_name(alloc, set.object.key.name.as_str(), ordinal)?))
}

/// The one refusal that is left.
fn want_of_memory(error: PlanError) -> Memory
    requires { error ≡ OutOfMemory }
{
    drop(error);
    Memory
}

/// What new pods are made from.
#[derive(Drop)]
pub(crate) struct Templates<'a> {
    current: PodTemplate<'a>,
    update: PodTemplate<'a>,
}

/// What the set's new pods are made from, at its current and at its update revision.
pub(crate) fn templates_of<'a>(
    alloc: Global,
    set: &'a Set,
    revisions: &Revisions<'a>,
) -> Result<Templates<'a>, Memory>
    ensures current_set { IfOk result (λ templates. templates.current.set.now ≡ set.now) }
    ensures update_set { IfOk result (λ templates. templates.update.set.now ≡ set.now) }
    ensures current { IfOk result (λ templates. templates.current.revision.now ≡ revisions.now.current.object.now) }
    ensures update { IfOk result (λ templates. templates.update.revision.now ≡ revisions.now.update.object.now) }
{
    let current = PodTemplate::of(alloc, set, &revisions.current)?;
    let update = PodTemplate::of(alloc, set, &revisions.update)?;
    Ok(Templates { current, update })
}

/// The set's pod of that ordinal, from that template of the set.
fn new_pod(
    alloc: Global,
    set: &Set,
    template: &PodTemplate<'_>,
    ordinal: u32,
) -> Result<Object, Memory>
    requires of_set { template.now.set.now ≡ set.now }
    requires fits { nat_le (length (name_at (set_parts set.now) ordinal)) most_label ≡ true }
    ensures { IfOk result (λ pod. pod ≡ new_pod (set_parts set.now) template.now.revision.now ordinal) }
{
    match pod_of(alloc, template, ordinal) {
        Ok(pod) => Ok(pod),
        Err(error) => Err(want_of_memory(error)),
    }
}

/// The set's pod of that ordinal, from that revision.
fn pod_from(
    alloc: Global,
    set: &Set,
    templates: &Templates<'_>,
    revision: Revision,
    ordinal: u32,
) -> Result<Object, Memory>
    requires current_set { templates.now.current.set.now ≡ set.now }
    requires update_set { templates.now.update.set.now ≡ set.now }
    requires fits { nat_le (length (name_at (set_parts set.now) ordinal)) most_label ≡ true }
    ensures { IfOk result (λ pod. pod ≡ new_pod (set_parts set.now)
        (revision_of templates.now.current.revision.now templates.now.update.revision.now revision) ordinal) }
{
    match revision {
        Revision::Current => new_pod(alloc, set, &templates.current, ordinal),
        Revision::Update => new_pod(alloc, set, &templates.update, ordinal),
    }
}

fn claim_action(change: ClaimChange) -> Action
    ensures { result ≡ claim_action change }
{
    match change {
        ClaimChange::Create(claim) => Action::CreateClaim(claim),
        ClaimChange::Update(claim) => Action::UpdateClaim(claim),
    }
}

/// Adds these changes of claims, in order.
fn add_changes(actions: &mut Actions, changes: Vec<ClaimChange>) -> Result<(), Memory>
    ensures { OnOk result (Adds actions.old.list.items actions.new.list.items (claim_actions changes.items)) }
{
    for change in changes {
        actions.add(claim_action(change))?;
    }
    Ok(())
}

/// The first changes, at most so many, of the claims of a pod that is then created. There are none if its name is too
/// long, for which the plan is refused earlier.
fn make_claim_changes(
    alloc: Global,
    set: &Set,
    claims: &ListedClaims<'_>,
    ordinal: u32,
    most: usize,
) -> Result<Vec<ClaimChange>, Memory>
    ensures { IfOk result (λ changes. changes.items ≡ take most (changes_in (make_claims (set_parts set.now) (claim_named claims.now) ordinal))) }
{
    match make_claims(alloc, set, claims, ordinal, most) {
        Ok(changes) => Ok(changes),
        Err(error) => match error {
            PlanError::Memory => Err(Memory),
            _ => {
                drop(error);
                Ok(Vec::new(alloc))
            }
        },
    }
}

/// Adds the changes of the claims of a pod that is then created. No more of them are made than there is room for.
fn add_make_claims(
    actions: &mut Actions,
    alloc: Global,
    set: &Set,
    claims: &ListedClaims<'_>,
    ordinal: u32,
) -> Result<(), Memory>
    ensures { OnOk result (Adds actions.old.list.items actions.new.list.items
        (claim_actions (changes_in (make_claims (set_parts set.now) (claim_named claims.now) ordinal)))) }
{
    let most = actions.room();
    let changes = make_claim_changes(alloc, set, claims, ordinal, most)?;
    add_changes(actions, changes)?;
    Ok(())
}

/// Adds the actions of a step. Nothing is made for a list that is full.
#[tactic(auto, using(crate::proofs::Truncation::adds_past), unfolding(crate::specs::Actions::actions_of))]
fn add_step(
    actions: &mut Actions,
    alloc: Global,
    set: &Set,
    claims: &ListedClaims<'_>,
    templates: &Templates<'_>,
    step: Step,
) -> Result<(), Memory>
    requires for_set { IsFor (set_parts set.now) claims.now }
    requires current_set { templates.now.current.set.now ≡ set.now }
    requires update_set { templates.now.update.set.now ≡ set.now }
    requires nameable { is_nameable (set_parts set.now) step ≡ true }
    ensures { OnOk result (Adds actions.old.list.items actions.new.list.items
        (actions_of (set_parts set.now) (claim_named claims.now) templates.now.current.revision.now templates.now.update.revision.now step)) }
{
    if actions.is_full() {
        return Ok(());
    }
    match step {
        Step::MakeClaims { ordinal } => add_make_claims(actions, alloc, set, claims, ordinal),
        Step::KeepClaims { ordinal } => {
            let changes = keep_claims(alloc, set, claims, ordinal)?;
            add_changes(actions, changes)
        }
        Step::ReleaseClaims { ordinal, uid } => {
            let changes = release_claims(alloc, set, claims, ordinal, uid)?;
            add_changes(actions, changes)
        }
        Step::CreatePod { ordinal, revision } => {
            let pod = pod_from(alloc, set, templates, revision, ordinal)?;
            actions.add(Action::CreatePod(pod))
        }
        Step::DeletePod { ordinal, uid } => {
            let name = name_at(alloc, set, ordinal)?;
            actions.add(Action::DeletePod { name, uid })
        }
        Step::Wait { ordinal, cause } => {
            let name = name_at(alloc, set, ordinal)?;
            actions.add(Action::Wait(cause, name))
        }
    }
}

/// Adds the actions of these steps, in order.
pub(crate) fn add_steps(
    actions: &mut Actions,
    alloc: Global,
    set: &Set,
    claims: &ListedClaims<'_>,
    templates: &Templates<'_>,
    steps: &[Step],
) -> Result<(), Memory>
    requires for_set { IsFor (set_parts set.now) claims.now }
    requires current_set { templates.now.current.set.now ≡ set.now }
    requires update_set { templates.now.update.set.now ≡ set.now }
    requires nameable { AreNameable (set_parts set.now) steps.now }
    ensures { OnOk result (Adds actions.old.list.items actions.new.list.items (flat_map (actions_of (set_parts set.now)
        (claim_named claims.now) templates.now.current.revision.now templates.now.update.revision.now) steps.now)) }
{
    for step in steps {
        add_step(actions, alloc, set, claims, templates, *step)?;
    }
    Ok(())
}
