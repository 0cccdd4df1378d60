// Which claims are lost, once a plan is carried out.
ghost use Rattle.std.specs.Prelude.{◌≡◌, IfOk};
ghost use Rattle.set_views.specs.Set.{set_parts};
ghost use Rattle.reasons.specs.Gone.{is_deleted_with, is_gone};
ghost use Rattle.reasons.specs.Lost.{claim_after, claims_with_pods, claims_with_set, is_lost, lost_names, updated_by, updates};

use crate::gone::{Gone, is_deleted_with};
use objects::{Kind, Object, Text};
use set_views::Set;
use sets::Action;
use std::alloc::{AllocError, Global};

/// Whether the action updates the claim.
fn updates(action: &Action, claim: &Object) -> bool
    ensures { result ≡ updates claim.now action.now }
{
    match action {
        Action::UpdateClaim(changed) => changed.key.name.as_str() == claim.key.name.as_str(),
        _ => false,
    }
}

/// Whether the claim, as the action leaves it, is deleted with these owners.
fn is_deleted_as_updated(gone: Gone<'_>, action: &Action, claim: &Object) -> bool
    ensures { result ≡ is_deleted_with (is_gone gone.entry) (updated_by action.now claim.now) }
{
    match action {
        Action::UpdateClaim(changed) => is_deleted_with(gone, changed),
        _ => is_deleted_with(gone, claim),
    }
}

/// The same of the claim as the plan leaves it.
fn is_deleted_after(gone: Gone<'_>, actions: &[Action], claim: &Object) -> bool
    ensures { result ≡ is_deleted_with (is_gone gone.entry) (claim_after actions.now claim.now) }
{
    for action in actions {
        if updates(action, claim) {
            return is_deleted_as_updated(gone, action, claim);
        }
    }
    is_deleted_with(gone, claim)
}

fn is_lost(set: &Set, gone: Gone<'_>, actions: &[Action], claim: &Object) -> bool
    ensures { result ≡ is_lost (set_parts set.now) (is_gone gone.entry) actions.now claim.now }
{
    set.has_in_namespace(Kind::PersistentVolumeClaim, claim)
        && is_deleted_after(gone, actions, claim)
}

fn name_of(claim: &Object) -> Result<Text, AllocError>
    ensures { IfOk result (λ name. name ≡ claim.now.key.name) }
{
    claim.key.name.clone()
}

fn lost_names(
    alloc: Global,
    set: &Set,
    gone: Gone<'_>,
    actions: &[Action],
    claims: &[Object],
) -> Result<Vec<Text>, AllocError>
    ensures { IfOk result (λ names. names.items ≡ lost_names (set_parts set.now) (is_gone gone.entry) actions.now claims.now) }
{
    let mut names = Vec::new(alloc);
    for claim in claims {
        if is_lost(set, gone, actions, claim) {
            names.push(name_of(claim)?)?;
        }
    }
    Ok(names)
}

/// Of these claims the names of those that are deleted with the pods that the actions delete: after all actions, such a
/// pod owns them, and nobody else does (Kubernetes, "Garbage Collection"). Claims of other namespaces are ignored.
pub fn claims_with_pods(
    alloc: Global,
    set: &Set,
    actions: &[Action],
    claims: &[Object],
) -> Result<Vec<Text>, AllocError>
    ensures { IfOk result (λ names. names.items ≡ claims_with_pods (set_parts set.now) actions.now claims.now) }
{
    lost_names(alloc, set, Gone::DeletedBy(actions), actions, claims)
}

/// Those that are deleted with the set in the same way, if it has a `deletionTimestamp`; else none.
pub fn claims_with_set(
    alloc: Global,
    set: &Set,
    actions: &[Action],
    claims: &[Object],
) -> Result<Vec<Text>, AllocError>
    ensures { IfOk result (λ names. names.items ≡ claims_with_set (set_parts set.now) actions.now claims.now) }
{
    if set.object.meta.deletion.is_none() {
        return Ok(Vec::new(alloc));
    }
    lost_names(
        alloc,
        set,
        Gone::Owner(set.object.meta.uid),
        actions,
        claims,
    )
}
