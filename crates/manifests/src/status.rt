// The set with its new status.
ghost use Rattle.std.specs.Prelude.{◌≡◌, IfOk, option_map, option_and_then};
ghost use Rattle.serde_json.specs.Find.{as_object};
ghost use Rattle.objects.specs.Tree.{data_of};
ghost use Rattle.set_views.specs.Set.{set_parts};
ghost use Rattle.manifests.specs.BuiltStatus.{built_status, differs, new_status, old_status, set_with, status_in, status_parts};

use objects::{Members, Object, Tree};
use set_views::Set;
use std::alloc::{AllocError, Global};

/// What a plan counts and names for a StatefulSet's `status`, each field under its name there (Kubernetes API
/// reference, apps/v1, StatefulSetStatus).
#[derive(Clone, Copy)]
pub struct Status<'a> {
    pub replicas: usize,
    pub ready_replicas: usize,
    pub current_replicas: usize,
    pub updated_replicas: usize,
    /// The name of the ControllerRevision that the set's pods come from.
    pub current_revision: &'a str,
    /// The name of the one that they are to get.
    pub update_revision: &'a str,
}

/// The members of the set's status, if it is a map.
fn status_members(set: &Set) -> Option<&Members>
    ensures { option_map (λ m. m.now) result ≡ option_and_then as_object (status_in (set_parts set.now)) }
{
    set.object.member("status")?.as_map()
}

/// The members of the set's status. One that is no map counts as missing.
fn old_status(alloc: Global, set: &Set) -> Result<Members, AllocError>
    ensures { IfOk result (λ old. old ≡ old_status (set_parts set.now)) }
{
    match status_members(set) {
        Some(old) => old.clone(),
        None => Members::none(alloc),
    }
}

fn generation_of(set: &Set) -> u64
    ensures { result ≡ set.now.object.meta.generation }
{
    set.object.meta.generation
}

/// These members, with what was counted and named over them.
fn new_status(
    alloc: Global,
    set: &Set,
    status: Status<'_>,
    old: Members,
) -> Result<Members, AllocError>
    ensures { IfOk result (λ new. new ≡ new_status (set_parts set.now) (status_parts status.entry) old) }
{
    let counted = old.with_number("updatedReplicas", status.updated_replicas as u64)?;
    let counted = counted.with_text(alloc, "updateRevision", status.update_revision)?;
    let counted = counted.with_number("replicas", status.replicas as u64)?;
    let counted = counted.with_number("readyReplicas", status.ready_replicas as u64)?;
    let counted = counted.with_number("observedGeneration", generation_of(set))?;
    let counted = counted.with_text(alloc, "currentRevision", status.current_revision)?;
    let counted = counted.with_number("currentReplicas", status.current_replicas as u64)?;
    let counted = counted.with_number("collisionCount", set.collisions as u64)?;
    Ok(counted)
}

/// Whether the set's status is missing, or is not this one.
fn differs(set: &Set, status: &Tree) -> bool
    ensures { result ≡ differs (set_parts set.now) (data_of status.now) }
{
    match set.object.member("status") {
        Some(old) => !status.is_same(old),
        None => true,
    }
}

/// The set with its new status, if that differs from the status that it has; else none. The set's generation is put
/// over the old status as `observedGeneration`, its collision count as `collisionCount`, and what was counted and named
/// under its own names. Other members of the old status stay. A status that is no map counts as missing.
#[tactic(auto, unfolding(crate::specs::BuiltStatus::built_status))]
pub fn with_status(
    alloc: Global,
    set: &Set,
    status: Status<'_>,
) -> Result<Option<Object>, AllocError>
    ensures { IfOk result (λ changed. changed ≡ built_status (set_parts set.now) (status_parts status.entry)) }
{
    let members = new_status(alloc, set, status, old_status(alloc, set)?)?;
    let new = Tree::Map(members);
    if differs(set, &new) {
        Ok(Some(set_with(set, new)?))
    } else {
        drop(new);
        Ok(None)
    }
}

/// The set with that status.
fn set_with(set: &Set, status: Tree) -> Result<Object, AllocError>
    ensures { IfOk result (λ object. object ≡ set_with (set_parts set.now) (data_of status)) }
{
    let object = set.object.clone()?;
    object.with_status(Some(status))
}
