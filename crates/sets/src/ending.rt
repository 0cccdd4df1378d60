// What a plan ends with: the history of revisions, and the status.
ghost use Rattle.std.specs.Prelude.{◌≡◌, map, IfOk, OnOk};
ghost use Rattle.set_views.specs.Pod.{pod_parts};
ghost use Rattle.set_views.specs.Set.{set_parts};
ghost use Rattle.revisions.specs.Plan.{objects_of};
ghost use Rattle.sets.specs.Truncation.{Adds};
ghost use Rattle.sets.specs.FullPlan.{current_name, deletion, deletions, status_of, status_write};

use crate::action::Action;
use crate::actions::Actions;
use manifests::{Status, with_status};
use objects::{Memory, Text};
use pod_steps::{Replica, Step, are_quiet, counts_of, is_rolled_out};
use revisions::{RevisionView, Revisions, expired_revisions};
use set_views::{PodView, Set};
use std::alloc::Global;
use std::collections::BTreeMap;

/// The name that the status has for the current revision.
pub(crate) fn current_name<'a>(
    set: &Set,
    revisions: &Revisions<'a>,
    pods: &BTreeMap<u32, Replica>,
) -> &'a str
    ensures { result.now ≡ current_name (set_parts set.now) pods.now.entries revisions.now.current.object.now revisions.now.update.object.now }
{
    if is_rolled_out(set, pods) {
        revisions.update.name
    } else {
        revisions.current.name
    }
}

fn deletion(alloc: Global, revision: &RevisionView<'_>) -> Result<Action, Memory>
    ensures { IfOk result (λ action. action ≡ deletion revision.now.object.now) }
{
    let name = Text::copy_of(alloc, revision.name)?;
    let object = revision.object;
    Ok(Action::DeleteRevision {
        name,
        uid: object.meta.uid,
        version: object.meta.revision,
    })
}

fn add_deletions(
    actions: &mut Actions,
    alloc: Global,
    gone: &[RevisionView<'_>],
) -> Result<(), Memory>
    ensures { OnOk result (Adds actions.old.list.items actions.new.list.items (map deletion (objects_of gone.now))) }
{
    for revision in gone {
        actions.add(deletion(alloc, revision)?)?;
    }
    Ok(())
}

/// Adds the deletions of revisions that are history, unless one of these steps creates, deletes or waits for a pod.
pub(crate) fn add_history(
    actions: &mut Actions,
    alloc: Global,
    set: &Set,
    views: &[PodView<'_>],
    revisions: &Revisions<'_>,
    current: &str,
    steps: &[Step],
) -> Result<(), Memory>
    ensures { OnOk result (Adds actions.old.list.items actions.new.list.items (deletions (set_parts set.now) (map pod_parts views.now)
        (objects_of revisions.now.owned.items) current.now revisions.now.update.object.now.key.name steps.now)) }
{
    if are_quiet(steps) {
        let gone = expired_revisions(alloc, set, revisions, current, views)?;
        add_deletions(actions, alloc, &gone)?;
    }
    Ok(())
}

/// Adds the write of the status, if it differs from the set's.
pub(crate) fn add_status(
    actions: &mut Actions,
    alloc: Global,
    set: &Set,
    revisions: &Revisions<'_>,
    pods: &BTreeMap<u32, Replica>,
    current: &str,
) -> Result<(), Memory>
    ensures { OnOk result (Adds actions.old.list.items actions.new.list.items
        (status_write (set_parts set.now) (status_of (set_parts set.now) pods.now.entries current.now revisions.now.update.object.now.key.name))) }
{
    let counts = counts_of(set, pods);
    let status = Status {
        replicas: counts.replicas,
        ready_replicas: counts.ready,
        current_replicas: counts.current,
        updated_replicas: counts.updated,
        current_revision: current,
        update_revision: revisions.update.name,
    };
    match with_status(alloc, set, status)? {
        Some(changed) => actions.add(Action::WriteStatus(changed)),
        None => Ok(()),
    }
}
