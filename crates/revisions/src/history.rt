ghost use Rattle.std.specs.Prelude.{◌≡◌, ℕ, List, map, not, bytes_eq, ◌||◌, ◌&&◌, IfOk, OnOk, option_map, false};
ghost use Rattle.std.specs.List.{filter};
ghost use Rattle.std.specs.Option.{option_map_or};
ghost use Rattle.set_views.specs.Pod.{pod_parts};
ghost use Rattle.set_views.specs.Set.{set_parts};
ghost use Rattle.set_views.specs.Predicates.{owns_pod};
ghost use Rattle.revisions.specs.History.{expired_revisions, is_live};
ghost use Rattle.revisions.specs.Listing.{has_name};
ghost use Rattle.revisions.specs.Plan.{objects_of};

use crate::plan::Revisions;
use crate::view::RevisionView;
use set_views::{PodView, Set};
use std::alloc::{AllocError, Global};
use std::collections::BTreeSet;

/// The revisions that are deleted for the set, from the oldest on (Kubernetes API reference, StatefulSetSpec:
/// `revisionHistoryLimit`): of those that are neither the one of this name, which is the current one, nor the update
/// revision, nor one that a pod of the set was made from, all but the newest, as many as the limit. The pods are those
/// of the set's namespace.
pub fn expired_revisions<'a>(
    alloc: Global,
    set: &Set,
    revisions: &Revisions<'a>,
    current: &str,
    pods: &[PodView<'_>],
) -> Result<Vec<RevisionView<'a>>, AllocError>
    ensures { IfOk result (λ gone. objects_of gone.items ≡ expired_revisions (set_parts set.now) (map pod_parts pods.now) current.now
        revisions.now.update.object.now.key.name (objects_of revisions.now.owned.items)) }
{
    let live = live_names(alloc, set, pods, current, revisions.update.name)?;
    let mut history = others(alloc, &live, &revisions.owned)?;
    drop(live);
    history.truncate(history.len().saturating_sub(set.history_limit as usize));
    Ok(history)
}

/// The names of the current and the update revision, and of those that the set's pods were made from.
fn live_names<'b>(
    alloc: Global,
    set: &Set,
    pods: &[PodView<'b>],
    current: &'b str,
    update: &'b str,
) -> Result<BTreeSet<&'b str>, AllocError>
    ensures { IfOk result (λ names. (q : List ℕ)
        → has_name q names.keys ≡ is_live (set_parts set.now) (map pod_parts pods.now) current.entry.now update.entry.now q) }
{
    let mut names = BTreeSet::new(alloc);
    names.insert(current)?;
    names.insert(update)?;
    for pod in pods {
        take_name(&mut names, set, pod)?;
    }
    Ok(names)
}

/// Puts the name of the pod's revision among the names, if the pod is the set's.
fn take_name<'b>(
    names: &mut BTreeSet<&'b str>,
    set: &Set,
    pod: &PodView<'b>,
) -> Result<(), AllocError>
    ensures { OnOk result ((q : List ℕ) → has_name q names.new.keys ≡ ((owns_pod (set_parts set.now) (pod_parts pod.now)
        && option_map_or (bytes_eq q) (option_map (λ s. s.now) pod.now.revision) false) || has_name q names.old.keys)) }
{
    if let Some(name) = pod.revision {
        if pod.is_owned_by(set) {
            names.insert(name)?;
        }
    }
    Ok(())
}

/// The revisions that have none of these names, in their order.
fn others<'a>(
    alloc: Global,
    names: &BTreeSet<&str>,
    owned: &[RevisionView<'a>],
) -> Result<Vec<RevisionView<'a>>, AllocError>
    ensures { IfOk result (λ others. objects_of others.items ≡ filter (λ o. not (has_name o.key.name names.now.keys)) (objects_of owned.now)) }
{
    let mut others = Vec::new(alloc);
    for revision in owned {
        if !names.contains(revision.name) {
            others.push(*revision)?;
        }
    }
    Ok(others)
}
