// The pods of a set by their ordinals.
ghost use Rattle.std.specs.Prelude.{◌≡◌, find, map, option_map, IfOk, OnOk};
ghost use Rattle.std.specs.Map.Iter.{deref_pair};
ghost use Rattle.set_views.specs.Pod.{pod_parts};
ghost use Rattle.set_views.specs.Set.{set_parts};
ghost use Rattle.set_views.specs.Steps.{Gives};
ghost use Rattle.pod_steps.specs.Listed.{by_ordinal, is_foreign, owned_of, with_pod, replicas_in};
ghost use Rattle.objects.specs.PodNames.{pod_name};

use crate::replica::{Replica, replica_of};
use objects::{Memory, Text, pod_name};
use set_views::{PlanError, PodView, Set};
use std::alloc::{AllocError, Global};
use std::collections::BTreeMap;

/// Puts the pod at its ordinal, if its name is one of the set's.
fn put_pod(
    pods: &mut BTreeMap<u32, Replica>,
    set: &Set,
    update: &str,
    current: &str,
    pod: &PodView<'_>,
) -> Result<(), AllocError>
    ensures { OnOk result (pods.new.entries ≡ with_pod (set_parts set.now) update.now current.now pods.old.entries (pod_parts pod.now)) }
{
    if let Some(ordinal) = pod.ordinal_in(set) {
        pods.insert(ordinal, replica_of(set, update, current, pod))?;
    }
    Ok(())
}

/// The pods with names of the set, by their ordinals, given the names of its update and current revisions. Of several with
/// one name the first counts.
pub fn by_ordinal(
    alloc: Global,
    set: &Set,
    update: &str,
    current: &str,
    listed: &[PodView<'_>],
) -> Result<BTreeMap<u32, Replica>, AllocError>
    ensures { IfOk result (λ pods. pods.entries ≡ by_ordinal (set_parts set.now) update.now current.now (map pod_parts listed.now)) }
{
    let mut pods = BTreeMap::new(alloc);
    // From the last to the first, as a later one replaces: of one name the first pod stays.
    for pod in listed.iter().rev() {
        put_pod(&mut pods, set, update, current, pod)?;
    }
    Ok(pods)
}

/// The least ordinal in range whose pod the set does not control.
fn first_foreign<'a>(set: &Set, pods: &'a BTreeMap<u32, Replica>) -> Option<(&'a u32, &'a Replica)>
    ensures { option_map deref_pair result ≡ find (is_foreign (set_parts set.now)) pods.now.entries }
{
    pods.iter()
        .find(|(ordinal, pod)| set.has_in_range(**ordinal) && !pod.owned)
}

/// The refusal that names the pod of that ordinal.
fn foreign(alloc: Global, set: &Set, ordinal: u32) -> Result<PlanError, Memory>
    ensures { IfOk result (λ error. error ≡ PlanError.Foreign (pod_name set.now.object.key.name ordinal)) }
{
    let name = pod_name(alloc, set.object.key.name.as_str(), ordinal)?;
    Ok(PlanError::Foreign(Text::from(name)))
}

/// Drops the pods that the set does not control.
fn retain_owned(pods: &mut BTreeMap<u32, Replica>)
    ensures { pods.new.entries ≡ owned_of pods.old.entries }
{
    pods.retain(|_, pod| pod.owned);
}

/// The set's pods by their ordinals, found in a list of pods of its namespace, given the names of its update and
/// current revisions. Of several with one name the first counts. It is Foreign if the pod of an ordinal in range is not
/// the set's, with the name of the least such pod (Kubernetes, "StatefulSets": "Pod Identity").
pub fn replicas_of(
    alloc: Global,
    set: &Set,
    update: &str,
    current: &str,
    listed: &[PodView<'_>],
) -> Result<BTreeMap<u32, Replica>, PlanError>
    ensures { Gives (λ pods. pods.entries) result (replicas_in (set_parts set.now) update.now current.now (map pod_parts listed.now)) }
{
    let mut pods = by_ordinal(alloc, set, update, current, listed)?;
    if let Some((ordinal, _)) = first_foreign(set, &pods) {
        return Err(foreign(alloc, set, *ordinal)?);
    }
    retain_owned(&mut pods);
    Ok(pods)
}
