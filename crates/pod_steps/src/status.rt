// What a set's status counts.
ghost use Rattle.std.specs.Prelude.{◌≡◌, filter, length};
ghost use Rattle.std.specs.List.{list_all, list_any};
ghost use Rattle.set_views.specs.Set.{set_parts};
ghost use Rattle.pod_steps.specs.Replicas.{is_out_of_range, ordinals};
ghost use Rattle.pod_steps.specs.Status.{counts_of, has_settled_pod, is_current, is_ready_entry, is_rolled_out, is_updated};

use crate::predicates::end_of;
use crate::replica::Replica;
use set_views::{Set, Strategy};
use std::collections::BTreeMap;

/// The numbers of a StatefulSet's `status` (Kubernetes API reference, apps/v1, StatefulSetStatus), of the pods as
/// listed.
#[derive(Clone, Copy)]
pub struct Counts {
    /// `replicas`: all pods with names of the set.
    pub replicas: usize,
    /// `readyReplicas`: those that are ready, terminating or not.
    pub ready: usize,
    /// `currentReplicas`: those at the revision that the status then has as its current one, without terminating ones.
    pub current: usize,
    /// `updatedReplicas`: those at the update revision, without terminating ones.
    pub updated: usize,
}

/// Whether the ordinal has a healthy pod at the update revision.
fn has_settled(pods: &BTreeMap<u32, Replica>, ordinal: u32) -> bool
    ensures { result ≡ has_settled_pod pods.now.entries ordinal }
{
    match pods.get(&ordinal) {
        Some(pod) => pod.is_settled(),
        None => false,
    }
}

fn are_settled(set: &Set, pods: &BTreeMap<u32, Replica>) -> bool
    ensures { result ≡ list_all (has_settled_pod pods.now.entries) (ordinals (set_parts set.now)) }
{
    (set.start..end_of(set)).all(|ordinal| has_settled(pods, ordinal))
}

fn has_condemned(set: &Set, pods: &BTreeMap<u32, Replica>) -> bool
    ensures { result ≡ list_any (is_out_of_range (set_parts set.now)) pods.now.entries }
{
    pods.iter().any(|(ordinal, _)| !set.has_in_range(*ordinal))
}

/// Whether a rolling update is done, so that the update revision becomes the current one: every ordinal in range has a
/// healthy pod at the update revision, and no pod is condemned. Under OnDelete it never is.
pub fn is_rolled_out(set: &Set, pods: &BTreeMap<u32, Replica>) -> bool
    ensures { result ≡ is_rolled_out (set_parts set.now) pods.now.entries }
{
    match set.strategy {
        Strategy::RollingUpdate { .. } => are_settled(set, pods) && !has_condemned(set, pods),
        Strategy::OnDelete => false,
    }
}

fn count_ready(pods: &BTreeMap<u32, Replica>) -> usize
    ensures { result ≡ length (filter is_ready_entry pods.now.entries) }
{
    pods.iter().filter(|(_, pod)| pod.is_ready()).count()
}

fn count_updated(pods: &BTreeMap<u32, Replica>) -> usize
    ensures { result ≡ length (filter is_updated pods.now.entries) }
{
    pods.iter()
        .filter(|(_, pod)| pod.updated && !pod.terminating)
        .count()
}

fn count_current(pods: &BTreeMap<u32, Replica>) -> usize
    ensures { result ≡ length (filter is_current pods.now.entries) }
{
    pods.iter()
        .filter(|(_, pod)| pod.current && !pod.terminating)
        .count()
}

/// Counts the pods for the set's status. If the rolling update is done the current revision is the update revision, and
/// its pods are counted as current.
pub fn counts_of(set: &Set, pods: &BTreeMap<u32, Replica>) -> Counts
    ensures { result ≡ counts_of (set_parts set.now) pods.now.entries }
{
    let updated = count_updated(pods);
    let current = if is_rolled_out(set, pods) {
        updated
    } else {
        count_current(pods)
    };
    Counts {
        replicas: pods.len(),
        ready: count_ready(pods),
        current,
        updated,
    }
}
