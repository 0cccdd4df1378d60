// The predicates of a walk over a set's ordinals.
ghost use Rattle.std.specs.Prelude.{◌≡◌, ◌+◌, not, find};
ghost use Rattle.set_views.specs.Set.{set_parts};
ghost use Rattle.pod_steps.specs.Replicas.{has_healthy_pod, ordinals};
ghost use Rattle.pod_steps.specs.FullSteps.{revision_at};

use crate::replica::Replica;
use crate::step::Revision;
use set_views::{Set, Strategy};
use std::collections::BTreeMap;

/// One past the last ordinal in range.
pub(crate) fn end_of(set: &Set) -> u32
    ensures { result ≡ set.now.start + set.now.replicas }
{
    set.start + set.replicas
}

pub(crate) fn has_healthy(pods: &BTreeMap<u32, Replica>, ordinal: u32) -> bool
    ensures { result ≡ has_healthy_pod pods.now.entries ordinal }
{
    match pods.get(&ordinal) {
        Some(pod) => pod.is_healthy(),
        None => false,
    }
}

/// The least ordinal in range without a healthy pod.
pub(crate) fn first_gap(set: &Set, pods: &BTreeMap<u32, Replica>) -> Option<u32>
    ensures { result ≡ find (λ i. not (has_healthy_pod pods.now.entries i)) (ordinals (set_parts set.now)) }
{
    (set.start..end_of(set)).find(|ordinal| !has_healthy(pods, *ordinal))
}

/// The revision that a new pod is made from: below the partition the current one, else the update revision.
pub(crate) fn revision_at(strategy: Strategy, ordinal: u32) -> Revision
    ensures { result ≡ revision_at strategy ordinal }
{
    match strategy {
        Strategy::RollingUpdate { partition } if ordinal < partition => Revision::Current,
        _ => Revision::Update,
    }
}
