// A pod as the walk over its set's ordinals needs it.
ghost use Rattle.std.specs.Prelude.{◌≡◌};
ghost use Rattle.set_views.specs.Pod.{pod_parts};
ghost use Rattle.set_views.specs.Set.{set_parts};
ghost use Rattle.pod_steps.specs.Listed.{has_revision, replica_of};
ghost use Rattle.pod_steps.specs.Replicas.{is_failed, is_settled};
ghost use Rattle.set_views.specs.Predicates.{is_healthy, is_ready};

use set_views::{PodView, Readiness, Set};

/// A pod with the name of a set's ordinal, as the walk over the ordinals needs it.
#[derive(Clone, Copy)]
pub struct Replica {
    /// Whether the set controls the pod.
    pub owned: bool,
    /// The number of the pod's UID, 0 for none.
    pub uid: u64,
    pub readiness: Readiness,
    /// Whether the pod has a `deletionTimestamp`.
    pub terminating: bool,
    /// Whether the pod was made from the set's update revision, by its label `controller-revision-hash`.
    pub updated: bool,
    /// Whether the pod was made from the set's current revision, by the same label.
    pub current: bool,
}

impl Replica {
    pub(crate) fn is_ready(&self) -> bool
        ensures { result ≡ is_ready self.now.readiness }
    {
        matches!(self.readiness, Readiness::Ready)
    }

    pub(crate) fn is_failed(&self) -> bool
        ensures { result ≡ is_failed self.now.readiness }
    {
        matches!(self.readiness, Readiness::Failed)
    }

    /// Whether the pod is running and ready, and not terminating.
    pub(crate) fn is_healthy(&self) -> bool
        ensures { result ≡ is_healthy self.now.readiness self.now.terminating }
    {
        self.is_ready() && !self.terminating
    }

    /// Whether the pod is healthy and at the update revision.
    pub(crate) fn is_settled(&self) -> bool
        ensures { result ≡ is_settled self.now }
    {
        self.updated && self.is_healthy()
    }
}

fn has_revision(pod: &PodView<'_>, name: &str) -> bool
    ensures { result ≡ has_revision name.now (pod_parts pod.now) }
{
    match pod.revision {
        Some(revision) => revision == name,
        None => false,
    }
}

/// What the walk needs of a pod, given the names of its set's update and current revisions.
pub(crate) fn replica_of(set: &Set, update: &str, current: &str, pod: &PodView<'_>) -> Replica
    ensures { result ≡ replica_of (set_parts set.now) update.now current.now (pod_parts pod.now) }
{
    Replica {
        owned: pod.is_owned_by(set),
        uid: pod.uid,
        readiness: pod.readiness,
        terminating: pod.terminating,
        updated: has_revision(pod, update),
        current: has_revision(pod, current),
    }
}
