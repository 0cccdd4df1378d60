ghost use Rattle.std.specs.Prelude.{◌≡◌, ℕ, List, IfSome, IfNone};
ghost use Rattle.objects.specs.PodNames.{IsPodName};
ghost use Rattle.set_views.specs.Pod.{split_name_of, pod_parts, pod_with};

use crate::readiness::{Readiness, readiness_of};
use objects::{Object, Tree, split_pod_name};

/// A pod as a plan sees it, read once. It borrows the pod's texts.
#[derive(Clone, Copy)]
pub struct PodView<'a> {
    pub name: &'a str,
    /// The set and the ordinal that the name is made of, if it is the name of a set's pod.
    pub split_name: Option<(&'a str, u32)>,
    /// The number of the pod's UID, 0 if it has none.
    pub uid: u64,
    pub readiness: Readiness,
    /// Whether the pod has a `deletionTimestamp`.
    pub terminating: bool,
    /// The label `controller-revision-hash`: the name of the ControllerRevision that the pod was made from.
    pub revision: Option<&'a str>,
    /// The pod's owner references.
    pub owners: &'a [Tree],
}

/// Reads what a plan needs of a pod (Kubernetes, "StatefulSets": "Pod Identity"; "Pod Lifecycle"). It takes no memory.
pub fn read_pod(pod: &Object) -> PodView<'_>
    ensures parts { pod_parts result ≡ pod_with (split_name_of result) pod.now }
    ensures set_pod { IfSome result.split_name (λ split. IsPodName pod.now.key.name split.0.now split.1) }
    ensures no_set_pod { IfNone result.split_name ((set : List ℕ) (ordinal : ℕ) → IsPodName pod.now.key.name set ordinal → ⊥) }
{
    let name = pod.key.name.as_str();
    PodView {
        name,
        split_name: split_pod_name(name),
        uid: pod.meta.uid,
        readiness: readiness_of(pod),
        terminating: pod.meta.deletion.is_some(),
        revision: pod.label("controller-revision-hash"),
        owners: pod.owners(),
    }
}
