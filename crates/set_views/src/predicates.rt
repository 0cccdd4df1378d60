// The predicates of a plan.
ghost use Rattle.std.specs.Prelude.{◌≡◌};
ghost use Rattle.objects.specs.Metadata.{owners_of};
ghost use Rattle.set_views.specs.Owners.{is_controlled};
ghost use Rattle.set_views.specs.Pod.{pod_parts};
ghost use Rattle.set_views.specs.Set.{set_parts};
ghost use Rattle.set_views.specs.Predicates.{in_namespace, in_range, owns_pod, ordinal_in};

use crate::owners::is_controlled;
use crate::pod::PodView;
use crate::set::Set;
use objects::{Kind, Object};

impl Set {
    /// Whether the object is of that kind, in the set's namespace.
    pub fn has_in_namespace(&self, kind: Kind, object: &Object) -> bool
        ensures { result ≡ in_namespace (set_parts self.now) kind object.now }
    {
        object.key.kind == kind
            && object.key.namespace.as_str() == self.object.key.namespace.as_str()
    }

    /// Whether a pod of that ordinal should exist.
    pub fn has_in_range(&self, ordinal: u32) -> bool
        ensures { result ≡ in_range (set_parts self.now) ordinal }
    {
        self.start <= ordinal && ordinal < self.start + self.replicas
    }

    /// Whether the set is the object's controller: an entry of `metadata.ownerReferences` has its UID, and `controller`
    /// true (Kubernetes API reference, OwnerReference).
    pub fn controls(&self, object: &Object) -> bool
        ensures { result ≡ is_controlled self.now.object.meta.uid (owners_of object.now.body) }
    {
        is_controlled(object.owners(), self.object.meta.uid)
    }
}

impl PodView<'_> {
    /// The pod's ordinal, if its name is one of that set's.
    pub fn ordinal_in(&self, set: &Set) -> Option<u32>
        ensures { result ≡ ordinal_in (set_parts set.now) (pod_parts self.now) }
    {
        match self.split_name {
            Some((name, ordinal)) if name == set.object.key.name.as_str() => Some(ordinal),
            _ => None,
        }
    }

    /// Whether the set controls the pod.
    pub fn is_owned_by(&self, set: &Set) -> bool
        ensures { result ≡ owns_pod (set_parts set.now) (pod_parts self.now) }
    {
        is_controlled(self.owners, set.object.meta.uid)
    }
}
