// Laws of plans, for every set and every list of pods.
ghost use Rattle.std.specs.Prelude.{◌≡◌, ◌≤◌, ◌<◌, ◌++◌, ◌⊎◌, ℕ, List, true, false, find, length, nat_le, option_map};
ghost use Rattle.std.specs.List.{Contains, list_any};
ghost use Rattle.set_views.specs.Pod.{PodParts};
ghost use Rattle.set_views.specs.Set.{SetParts};
ghost use Rattle.set_views.specs.Predicates.{in_range, is_healthy, owns_pod};
ghost use Rattle.pod_steps.specs.declared.replica.Replica.{Replica};
ghost use Rattle.pod_steps.specs.declared.step.Revision.{Revision};
ghost use Rattle.pod_steps.specs.declared.step.Step.{Step};
ghost use Rattle.pod_steps.specs.Listed.{by_ordinal, is_named, replica_of, replicas_in};
ghost use Rattle.pod_steps.specs.Replicas.{Pods, has_healthy_pod, is_failed, is_settled, pod_at};
ghost use Rattle.pod_steps.specs.Step.{truncated, is_of_pod, pod_steps};
ghost use Rattle.pod_steps.specs.FullSteps.{full_steps, update_steps};

use crate::step::Step;
use set_views::{Policy, Strategy};

/// Of several listed pods with one name the first counts.
#[tactic(auto, using(crate::proofs::Firsts::first_counts))]
pub fn the_first_pod_of_a_name_counts()
    ensures { (set : SetParts) (update current : List ℕ) (listed : List PodParts) (i : ℕ)
        → pod_at (by_ordinal set update current listed) i ≡ option_map (replica_of set update current) (find (is_named set i) listed) }
{}

/// A plan depends on the first listed pod of each of the set's names alone: neither the order of the list nor any other
/// pod matters. So equal lists give equal plans.
#[tactic(auto, using(crate::proofs::Same::same_replicas))]
pub fn plans_go_by_first_pods()
    ensures { (set : SetParts) (update current : List ℕ) (listed others : List PodParts)
        → ((i : ℕ) → find (is_named set i) listed ≡ find (is_named set i) others)
        → replicas_in set update current listed ≡ replicas_in set update current others }
{}

/// Under OrderedReady a pod is created only if each lower ordinal in range has a healthy pod.
pub fn creates_follow_healthy_pods()
    ensures { (set : SetParts) (pods : Pods) (i j : ℕ) (revision : Revision) → set.policy ≡ Policy.OrderedReady
        → Contains (full_steps set pods) (Step.CreatePod i revision) → in_range set j ≡ true → j < i → has_healthy_pod pods j ≡ true }
{}

/// Under OrderedReady a plan creates, deletes or waits for one pod at most.
#[tactic(auto, using(crate::proofs::Causes::one_at_a_time))]
pub fn one_pod_at_a_time()
    ensures { (set : SetParts) (pods : Pods) → set.policy ≡ Policy.OrderedReady → length (pod_steps (full_steps set pods)) ≤ 1 }
{}

/// A rolling update deletes or waits for one pod at most. It deletes none below the partition, and only if each pod in
/// range with a larger ordinal is at the update revision and healthy.
#[tactic(auto, using(crate::proofs::Causes::one_update))]
pub fn replacements_go_downward()
    ensures one { (set : SetParts) (pods : Pods) → length (pod_steps (update_steps set pods)) ≤ 1 }
    ensures reached { (set : SetParts) (pods : Pods) (partition i uid : ℕ) → set.strategy ≡ Strategy.RollingUpdate partition
        → Contains (update_steps set pods) (Step.DeletePod i uid) → nat_le partition i ≡ true }
    ensures settled { (set : SetParts) (pods : Pods) (partition i uid j : ℕ) (pod : Replica)
        → set.strategy ≡ Strategy.RollingUpdate partition → Contains (update_steps set pods) (Step.DeletePod i uid)
        → in_range set j ≡ true → i < j → pod_at pods j ≡ Some pod → is_settled pod ≡ true }
{}

/// Under OrderedReady a pod in range that has not failed is deleted only if each ordinal in range has a healthy pod.
pub fn replacements_wait_for_all_in_order()
    ensures { (set : SetParts) (update current : List ℕ) (listed : List PodParts) (pods : Pods) (i uid j : ℕ) (pod : Replica)
        → replicas_in set update current listed ≡ Ok pods
        → set.policy ≡ Policy.OrderedReady → Contains (full_steps set pods) (Step.DeletePod i uid) → in_range set i ≡ true
        → pod_at pods i ≡ Some pod → is_failed pod.readiness ≡ false → in_range set j ≡ true → has_healthy_pod pods j ≡ true }
{}

/// A delete is of a listed pod that the set controls, the first of its name, by its UID.
pub fn deletes_are_of_owned_pods()
    ensures { (set : SetParts) (update current : List ℕ) (listed : List PodParts) (pods : Pods) (i uid : ℕ)
        → replicas_in set update current listed ≡ Ok pods → Contains (full_steps set pods) (Step.DeletePod i uid)
        → (pod : PodParts) × (find (is_named set i) listed ≡ Some pod) × (owns_pod set pod ≡ true) × (pod.uid ≡ uid) }
{}

/// A create is of a name that no listed pod has.
pub fn creates_are_of_free_names()
    ensures { (set : SetParts) (update current : List ℕ) (listed : List PodParts) (pods : Pods) (i : ℕ) (revision : Revision)
        → replicas_in set update current listed ≡ Ok pods
        → Contains (full_steps set pods) (Step.CreatePod i revision) → find (is_named set i) listed ≡ None }
{}

/// Under OnDelete no healthy pod in range is deleted.
pub fn no_healthy_pod_goes_on_delete()
    ensures { (set : SetParts) (update current : List ℕ) (listed : List PodParts) (pods : Pods) (i uid : ℕ) (pod : Replica)
        → replicas_in set update current listed ≡ Ok pods → set.strategy ≡ Strategy.OnDelete
        → Contains (full_steps set pods) (Step.DeletePod i uid) → in_range set i ≡ true → pod_at pods i ≡ Some pod → is_healthy pod.readiness pod.terminating ≡ false }
{}

/// A truncated list is a prefix of the full one. It is the full list, or has 1,024 steps that are no steps on claims;
/// and it has none of these only if the full list has none.
#[tactic(auto, using(crate::proofs::Truncation::truncated_is_a_beginning, crate::proofs::Truncation::truncated_is_all_or_at_limit, crate::proofs::Truncation::truncated_keeps_quiet))]
pub fn plans_are_truncated_at_the_limit()
    ensures beginning { (steps : List Step) → (more : List Step) × (steps ≡ truncated steps ++ more) }
    ensures limit { (steps : List Step) → (truncated steps ≡ steps) ⊎ (length (pod_steps (truncated steps)) ≡ 1024) }
    ensures quiet { (steps : List Step) → list_any is_of_pod (truncated steps) ≡ list_any is_of_pod steps }
{}
