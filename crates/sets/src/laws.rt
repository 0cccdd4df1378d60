// Laws of plans, for every set and all lists.
ghost use Rattle.std.specs.Prelude.{◌≡◌, ◌≤◌, ◌<◌, ◌^◌, ◌+◌, ◌∷◌, ◌++◌, [], ℕ, List, true, false, find, filter, length, None, Result, Ok, Err};
ghost use Rattle.std.specs.List.{Contains};
ghost use Rattle.serde_json.specs.Data.{Data};
ghost use Rattle.serde_json.specs.View.{items_of};
ghost use Rattle.objects.specs.declared.object.Object.{Object};
ghost use Rattle.set_views.specs.declared.policies.Policy.TheVariants.{OrderedReady};
ghost use Rattle.set_views.specs.declared.policies.Retention.TheVariants.{Retain};
ghost use Rattle.set_views.specs.declared.policies.Strategy.TheVariants.{OnDelete, RollingUpdate};
ghost use Rattle.set_views.specs.declared.fault.PlanError.{PlanError};
ghost use Rattle.set_views.specs.Claims.{Claim};
ghost use Rattle.set_views.specs.Pod.{PodParts};
ghost use Rattle.set_views.specs.Set.{SetParts};
ghost use Rattle.set_views.specs.Steps.{is_memory};
ghost use Rattle.set_views.specs.Predicates.{in_range, is_healthy, owns_pod};
ghost use Rattle.revisions.specs.Plan.{created, renumbered};
ghost use Rattle.pod_steps.specs.Listed.{is_named};
ghost use Rattle.pod_steps.specs.Replicas.{is_failed};
ghost use Rattle.pod_steps.specs.Views.{listed_pod};
ghost use Rattle.manifests.specs.BuiltClaim.{built_claim};
ghost use Rattle.claims.specs.Changes.{with_owner_entries};
ghost use Rattle.claims.specs.Listed.{listed_claim};
ghost use Rattle.sets.specs.declared.action.Action.{Action};
ghost use Rattle.sets.specs.declared.action.Action.TheVariants.{CreateClaim, CreatePod, DeletePod, UpdateClaim, WriteRevision};
ghost use Rattle.sets.specs.declared.action.Plan.{Plan};
ghost use Rattle.sets.specs.Actions.{Claims, name_at};
ghost use Rattle.sets.specs.Laws.{CreateMissingClaims, HasHealthyTarget, IsNextToUpdate, IsPodAt, IsUpdatedClaim, is_on_pod, name_set_or_pod};
ghost use Rattle.sets.specs.Plan.{IsPlan, plan_by, plan_of_pods};

/// A plan deletes a pod only if the set controls it: the first listed one of its name, by its UID.
pub fn plans_delete_owned_pods()
    ensures { (set : SetParts) (claims : Claims) (listed : List PodParts)
        (owned : List Object) (current update : Object) (actions : List Action) (name : List ℕ) (uid : ℕ)
        → plan_of_pods set claims listed owned current update ≡ Ok actions → Contains actions (DeletePod name uid)
        → (i : ℕ) × (name ≡ name_at set i) × ((pod : PodParts) × IsPodAt set listed i pod × (owns_pod set pod ≡ true) × (pod.uid ≡ uid)) }
{}

/// A plan creates a pod only of an ordinal in range, under a name that no listed pod has.
pub fn plans_create_free_names()
    ensures { (set : SetParts) (claims : Claims) (listed : List PodParts) (owned : List Object) (current update : Object) (actions : List Action)
        (pod : Object) → plan_of_pods set claims listed owned current update ≡ Ok actions → Contains actions (CreatePod pod)
        → (i : ℕ) × (pod.key.name ≡ name_at set i) × (in_range set i ≡ true) × (find (is_named set i) listed ≡ None) }
{}

/// Under OrderedReady a plan creates a pod only if each lower ordinal in range has a healthy pod of the set's.
pub fn plans_create_in_turn()
    ensures { (set : SetParts) (claims : Claims) (listed : List PodParts)
        (owned : List Object) (current update : Object) (actions : List Action) (pod : Object) → set.policy ≡ OrderedReady
        → plan_of_pods set claims listed owned current update ≡ Ok actions → Contains actions (CreatePod pod)
        → (i : ℕ) × (pod.key.name ≡ name_at set i) × ((j : ℕ) → in_range set j ≡ true → j < i → HasHealthyTarget set listed j) }
{}

/// Under OrderedReady a plan creates, deletes or waits for one pod at most.
pub fn plans_touch_one_pod_in_order()
    ensures { (set : SetParts) (claims : Claims) (listed : List PodParts) (owned : List Object) (current update : Object) (actions : List Action)
        → set.policy ≡ OrderedReady → plan_of_pods set claims listed owned current update ≡ Ok actions → length (filter is_on_pod actions) ≤ 1 }
{}

/// Under OnDelete a plan deletes no healthy pod in range.
pub fn plans_keep_healthy_pods_on_delete()
    ensures { (set : SetParts) (claims : Claims) (listed : List PodParts) (owned : List Object)
        (current update : Object) (actions : List Action) (name : List ℕ) (uid : ℕ) → set.strategy ≡ OnDelete
        → plan_of_pods set claims listed owned current update ≡ Ok actions → Contains actions (DeletePod name uid)
        → (i : ℕ) × (name ≡ name_at set i) × ((pod : PodParts) × IsPodAt set listed i pod × (in_range set i ≡ true → is_healthy pod.readiness pod.terminating ≡ false)) }
{}

/// A pod in range that has not failed is deleted by an update alone, and then no other pod is created, deleted or
/// waited for. So an update deletes one pod of a plan at most.
pub fn plans_replace_one_pod()
    ensures { (set : SetParts) (claims : Claims) (listed : List PodParts)
        (owned : List Object) (current update : Object) (actions : List Action) (name : List ℕ) (uid : ℕ)
        → plan_of_pods set claims listed owned current update ≡ Ok actions → Contains actions (DeletePod name uid)
        → (i : ℕ) × (name ≡ name_at set i) × ((pod : PodParts) × IsPodAt set listed i pod
        × (in_range set i ≡ true → is_failed pod.readiness ≡ false → length (filter is_on_pod actions) ≤ 1)) }
{}

/// Under a rolling update such a pod has an ordinal from the partition on, was made from another revision than the
/// update revision, and is not terminating; and each larger ordinal in range has a healthy pod at the update revision.
pub fn plans_update_downward()
    ensures { (set : SetParts) (claims : Claims) (listed : List PodParts) (owned : List Object) (current update : Object)
        (actions : List Action) (name : List ℕ) (uid partition : ℕ) → set.strategy ≡ RollingUpdate partition
        → plan_of_pods set claims listed owned current update ≡ Ok actions → Contains actions (DeletePod name uid)
        → (i : ℕ) × (name ≡ name_at set i) × ((pod : PodParts) × IsPodAt set listed i pod
        × (in_range set i ≡ true → is_failed pod.readiness ≡ false → IsNextToUpdate set update.key.name listed partition i pod)) }
{}

/// Under OrderedReady such a pod is deleted only if each ordinal in range has a healthy pod of the set's.
pub fn plans_update_healthy_sets_in_order()
    ensures { (set : SetParts) (claims : Claims) (listed : List PodParts) (owned : List Object)
        (current update : Object) (actions : List Action) (name : List ℕ) (uid : ℕ) → set.policy ≡ OrderedReady
        → plan_of_pods set claims listed owned current update ≡ Ok actions → Contains actions (DeletePod name uid)
        → (i : ℕ) × (name ≡ name_at set i) × ((pod : PodParts) × IsPodAt set listed i pod
        × (in_range set i ≡ true → is_failed pod.readiness ≡ false → (j : ℕ) → in_range set j ≡ true → HasHealthyTarget set listed j)) }
{}

/// The create of a pod comes after the creates of all claims that it lacks. The last ordinal in range is one that the
/// API has, as that of each set that is read.
pub fn plans_make_claims_before_their_pod()
    ensures { (set : SetParts) (claims : Claims) (listed : List PodParts) (owned : List Object)
        (current update : Object) (before after : List Action) (pod : Object) → set.start + set.replicas ≤ 2 ^ 31
        → plan_of_pods set claims listed owned current update ≡ Ok (before ++ CreatePod pod ∷ after)
        → (i : ℕ) × (pod.key.name ≡ name_at set i) × (in_range set i ≡ true) × CreateMissingClaims set claims before i }
{}

/// A plan updates only listed claims of pods of the set. It sets their `ownerReferences` and nothing else, and of these
/// it leaves all unchanged, in their order, that name neither the set, nor the claim's pod, nor the owner by retention.
pub fn plans_change_owners_alone()
    ensures { (set : SetParts) (claims : Claims)
        (listed : List PodParts) (owned : List Object) (current update : Object) (actions : List Action) (changed : Object)
        → plan_of_pods set claims listed owned current update ≡ Ok actions → Contains actions (UpdateClaim changed)
        → (i : ℕ) × (claim : Object) × (entries : List Data) × IsUpdatedClaim set claims i claim entries changed }
{}

/// Under Retain for a set that is deleted and for one that is scaled, no claim of a plan has the set or its pod as an
/// owner.
pub fn plans_retain_claims()
    ensures updated { (set : SetParts) (claims : Claims) (listed : List PodParts) (owned : List Object) (current update : Object)
        (actions : List Action) (changed : Object) → set.when_deleted ≡ Retain → set.when_scaled ≡ Retain
        → plan_of_pods set claims listed owned current update ≡ Ok actions → Contains actions (UpdateClaim changed)
        → (i : ℕ) × (claim : Object) × (entries : List Data) × (changed ≡ with_owner_entries claim entries) × (name_set_or_pod set i entries ≡ false) }
    ensures created { (set : SetParts) (claims : Claims) (listed : List PodParts) (owned : List Object)
        (current update : Object) (actions : List Action) (claim : Object) → set.when_deleted ≡ Retain → set.when_scaled ≡ Retain
        → plan_of_pods set claims listed owned current update ≡ Ok actions → Contains actions (CreateClaim claim)
        → (i : ℕ) × (c : Claim) × (entries : List Data) × (claim ≡ built_claim set i (items_of entries) c) × (name_set_or_pod set i entries ≡ false) }
{}

/// A plan depends on the first listed pod and the first listed claim of each name of the set's namespace. So the order
/// of pods and of claims does not matter except among those of one name, and the later ones of a name do not count.
pub fn plans_go_by_first_objects()
    ensures pods { (set : SetParts) (pods others claims revisions : List Object) (digits : ℕ) (result : Result Plan PlanError)
        → ((name : List ℕ) → listed_pod set pods name ≡ listed_pod set others name)
        → IsPlan set pods claims revisions digits result → IsPlan set others claims revisions digits result }
    ensures claims { (set : SetParts) (pods claims others revisions : List Object) (digits : ℕ) (result : Result Plan PlanError)
        → ((name : List ℕ) → listed_claim set claims name ≡ listed_claim set others name)
        → IsPlan set pods claims revisions digits result → IsPlan set pods others revisions digits result }
{}

/// A plan that writes a revision has no other action.
pub fn revisions_are_written_alone()
    ensures created { (set : SetParts) (claims : Claims) (listed : List PodParts) (actions : List Action) (o : Object)
        → plan_by set claims listed (Ok (created o)) ≡ Ok actions → actions ≡ WriteRevision o ∷ [] }
    ensures renumbered { (set : SetParts) (claims : Claims) (listed : List PodParts) (actions : List Action) (o : Object)
        → plan_by set claims listed (Ok (renumbered o)) ≡ Ok actions → actions ≡ WriteRevision o ∷ [] }
{}

/// With equal lists the plan is equal: a set, and the pods, claims and revisions that were listed, have one list of
/// actions, or one refusal, whenever they are planned and memory does not run out.
pub fn plans_are_equal()
    ensures actions { (set : SetParts) (pods claims revisions : List Object) (digits : ℕ) (one other : Plan)
        → IsPlan set pods claims revisions digits (Ok one) → IsPlan set pods claims revisions digits (Ok other)
        → one.actions.items ≡ other.actions.items }
    ensures refusals { (set : SetParts) (pods claims revisions : List Object) (digits : ℕ) (one other : PlanError)
        → is_memory one ≡ false → is_memory other ≡ false
        → IsPlan set pods claims revisions digits (Err one) → IsPlan set pods claims revisions digits (Err other)
        → one ≡ other }
    ensures not_both { (set : SetParts) (pods claims revisions : List Object) (digits : ℕ) (one : Plan) (other : PlanError)
        → is_memory other ≡ false → IsPlan set pods claims revisions digits (Ok one) → IsPlan set pods claims revisions digits (Err other) → ⊥ }
{}
