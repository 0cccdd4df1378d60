// Laws of reasons, for every set and all lists.
ghost use Rattle.std.specs.Prelude.{◌≡◌, ◌≤◌, ℕ, [], List, true, false, length, nat_le, Bool, Ok};
ghost use Rattle.std.specs.List.{Contains};
ghost use Rattle.objects.specs.declared.object.Object.{Object};
ghost use Rattle.set_views.specs.Pod.{PodParts};
ghost use Rattle.set_views.specs.Set.{SetParts};
ghost use Rattle.collector.specs.Collectable.{is_collectable, is_listed};
ghost use Rattle.pod_steps.specs.declared.step.Cause.{Cause};
ghost use Rattle.pod_steps.specs.declared.step.Step.{Step};
ghost use Rattle.pod_steps.specs.Listed.{by_ordinal, replicas_in};
ghost use Rattle.pod_steps.specs.Replicas.{Pods};
ghost use Rattle.pod_steps.specs.Step.{pod_steps};
ghost use Rattle.pod_steps.specs.FullSteps.{full_steps};
ghost use Rattle.sets.specs.declared.action.Action.{Action};
ghost use Rattle.sets.specs.declared.action.Action.TheVariants.{DeletePod};
ghost use Rattle.sets.specs.Actions.{Claims, name_at};
ghost use Rattle.sets.specs.Laws.{IsPodAt};
ghost use Rattle.sets.specs.Plan.{plan_of_pods};
ghost use Rattle.reasons.specs.Gone.{is_deleted_with};
ghost use Rattle.reasons.specs.Laws.{IsTrueOfDeletion};
ghost use Rattle.reasons.specs.Reasons.{deletion_reason_at};

/// The reason given for a pod that a plan deletes is true: it is out of range, or it has failed, or it is the next that
/// the rolling update replaces.
pub fn deletions_are_explained()
    ensures { (set : SetParts) (claims : Claims) (listed : List PodParts) (owned : List Object) (current update : Object)
        (actions : List Action) (name : List ℕ) (uid : ℕ)
        → plan_of_pods set claims listed owned current update ≡ Ok actions → Contains actions (DeletePod name uid)
        → (i : ℕ) × (name ≡ name_at set i) × ((pod : PodParts) × IsPodAt set listed i pod × IsTrueOfDeletion
        (deletion_reason_at (record { set = set; update = update.key.name; pods = by_ordinal set update.key.name [] listed }) i)
        set update.key.name listed i pod) }
{}

/// A plan that waits for a pod creates, deletes and waits for no other: the update waits too.
pub fn waits_hold_up_the_update()
    ensures { (set : SetParts) (update current : List ℕ) (listed : List PodParts) (pods : Pods) (i : ℕ) (cause : Cause)
        → replicas_in set update current listed ≡ Ok pods → Contains (full_steps set pods) (Step.Wait i cause)
        → length (pod_steps (full_steps set pods)) ≤ 1 }
{}

/// A claim that is deleted with some owners is collected by any lists that were read after these were created and have
/// none of them.
pub fn lost_claims_are_collected()
    ensures { (gone : ℕ → Bool) (claim : Object) (owners : List (List Object)) (listed_at : ℕ)
        → is_deleted_with gone claim ≡ true
        → ((n : ℕ) → gone n ≡ true → (nat_le n listed_at ≡ true) × (is_listed owners n ≡ false))
        → is_collectable listed_at (is_listed owners) claim ≡ true }
{}
