//! What a plan never does to the owners of a claim: laws of the definitions, each with an empty body.
ghost use Rattle.std.specs.Prelude.{◌≡◌, ◌≢◌, ◌||◌, ℕ, List, Option, Some, true, false, codes, filter};
ghost use Rattle.std.specs.List.{list_any};
ghost use Rattle.serde_json.specs.Data.{Data};
ghost use Rattle.objects.specs.declared.object.Object.{Object};
ghost use Rattle.objects.specs.Status.{member_of};
ghost use Rattle.set_views.specs.Set.{SetParts};
ghost use Rattle.claims.specs.declared.owner.Owner.{Owner};
ghost use Rattle.claims.specs.Changes.{update};
ghost use Rattle.claims.specs.Owners.{are_wanted, is_of_pod, is_of_set, is_stranger, owner_in_range, owner_of_condemned, wanted_entries};

use crate::change::ClaimChange;
use set_views::Retention;

/// An update leaves a claim its key, its meta and all of its body outside `metadata`, of which it sets
/// `ownerReferences` alone. There it drops and adds entries of the set, of its pod and of the owner that retention
/// gives the claim, and leaves all others unchanged, in their order.
pub fn only_owners_of_the_set_and_its_pod_change()
    ensures key { (set : SetParts) (pod : List ℕ) (owner : Option Owner) (claim changed : Object)
        → update set pod owner claim ≡ Some (ClaimChange.Update changed) → changed.key ≡ claim.key }
    ensures meta { (set : SetParts) (pod : List ℕ) (owner : Option Owner) (claim changed : Object)
        → update set pod owner claim ≡ Some (ClaimChange.Update changed) → changed.meta ≡ claim.meta }
    ensures others { (set : SetParts) (pod : List ℕ) (owner : Option Owner) (claim changed : Object) (name : List ℕ)
        → update set pod owner claim ≡ Some (ClaimChange.Update changed) → name ≢ codes "metadata"
        → member_of name changed.body ≡ member_of name claim.body }
    ensures strangers { (set : SetParts) (pod : List ℕ) (owner : Option Owner) (entries : List Data)
        → filter (is_stranger set pod owner) (wanted_entries set pod owner entries) ≡ filter (is_stranger set pod owner) entries }
{}

/// Under Retain no owner of a claim is the set or a pod with the name of the claim's pod: under `whenDeleted` Retain
/// while the pod is in range, and under `whenScaled` Retain too once it is condemned.
pub fn retained_claims_have_no_such_owner()
    ensures in_range { (set : SetParts) (pod : List ℕ) (entries : List Data) → set.when_deleted ≡ Retention.Retain
        → list_any (λ entry. is_of_set set entry || is_of_pod pod entry) (wanted_entries set pod (owner_in_range set) entries) ≡ false }
    ensures condemned { (set : SetParts) (pod : List ℕ) (uid : ℕ) (entries : List Data)
        → set.when_deleted ≡ Retention.Retain → set.when_scaled ≡ Retention.Retain
        → list_any (λ entry. is_of_set set entry || is_of_pod pod entry) (wanted_entries set pod (owner_of_condemned set uid) entries) ≡ false }
{}

/// A claim is updated exactly if its entries differ from those that it is to have.
pub fn claims_as_wanted_are_left()
    ensures same { (set : SetParts) (pod : List ℕ) (owner : Option Owner) (entries : List Data)
        → are_wanted set pod owner entries ≡ true → wanted_entries set pod owner entries ≡ entries }
    ensures others { (set : SetParts) (pod : List ℕ) (owner : Option Owner) (entries : List Data)
        → are_wanted set pod owner entries ≡ false → wanted_entries set pod owner entries ≢ entries }
{}
