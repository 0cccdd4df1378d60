//! What a collector never does: laws of the definition, each with an empty body.
ghost use Rattle.std.specs.Prelude.{◌≡◌, ◌<◌, ℕ, true, false, List};
ghost use Rattle.serde_json.specs.Data.{no_items};
ghost use Rattle.objects.specs.declared.object.Object.{Object};
ghost use Rattle.objects.specs.Metadata.{owners_of};
ghost use Rattle.requests.specs.declared.request.Request.{Request};
ghost use Rattle.requests.specs.Lists.{Has};
ghost use Rattle.collector.specs.Collectable.{HasOwner, collection, deletion, is_collectable, is_listed};

/// A claim is not collected if it has no owner, if one of its owners is among those listed, or if one was created after
/// the lists were read.
pub fn owned_claims_stay()
    ensures unowned { (owners : List (List Object)) (listed_at : ℕ) (claim : Object)
        → owners_of claim.body ≡ no_items → is_collectable listed_at (is_listed owners) claim ≡ false }
    ensures listed { (owners : List (List Object)) (listed_at n : ℕ) (claim : Object)
        → HasOwner n (owners_of claim.body) → is_listed owners n ≡ true → is_collectable listed_at (is_listed owners) claim ≡ false }
    ensures later { (owners : List (List Object)) (listed_at n : ℕ) (claim : Object)
        → HasOwner n (owners_of claim.body) → listed_at < n → is_collectable listed_at (is_listed owners) claim ≡ false }
{}

/// Each request of a collection is the delete of a listed claim that is collectable, by the UID and the resource
/// version that were read.
pub fn collected_claims_are_collectable()
    ensures { (claims : List Object) (owners : List (List Object)) (listed_at : ℕ) (request : Request)
        → Has request (collection claims owners listed_at)
        → (claim : Object) × (Has claim claims × ((is_collectable listed_at (is_listed owners) claim ≡ true) × (request ≡ deletion claim))) }
{}
