//! Laws of the plain store about names and UIDs over time: how long an object lives, and what it keeps as it lives.
ghost use Rattle.std.specs.Prelude.{◌≡◌, ◌≢◌, ◌≤◌, ℕ, List, None};
ghost use Rattle.objects.specs.declared.key.Key.{Key};
ghost use Rattle.objects.specs.declared.object.Object.{Object};
ghost use Rattle.requests.specs.declared.request.Request.{Request};
ghost use Rattle.plain_store.specs.AtKey.{Has, Leaves, Makes};
ghost use Rattle.plain_store.specs.Filed.{AreFiled};
ghost use Rattle.plain_store.specs.Lives.{AreLives, events_of};
ghost use Rattle.plain_store.specs.Run.{after, exchanges};
ghost use Rattle.plain_store.specs.Since.{IsUidSince, IsVersionSince};
ghost use Rattle.plain_store.specs.Store.{Store, opening, step};

/// No two objects live under one name at a time, and what is read is what was written last: for each key, a `Created`
/// comes only if none lives; what is found, unchanged or in a list of now is the object as it was written last; what is
/// updated, marked or removed has the UID of the one that was created last; and between two `Created` there is a
/// `Removed`.
pub fn names_live_once()
    ensures { (capacity : ℕ) (requests : List Request) (key : Key) → AreLives None (events_of key (exchanges (opening capacity) requests)) }
{}

/// The objects of a store that was opened are under their own keys.
pub fn objects_stand_under_their_keys()
    ensures { (capacity : ℕ) (requests : List Request) → AreFiled (after (opening capacity) requests).objects }
{}

/// In a store that was opened no two objects have one UID, and each object's UID and resource version were allocated:
/// the UID first, from 1 on, and the version then or later.
pub fn uids_name_one_key()
    ensures apart { (capacity : ℕ) (requests : List Request) (key other : Key) (o p : Object) → let s = after (opening capacity) requests in
        Has s key o → Has s other p → o.meta.uid ≡ p.meta.uid → key ≡ other }
    ensures drawn { (capacity : ℕ) (requests : List Request) (key : Key) (o : Object) → let s = after (opening capacity) requests in
        Has s key o → (1 ≤ o.meta.uid) × (o.meta.uid ≤ o.meta.revision) × (o.meta.revision ≤ s.counter) }
{}

/// An object keeps its UID as long as it lives. Each request that changes it gives it the number that the request
/// allocates as its resource version, so the version never falls; an object that is made has that number as its UID
/// too.
pub fn uids_stay()
    ensures uid { (s : Store) (request : Request) (key : Key) (before after : Object)
        → Leaves s request key before after → after.meta.uid ≡ before.meta.uid }
    ensures changed { (s : Store) (request : Request) (key : Key) (before after : Object)
        → Leaves s request key before after → after ≢ before → after.meta.revision ≡ (step s request).0.counter }
    ensures rises { (s : Store) (request : Request) (key : Key) (before after : Object)
        → Leaves s request key before after → before.meta.revision ≤ s.counter → before.meta.revision ≤ after.meta.revision }
    ensures made { (s : Store) (request : Request) (key : Key) (made : Object) → let n = (step s request).0.counter in
        Makes s request key made → (made.meta.uid ≡ n) × (made.meta.revision ≡ n) }
{}

/// What is there after any further requests was made since, or was there before them under the same key; and it was
/// written since, or was there unchanged.
pub fn old_objects_were_there()
    ensures uid { (s : Store) (requests : List Request) (key : Key) (o : Object) → Has (after s requests) key o → IsUidSince s key o }
    ensures version { (s : Store) (requests : List Request) (key : Key) (o : Object) → Has (after s requests) key o → IsVersionSince s key o }
{}
