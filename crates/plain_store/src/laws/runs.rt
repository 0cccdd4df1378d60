//! Laws of the plain store about whole runs: the numbers that they allocate, and what they leave alone.
ghost use Rattle.std.specs.Prelude.{◌≡◌, ◌≢◌, ◌≤◌, ◌+◌, ℕ, List, ◌++◌, bytes_eq, true, false, length, Option, Some, None};
ghost use Rattle.std.specs.FinMap as map;
ghost use Rattle.objects.specs.declared.key.Key.{Key};
ghost use Rattle.objects.specs.declared.object.Object.{Object};
ghost use Rattle.objects.specs.Uid.{uid_text};
ghost use Rattle.requests.specs.declared.request.Request.{Request};
ghost use Rattle.requests.specs.declared.request.Request.TheVariants.{Compact, Delete};
ghost use Rattle.requests.specs.declared.reply.Reply.TheVariants.{Refused};
ghost use Rattle.requests.specs.declared.reply.Reason.TheVariants.{Conflict};
ghost use Rattle.requests.specs.Keys.{key_named};
ghost use Rattle.requests.specs.Verdict.{nonempty};
ghost use Rattle.plain_store.specs.Reached.{IsReached, most_revisions};
ghost use Rattle.plain_store.specs.Route.{is_read};
ghost use Rattle.plain_store.specs.Taken.{Takes, taken};
ghost use Rattle.plain_store.specs.Store.{Store, step};
ghost use Rattle.plain_store.specs.Run.{after, replies};
ghost use Rattle.plain_store.specs.Drawn.{AreNext, AreRising, uids_given, version_drawn, versions_drawn};

/// A run goes on from the store that its first part leaves.
pub fn runs_go_on()
    ensures { (s : Store) (first more : List Request) → replies s (first ++ more) ≡ replies s first ++ replies (after s first) more }
{}

/// The resource versions of a run are those after the counter, one by one: each accepted write allocates the next, and
/// nothing else allocates any.
pub fn versions_rise_by_one()
    ensures next { (s : Store) (requests : List Request) → AreNext s.counter (versions_drawn (replies s requests)) }
    ensures counted { (s : Store) (requests : List Request) →
        (after s requests).counter ≡ s.counter + length (versions_drawn (replies s requests)) }
{}

/// No UID is given twice in a run: each is above those given before.
pub fn uids_are_given_once()
    ensures { (s : Store) (requests : List Request) → AreRising s.counter (uids_given (replies s requests)) }
{}

/// A request that allocates no number leaves the store as it was, unless it is a compaction: one that is refused,
/// reads, or would change nothing.
pub fn only_writes_and_compactions_change_the_store()
    ensures { (s : Store) (request : Request) → ((to : ℕ) → request ≢ Compact to) → version_drawn (step s request).1 ≡ None → (step s request).0 ≡ s }
{}

/// A get and a list leave the store as it was.
pub fn reads_change_nothing()
    ensures { (s : Store) (request : Request) → is_read request ≡ true → (step s request).0 ≡ s }
{}

/// A request leaves the objects of all keys as they were except the one that it names. A list and a compaction name
/// none.
pub fn requests_touch_one_key()
    ensures { (s : Store) (request : Request) (key : Key) → (Some key ≡ key_named request → ⊥)
        → map.get (step s request).0.objects key ≡ map.get s.objects key }
{}

/// A delete that names a UID removes, and marks, no object of another UID: it is a Conflict, and changes nothing.
pub fn deletes_spare_other_uids()
    ensures { (s : Store) (key : Key) (precondition version at : Option (List ℕ)) (uid : List ℕ) (current : Object)
        → map.get s.objects key ≡ Some current → nonempty precondition ≡ Some uid → bytes_eq uid (uid_text current.meta.uid) ≡ false
        → step s (Delete key precondition version at) ≡ (s, Refused Conflict) }
{}

/// A delete that is accepted marks or removes the object that is under its key, with the UID and the resource version
/// that were given.
pub fn deletes_take_what_is_there()
    ensures { (s : Store) (key : Key) (uid version at : Option (List ℕ)) (o : Object) → taken (step s (Delete key uid version at)).1 ≡ Some o
        → Takes s key uid version o }
{}

/// A store of an `Api` has a capacity from 1 to 1,048,576, and neither its counter nor its floor exceeds it.
pub fn capacity_bounds_the_counter()
    ensures { (s : Store) → IsReached s → (1 ≤ s.capacity) × (s.capacity ≤ most_revisions) × (s.counter ≤ s.capacity) × (s.floor ≤ s.counter) }
{}
