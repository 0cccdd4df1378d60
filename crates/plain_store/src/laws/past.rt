//! Laws of the plain store about what it keeps of the past, and what a compaction drops.
ghost use Rattle.std.specs.Prelude.{◌≡◌, ◌≤◌, ◌<◌, ◌⊎◌, ℕ, List, Some};
ghost use Rattle.objects.specs.declared.kind.Kind.{Kind};
ghost use Rattle.objects.specs.declared.object.Object.{Object};
ghost use Rattle.requests.specs.declared.request.Request.{Request};
ghost use Rattle.requests.specs.declared.request.Request.TheVariants.{Compact, List as ListRequest};
ghost use Rattle.requests.specs.declared.reply.Reply.TheVariants.{Compacted, Listed, Refused};
ghost use Rattle.requests.specs.declared.reply.Reason.TheVariants.{Expired, TooLarge};
ghost use Rattle.plain_store.specs.Past.{WasAt, WasCompactedAbove, asked};
ghost use Rattle.plain_store.specs.Run.{after, exchanges};
ghost use Rattle.plain_store.specs.Store.{Store, opening, step};

/// The past never changes: the reply to a list at an exact resource version, however late it comes, is that which a
/// list got, or would have got, when the store was at that version; or it is refused as Expired. Up to the counter
/// there was such a time for each number.
pub fn past_stays()
    ensures kept { (capacity : ℕ) (first more : List Request) (kind : Kind) (namespace : List ℕ) → let s = after (opening capacity) first in 1 ≤ s.counter
        → let late = (step (after s more) (ListRequest kind namespace s.counter)).1 in
        (late ≡ Refused Expired) ⊎ (late ≡ (step s (ListRequest kind namespace 0)).1) }
    ensures was { (capacity : ℕ) (requests : List Request) (number : ℕ) → number ≤ (after (opening capacity) requests).counter
        → WasAt capacity requests number }
{}

/// Two lists of one kind and namespace with one resource version are equal, whenever they were requested, and whether
/// as of now or at an exact version.
pub fn lists_of_one_version_are_equal()
    ensures { (capacity : ℕ) (first more : List Request) (kind : Kind) (namespace : List ℕ) (one other : ℕ) (items later : List Object) (revision : ℕ)
        → let s = after (opening capacity) first in (step s (ListRequest kind namespace one)).1 ≡ Listed items revision
        → (step (after s more) (ListRequest kind namespace other)).1 ≡ Listed later revision → items ≡ later }
{}

/// A request for the past is Expired only below the number of a compaction that was made, and TooLarge only
/// above the counter.
pub fn only_what_was_compacted_expires()
    ensures expired { (capacity : ℕ) (requests : List Request) (request : Request) (number : ℕ)
        → let s = after (opening capacity) requests in asked request ≡ Some number
        → (step s request).1 ≡ Refused Expired → WasCompactedAbove number (exchanges (opening capacity) requests) }
    ensures too_large { (s : Store) (request : Request) (number : ℕ) → asked request ≡ Some number
        → (step s request).1 ≡ Refused TooLarge → s.counter < number }
{}

/// A compaction that is accepted makes its number the floor, and leaves the objects, the counter, the capacity and each
/// list at that number or a later one as they were.
pub fn compactions_give_up_the_past_alone()
    ensures present { (s t : Store) (to : ℕ) → step s (Compact to) ≡ (t, Compacted to)
        → (t.objects ≡ s.objects) × (t.counter ≡ s.counter) × (t.capacity ≡ s.capacity) × (t.floor ≡ to) }
    ensures lists { (s t : Store) (to : ℕ) (kind : Kind) (namespace : List ℕ) (number : ℕ) → step s (Compact to) ≡ (t, Compacted to) → to ≤ number
        → (step t (ListRequest kind namespace number)).1 ≡ (step s (ListRequest kind namespace number)).1 }
{}
