//! Laws of the plain store about what one request may change of an object: its status, its generation, and nothing if
//! it names a resource version of the past.
ghost use Rattle.std.specs.Prelude.{◌≡◌, ◌≢◌, ◌≤◌, ℕ, List, Option, Some, None, codes, decimal, true, false, if◌then◌else◌};
ghost use Rattle.serde_json.specs.Written.{has_float};
ghost use Rattle.objects.specs.declared.key.Key.{Key};
ghost use Rattle.objects.specs.declared.object.Draft.{Draft};
ghost use Rattle.objects.specs.declared.object.Object.{Object};
ghost use Rattle.objects.specs.Status.{member_of};
ghost use Rattle.requests.specs.declared.request.Request.{Request};
ghost use Rattle.requests.specs.declared.request.Request.TheVariants.{Delete, Update, UpdateStatus};
ghost use Rattle.requests.specs.declared.reply.Reply.TheVariants.{Refused, Updated};
ghost use Rattle.requests.specs.declared.reply.Reason.TheVariants.{Conflict, Invalid};
ghost use Rattle.plain_store.specs.AtKey.{Has, Leaves, Makes};
ghost use Rattle.plain_store.specs.StatusWrites.{DifferInStatus, HasMembers};
ghost use Rattle.plain_store.specs.Store.{Store, step};
ghost use Rattle.requests.specs.Verdict.{generation_after, has_status, same_member, nonempty};

/// `status` is written by its own request, and by no other: an object that is made has none, each other request leaves
/// it as it is, and the status request leaves all else but the resource version. A ControllerRevision has no status.
pub fn only_the_status_request_changes_status()
    ensures made { (s : Store) (request : Request) (key : Key) (made : Object)
        → Makes s request key made → has_status made.key.kind ≡ true → member_of (codes "status") made.body ≡ None }
    ensures kept { (s : Store) (request : Request) (key : Key) (before after : Object)
        → ((draft : Draft) → request ≢ UpdateStatus draft) → ((draft : Draft) → request ≡ Update draft → HasMembers draft.object.body)
        → Leaves s request key before after → has_status key.kind ≡ true
        → member_of (codes "status") after.body ≡ member_of (codes "status") before.body }
    ensures written { (s new : Store) (draft : Draft) (before after : Object)
        → Has s draft.object.key before → HasMembers before.body → step s (UpdateStatus draft) ≡ (new, Updated after)
        → Has new draft.object.key after × DifferInStatus before after
        × (member_of (codes "status") after.body ≡ member_of (codes "status") draft.object.body) }
{}

/// The generation counts the changes of `spec` from 1 on, whatever the request, and so it never falls.
pub fn generation_rises_with_spec()
    ensures first { (s : Store) (request : Request) (key : Key) (made : Object) → Makes s request key made → made.meta.generation ≡ 1 }
    ensures counted { (s : Store) (request : Request) (key : Key) (before after : Object)
        → Leaves s request key before after → has_float before.body ≡ false
        → after.meta.generation ≡ generation_after before.meta.generation (same_member (codes "spec") before.body after.body) }
    ensures rises { (s : Store) (request : Request) (key : Key) (before after : Object)
        → Leaves s request key before after → before.meta.generation ≤ after.meta.generation }
{}

/// A write that names another resource version than the object's is a Conflict, and leaves the store as it was. (For a
/// ControllerRevision, which has no status, a status request is Invalid whatever it names.)
pub fn updates_with_a_stale_version_change_nothing()
    ensures update { (s : Store) (draft : Draft) (version : List ℕ) (current : Object)
        → Has s draft.object.key current → nonempty draft.version ≡ Some version → version ≢ decimal current.meta.revision
        → step s (Update draft) ≡ (s, Refused Conflict) }
    ensures status { (s : Store) (draft : Draft) (version : List ℕ) (current : Object)
        → Has s draft.object.key current → nonempty draft.version ≡ Some version → version ≢ decimal current.meta.revision
        → step s (UpdateStatus draft) ≡ (s, Refused (if has_status draft.object.key.kind then Conflict else Invalid)) }
    ensures delete { (s : Store) (key : Key) (uid precondition at : Option (List ℕ)) (version : List ℕ) (current : Object)
        → Has s key current → nonempty precondition ≡ Some version → version ≢ decimal current.meta.revision
        → step s (Delete key uid precondition at) ≡ (s, Refused Conflict) }
{}
