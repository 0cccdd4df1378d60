//! Laws of transcripts.
ghost use Rattle.std.specs.Prelude.{◌++◌, ◌∷◌, [], ℕ, List};
ghost use Rattle.requests.specs.declared.reply.Reply.{Reply};
ghost use Rattle.requests.specs.declared.request.Request.{Request};
ghost use Rattle.plain_store.specs.Run.{exchanges};
ghost use Rattle.plain_store.specs.Reached.{IsReached};
ghost use Rattle.plain_store.specs.Store.{Store, opening};
ghost use Rattle.rounds.specs.declared.event.WholeEvent.{WholeEvent};
ghost use Rattle.rounds.specs.Before.{RunKeepsPromises};
ghost use Rattle.rounds.specs.Incarnation.{Follows};
ghost use Rattle.rounds.specs.Phase.{Phase};
ghost use Rattle.rounds.specs.Promises.{CreatesArePlanned, DeletesArePlannedOrCollected, IsTranscript, KeepsPromises, NamesAreFreed, OwnersAreGone, PlansTakeWhatTheyRead};
ghost use Rattle.rounds.specs.Reconciler.{Reconciler};
ghost use Rattle.rounds.specs.Sound.{IsSound};
ghost use Rattle.rounds.specs.Transcript.{Entry, Exchange};

/// Between two accepted creates of one key is an accepted removal of the first one's UID, whoever sent them. So a name
/// never has two live objects.
pub fn names_are_freed()
    ensures { (capacity : ℕ) (requests : List Request) → NamesAreFreed (exchanges (opening capacity) requests) }
{}

/// What an accepted delete of a plan marks or removes has the UID that was listed for the plan, so it never hits a
/// successor of the same name.
pub fn plans_take_what_they_read()
    ensures { (reconcilers : ℕ → Reconciler) (capacity : ℕ) (entries : List Entry) → ((controller : ℕ) → IsSound (reconcilers controller))
        → IsTranscript reconcilers capacity entries → PlansTakeWhatTheyRead reconcilers entries }
{}

/// Each create that a controller sends comes from a plan over the set, the revisions, the pods and the claims that it
/// got since its last crash, and in that round.
pub fn creates_are_planned()
    ensures { (reconcilers : ℕ → Reconciler) (capacity : ℕ) (entries : List Entry) → ((controller : ℕ) → IsSound (reconcilers controller))
        → IsTranscript reconcilers capacity entries → CreatesArePlanned reconcilers entries }
{}

/// Each delete that a controller sends comes from a plan, if it is of a pod or a revision, and else is of a claim, and
/// comes from a collection. Both are over lists that it got since its last crash, and in that round.
pub fn deletes_are_planned_or_collected()
    ensures { (reconcilers : ℕ → Reconciler) (capacity : ℕ) (entries : List Entry) → ((controller : ℕ) → IsSound (reconcilers controller))
        → IsTranscript reconcilers capacity entries → DeletesArePlannedOrCollected reconcilers entries }
{}

/// When a claim is removed by a controller's delete, no object of its namespace has the UID of an owner, and none ever
/// will.
pub fn owners_are_gone()
    ensures { (reconcilers : ℕ → Reconciler) (capacity : ℕ) (entries : List Entry) → ((controller : ℕ) → IsSound (reconcilers controller))
        → IsTranscript reconcilers capacity entries → OwnersAreGone capacity entries }
{}

/// All five.
pub fn transcripts_keep_promises()
    ensures { (reconcilers : ℕ → Reconciler) (capacity : ℕ) (entries : List Entry) → ((controller : ℕ) → IsSound (reconcilers controller))
        → IsTranscript reconcilers capacity entries → KeepsPromises reconcilers capacity entries }
{
    names_are_freed();
    plans_take_what_they_read();
    creates_are_planned();
    deletes_are_planned_or_collected();
    owners_are_gone();
}

/// Whatever happens while controllers share a store that a run has reached, all that it handled keeps the promises.
pub fn runs_keep_promises()
    ensures { (count : ℕ) (reconcilers : ℕ → Reconciler) (s : Store) (reached : IsReached s) (events : List WholeEvent)
        → ((controller : ℕ) → IsSound (reconcilers controller)) → RunKeepsPromises count reconcilers s reached events }
{
    transcripts_keep_promises();
}

/// An incarnation that is cut off anywhere is one, and so is one whose last request has another reply: a controller
/// that crashes never learns it.
pub fn incarnations_may_end_anywhere()
    ensures cut { (c : Reconciler) (phase : Phase) (own more : List Exchange) → Follows c phase (own ++ more) → Follows c phase own }
    ensures last { (c : Reconciler) (phase : Phase) (own : List Exchange) (request : Request) (told other : Reply)
        → Follows c phase (own ++ (request, told) ∷ []) → Follows c phase (own ++ (request, other) ∷ []) }
{}
