// Controllers over one store, event by event.
ghost use Rattle.std.specs.Prelude.{◌≡◌, ◌⊎◌, [], ℕ, IfSome, None, length, take};
ghost use Rattle.std.specs.List.{AllByRecursion};
ghost use Rattle.plain_store.specs.Reached.{IsReached};
ghost use Rattle.rounds.specs.Before.{RunKeepsPromises, entries_through};
ghost use Rattle.rounds.specs.Phase.{reading_set};
ghost use Rattle.rounds.specs.World.{Matches, StandAt, StopsAt, run, start};
ghost use Rattle.controllers.specs.Controller.{phase_of, reconciler_of};
ghost use Rattle.controllers.specs.InTurn.{PodsComeInTurn};
ghost use Rattle.controllers.specs.Whole.{reconciler_at};

use crate::controller::Controller;
use plain_store::Api;
use rounds::{WholeEvent, WholeRun};
use std::alloc::Global;

/// Applies the events, one after another, until the end or a fault. `taken` has one entry for each request that
/// controllers or other clients sent, with its reply; an event of a controller that does not exist has none. Out of
/// memory, the run stops at an event: the controllers are where the events before it left them, and the store and
/// `taken` are as they were then, or as that event leaves them. So each controller can crash, and another run can
/// follow. Each controller keeps its reconciler.
///
/// The entries keep five promises. Between two accepted creates of one key is an accepted removal of the first one's
/// UID. What an accepted delete of a plan marks or removes has the UID that was listed for the plan. Each create of a
/// controller comes from its plan over the set, the revisions, the pods and the claims that it got as replies since its
/// last crash, in that round. Each delete of a controller is of a pod or a revision and comes from such a plan, or it
/// is of a claim and comes from a collection of that round. When a controller's delete removes a claim, no object of
/// the claim's namespace has the UID of an owner of it, and none ever will.
///
/// Each create of a pod, if its set was read as OrderedReady, is of the least ordinal in range that has no healthy pod
/// in the list of its plan, under a name that no pod there has; and its plan creates and deletes no other pod.
pub fn run_whole<A: Api>(
    alloc: Global,
    api: &mut A,
    controllers: &mut [Controller],
    events: &[WholeEvent],
) -> WholeRun
    requires { AllByRecursion (λ c. phase_of c ≡ reading_set) controllers.old }
    ensures whole { result.fault ≡ None → Matches (A.store api.new) result.taken.items
        (run (length controllers.old) (reconciler_at controllers.old) (start (A.store api.old)) events.now) }
    ensures begun { (n : ℕ) × Matches (A.store api.new) result.taken.items
        (run (length controllers.old) (reconciler_at controllers.old) (start (A.store api.old)) (take n events.now)) }
    ensures many { length controllers.new ≡ length controllers.old }
    ensures stand { result.fault ≡ None → StandAt reconciler_of phase_of controllers.new (reconciler_at controllers.old)
        (run (length controllers.old) (reconciler_at controllers.old) (start (A.store api.old)) events.now).phases }
    ensures stopped { IfSome result.fault (λ fault. StopsAt reconciler_of phase_of (length controllers.old) (reconciler_at controllers.old)
        (A.store api.old) events.now (A.store api.new) controllers.new result.taken.items) }
    ensures promises { (reached : IsReached (A.store api.old)) → (n : ℕ) × (result.fault ≡ None → take n events.now ≡ events.now)
        × Matches (A.store api.new) result.taken.items
        (run (length controllers.old) (reconciler_at controllers.old) (start (A.store api.old)) (take n events.now))
        × RunKeepsPromises (length controllers.old) (reconciler_at controllers.old) (A.store api.old) reached (take n events.now)
        × PodsComeInTurn (reconciler_at controllers.old)
        (entries_through (length controllers.old) (reconciler_at controllers.old) (A.store api.old) reached (take n events.now)) }
    ensures reached { (result.taken.items ≡ []) ⊎ IsReached (A.store api.old) }
{
    rounds::run_whole(alloc, api, controllers, events)
}
