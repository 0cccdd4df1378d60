//! Laws of controllers, for every set and all lists.
ghost use Rattle.std.specs.Prelude.{◌≡◌, ℕ, List, Ok};
ghost use Rattle.objects.specs.declared.key.Key.{Key};
ghost use Rattle.objects.specs.declared.kind.Kind.TheVariants.{Pod};
ghost use Rattle.objects.specs.declared.object.Draft.{Draft};
ghost use Rattle.objects.specs.declared.object.Object.{Object};
ghost use Rattle.requests.specs.declared.request.Request.{Request};
ghost use Rattle.requests.specs.declared.request.Request.TheVariants.{Create};
ghost use Rattle.set_views.specs.declared.policies.Policy.TheVariants.{OrderedReady};
ghost use Rattle.set_views.specs.Set.{SetParts};
ghost use Rattle.set_views.specs.SetReading.{set_of};
ghost use Rattle.requests.specs.Lists.{Has};
ghost use Rattle.rounds.specs.Promises.{CreatesArePlanned};
ghost use Rattle.rounds.specs.Reconciler.{Reconciler};
ghost use Rattle.rounds.specs.Sound.{IsSound};
ghost use Rattle.rounds.specs.Transcript.{Entry};
ghost use Rattle.controllers.specs.Planned.{requested};
ghost use Rattle.controllers.specs.Reconciler.{reconciler_with};
ghost use Rattle.controllers.specs.InTurn.{IsInTurn, IsOfSet, PodsComeInTurn};

/// The plan of a set reads nothing and compacts nothing, and deletes no objects but pods and revisions that were listed
/// for it, by the UID that was read. The collection deletes no claims but those that are collectable, as they were
/// read.
pub fn reconcilers_are_sound()
    ensures { (set : Key) (digits : ℕ) (moment : List ℕ) → IsSound (reconciler_with set digits moment) }
{}

/// Under OrderedReady a controller creates a pod only for an ordinal in range, under a name that none of the pods
/// listed for that plan has, and only if each lower ordinal in range has a healthy pod of the set among them. No other
/// request of the plan creates or deletes a pod.
pub fn creates_wait_for_lower_pods()
    ensures { (o : Object) (set : SetParts) (digits : ℕ) (moment : List ℕ) (revisions pods claims : List Object) (requests : List Request) (d : Draft)
        → set_of o ≡ Ok set → set.policy ≡ OrderedReady
        → requested o digits moment revisions pods claims ≡ Ok requests → Has (Create d) requests → d.object.key.kind ≡ Pod
        → IsInTurn set pods requests d }
{}

/// The same holds of each create of a pod that controllers send, whatever a store handles from them and from other
/// clients.
pub fn pods_come_in_turn()
    ensures { (reconcilers : ℕ → Reconciler) (entries : List Entry) → ((c : ℕ) → IsOfSet (reconcilers c))
        → CreatesArePlanned reconcilers entries → PodsComeInTurn reconcilers entries }
{}
