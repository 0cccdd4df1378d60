// When a plan is empty, that a store then stays as it is, and what a plan and a kubelet's turn do to one.
ghost use Rattle.std.specs.Prelude.{◌≡◌, ◌≢◌, ◌↔◌, ◌⊎◌, ◌+◌, ◌≤◌, ℕ, false, true, List, [], length, Some, None, Ok};
ghost use Rattle.std.specs.FinMap as map;
ghost use Rattle.std.specs.List.{AllByRecursion};
ghost use Rattle.serde_json.specs.Written.{members_have_float};
ghost use Rattle.objects.specs.declared.key.Key.{Key};
ghost use Rattle.objects.specs.declared.kind.Kind.TheVariants.{ControllerRevision, PersistentVolumeClaim, Pod};
ghost use Rattle.objects.specs.declared.object.Object.{Object};
ghost use Rattle.objects.specs.Key.{key_parts};
ghost use Rattle.objects.specs.PodNames.{claim_name};
ghost use Rattle.requests.specs.declared.request.Request.{Request};
ghost use Rattle.requests.specs.Lists.{Has as Among};
ghost use Rattle.set_views.specs.Claims.{Claim};
ghost use Rattle.set_views.specs.Pod.{PodParts};
ghost use Rattle.set_views.specs.Predicates.{in_range};
ghost use Rattle.set_views.specs.Set.{SetParts};
ghost use Rattle.claims.specs.Changes.{entries_of};
ghost use Rattle.claims.specs.Owners.{are_wanted, owner_in_range};
ghost use Rattle.pod_steps.specs.declared.replica.Replica.{Replica};
ghost use Rattle.pod_steps.specs.Replicas.{AreInOrder, Pods, pod_at};
ghost use Rattle.pod_steps.specs.Listed.{replicas_in};
ghost use Rattle.pod_steps.specs.Step.{pod_steps};
ghost use Rattle.pod_steps.specs.FullSteps.{full_steps};
ghost use Rattle.pod_steps.specs.Views.{listed_pods};
ghost use Rattle.collector.specs.Collectable.{collection as collectable};
ghost use Rattle.sets.specs.Actions.{Claims, name_at};
ghost use Rattle.revisions.specs.History.{expired_revisions};
ghost use Rattle.manifests.specs.BuiltStatus.{built_status, old_status};
ghost use Rattle.sets.specs.FullPlan.{current_name, full_plan, status_of};
ghost use Rattle.sets.specs.Plan.{most_actions};
ghost use Rattle.sets.specs.PlanOfLists.{plan_of_lists, views_of};
ghost use Rattle.rounds.specs.Kubelet.{turn_requests_of};
ghost use Rattle.plain_store.specs.AtKey.{Has};
ghost use Rattle.plain_store.specs.Filed.{AreFiled};
ghost use Rattle.plain_store.specs.Run.{after};
ghost use Rattle.plain_store.specs.StatusWrites.{HasMembers};
ghost use Rattle.plain_store.specs.Store.{Store, collection};
ghost use Rattle.rounds.specs.Phase.{listing_old_claims, reading_set};
ghost use Rattle.rounds.specs.Reconciler.{Reconciler};
ghost use Rattle.controllers.specs.Reconciler.{reconciler_with};
ghost use Rattle.convergence.specs.Rounds.{IsRound, tended};
ghost use Rattle.convergence.specs.Left.{most_rounds};
ghost use Rattle.convergence.specs.Standing.{AreTended, Stands};
ghost use Rattle.convergence.specs.Stopped.{IsStopped};
ghost use Rattle.resting.specs.Accepting.{AreAccepted, DoesAsAlone, IsAcceptable, NameApart};
ghost use Rattle.resting.specs.Acting.{IsCreated, IsPlannedOver, IsReadIn, IsUnrefusedOver, MayAct, after_both, after_plan, after_steps, planned_requests, views_in};
ghost use Rattle.resting.specs.Rest.{IsAtRest, RestsOver};
ghost use Rattle.resting.specs.Still.{IsStill, IsTendedPod, ShowsRest, exchanged_times, listed_in, owners_in, plan_over, reads_of_a_round};
ghost use Rattle.resting.specs.WholeRounds.{EndsRound, IsCollectedOver, MayCollect, OwnNoClaim, after_round, collection_over};
ghost use Rattle.resting.specs.RoundsOver.{AreRoundsOver, CondemnsNoMore, IsInPlace, IsRoundOver};
ghost use Rattle.resting.specs.Turns.{IsTurnOver, MayTurn};

use set_views::Policy;

/// A plan is empty exactly if the set is at rest: over what was listed, and over the parts that the plan is made from. Parallel
/// waits for no pod while it scales, so there this is said only if each pod is unmarked, and ready or failed, as a kubelet's turn
/// leaves it. Otherwise a plan may be empty while pods are starting or terminating.
pub fn empty_plans_are_of_sets_at_rest()
    ensures lists { (set : SetParts) (digits : ℕ) (revisions pods claims : List Object)
        → (set.policy ≡ Policy.Parallel → AllByRecursion IsTendedPod (listed_pods set pods))
        → (plan_of_lists set digits revisions pods claims ≡ Ok []) ↔ RestsOver set digits revisions pods claims }
    ensures parts { (set : SetParts) (claims : Claims) (pods : List PodParts) (owned : List Object) (current update : Object) (replicas : Pods)
        → AreInOrder replicas → (set.policy ≡ Policy.Parallel → AreTended replicas)
        → (full_plan set claims pods owned current update replicas ≡ []) ↔ IsAtRest set claims pods owned current update replicas }
{}

/// If a store shows nothing to plan and no claim to collect, a whole round only reads, and leaves the store as it is.
#[tactic(auto, using(crate::proofs::Still::stays))]
pub fn rounds_over_still_stores_write_nothing()
    ensures { (c : Reconciler) (s : Store) → IsStill c s → exchanged_times reads_of_a_round c (s, reading_set) ≡ (s, reading_set) }
{}

/// So it is if the set of a controller is at rest, and no claim is left to collect: each further round is the same nine reads.
#[tactic(auto, using(crate::proofs::Still::rest_stays))]
pub fn stores_of_sets_at_rest_stay()
    ensures { (key : Key) (digits : ℕ) (moment : List ℕ) (s : Store) → ShowsRest key digits s
        → exchanged_times reads_of_a_round (reconciler_with key digits moment) (s, reading_set) ≡ (s, reading_set) }
{}

/// A kubelet sends no request in its turn if each pod is unmarked, and ready or failed.
#[tactic(auto, using(crate::proofs::Still::turns_ask_none))]
pub fn turns_over_tended_pods_send_nothing()
    ensures { (pods : List Object) → AllByRecursion IsTendedPod pods → turn_requests_of pods ≡ [] }
{}

/// A kubelet's turn over a store removes each marked pod of the namespace, and makes each other one ready that has not failed.
/// Nothing else changes. So for the pods that a plan sees, it is what a round on pods says of a kubelet. The store needs a
/// revision left for each pod.
pub fn turns_tend_the_pods()
    ensures store { (s : Store) (namespace : List ℕ) → MayTurn namespace s
        → IsTurnOver namespace s (after s (turn_requests_of (collection s.objects Pod namespace))) }
    ensures pods { (set : SetParts) (update current : List ℕ) (s : Store) (pods next : Pods) → let namespace = set.object.key.namespace in
        let end = after s (turn_requests_of (collection s.objects Pod namespace)) in
        MayTurn namespace s → replicas_in set update current (views_of set (collection s.objects Pod namespace)) ≡ Ok pods
        → replicas_in set update current (views_of set (collection end.objects Pod namespace)) ≡ Ok next
        → (i : ℕ) → pod_at next i ≡ tended (pod_at pods i) }
{}

/// Writes under keys of their own are accepted one after another if the store would accept each, and has a number left for each.
#[tactic(auto, using(crate::proofs::Accepting::all_accepted))]
pub fn writes_apart_are_accepted()
    ensures { (s : Store) (requests : List Request) → NameApart requests → AllByRecursion (IsAcceptable s) requests
        → s.counter + length requests ≤ s.capacity → AreAccepted s requests }
{}

/// And each does what it would do alone: under its key is what its verdict over the first store says. So do the requests of a plan.
pub fn writes_apart_do_as_alone()
    ensures any { (s : Store) (requests : List Request) → NameApart requests → AllByRecursion (IsAcceptable s) requests
        → s.counter + length requests ≤ s.capacity → AllByRecursion (DoesAsAlone s (after s requests)) requests }
    ensures planned { (set : SetParts) (digits : ℕ) (moment : List ℕ) (s : Store) → IsPlannedOver set digits s → moment ≢ [] → MayAct set most_actions s
        → IsReadIn s set → AllByRecursion (DoesAsAlone s (after_plan set digits moment s)) (planned_requests set digits moment s) }
{}

/// Each request of a plan is such over the store that the plan was made over: it names an object at the version and the UID that were
/// listed, or one that was not there.
pub fn planned_requests_are_acceptable()
    ensures { (set : SetParts) (digits : ℕ) (moment : List ℕ) (s : Store) → IsPlannedOver set digits s → moment ≢ [] → MayAct set most_actions s
        → Has s set.object.key set.object → AllByRecursion (IsAcceptable s) (planned_requests set digits moment s) }
{}

/// No two requests of a plan name one key. So all are accepted, if the set is that of the store; also if the plan writes a revision.
pub fn planned_requests_are_accepted()
    ensures apart { (set : SetParts) (digits : ℕ) (moment : List ℕ) (s : Store) → IsPlannedOver set digits s → moment ≢ [] → MayAct set most_actions s
        → IsReadIn s set → NameApart (planned_requests set digits moment s) }
    ensures accepted { (set : SetParts) (digits : ℕ) (moment : List ℕ) (s : Store) → IsPlannedOver set digits s → moment ≢ [] → MayAct set most_actions s
        → IsReadIn s set → AreAccepted s (planned_requests set digits moment s) }
    ensures unrefused { (set : SetParts) (digits : ℕ) (moment : List ℕ) (s : Store) → IsUnrefusedOver set digits s → moment ≢ [] → MayAct set most_actions s
        → IsReadIn s set → members_have_float set.template ≡ false → ((key : Key) (o : Object) → Has s key o → 1 ≤ o.meta.uid)
        → AreAccepted s (planned_requests set digits moment s) }
{}

/// A controller whose requests are accepted reads four times, sends its plan, and leaves what the plan's requests leave.
#[tactic(auto, using(crate::proofs::Accepting::plan_is_carried_out))]
pub fn accepted_plans_are_carried_out()
    ensures { (c : Reconciler) (s : Store) (set : Object) → map.get s.objects c.set ≡ Some set → AreAccepted s (plan_over c s set)
        → exchanged_times (length (plan_over c s set)) c (exchanged_times 4 c (s, reading_set)) ≡ (after s (plan_over c s set), listing_old_claims) }
{}

/// So a set's controller ends its round: it reads nine times, sends each request of its plan, and then each delete of a collection,
/// which takes place over what the plan has left.
pub fn controllers_end_their_rounds()
    ensures in_place { (set : SetParts) (digits : ℕ) (moment : List ℕ) (s : Store) → let c = reconciler_with set.object.key digits moment in
        IsPlannedOver set digits s → moment ≢ [] → MayAct set most_actions s → IsReadIn s set → EndsRound c set.object s (after_round c s set.object) }
    ensures unrefused { (set : SetParts) (digits : ℕ) (moment : List ℕ) (s : Store) → let c = reconciler_with set.object.key digits moment in
        IsUnrefusedOver set digits s → moment ≢ [] → MayAct set most_actions s → IsReadIn s set → members_have_float set.template ≡ false
        → ((key : Key) (o : Object) → Has s key o → 1 ≤ o.meta.uid) → EndsRound c set.object s (after_round c s set.object) }
{}

/// A collection deletes each claim whose owners are gone, and nothing else. So it leaves the pods as they are.
pub fn collections_take_ownerless_claims()
    ensures { (key : Key) (digits : ℕ) (moment : List ℕ) (s : Store) → let requests = collection_over (reconciler_with key digits moment) s in
        AreFiled s.objects → s.counter + length requests ≤ s.capacity → IsCollectedOver key s (after s requests) }
{}

/// And it leaves no claim to collect, if no claim owns another one and each owner has a UID that the store has given. Otherwise
/// a further collection may find some.
pub fn collections_leave_no_claim_to_collect()
    ensures { (key : Key) (digits : ℕ) (moment : List ℕ) (s : Store) → let requests = collection_over (reconciler_with key digits moment) s in let end = after s requests in
        AreFiled s.objects → s.counter + length requests ≤ s.capacity → OwnNoClaim key s → collectable (listed_in end key PersistentVolumeClaim) (owners_in end key) end.counter ≡ [] }
{}

/// A plan of at most 1,024 actions whose update revision is in place, carried out in the store that it was made over, does to the
/// set's pods what its steps say: a pod that it deletes is marked, one that it creates is there, of its revision and not ready
/// yet, and each other one is as it was.
pub fn plans_act_on_the_pods()
    ensures { (set : SetParts) (digits : ℕ) (moment : List ℕ) (s : Store) (plan : IsPlannedOver set digits s) (next : Pods)
        → moment ≢ [] → MayAct set most_actions s
        → replicas_in set plan.update.key.name plan.current.key.name (views_in set (after_plan set digits moment s)) ≡ Ok next
        → (i : ℕ) → (new : Replica) × IsCreated set i new × (pod_at next i ≡ after_steps (pod_steps (full_steps set plan.pods)) i new (pod_at plan.pods i)) }
{}

/// With a kubelet's turn after it, it is a round on pods, as the laws of `convergence` have it.
pub fn plans_and_turns_are_rounds_on_pods()
    ensures { (set : SetParts) (digits : ℕ) (moment : List ℕ) (s : Store) (plan : IsPlannedOver set digits s) (next : Pods)
        → moment ≢ [] → MayAct set most_actions s → MayTurn set.object.key.namespace (after_plan set digits moment s)
        → replicas_in set plan.update.key.name plan.current.key.name (views_in set (after_both set digits moment s)) ≡ Ok next
        → IsRound set plan.pods next }
{}

/// A plan leaves the set with the status that it counted: from the same pods and revisions no other is built. The status that was
/// there has no fraction, as no object that was read has.
pub fn plans_write_the_status()
    ensures { (set : SetParts) (digits : ℕ) (moment : List ℕ) (s : Store) (plan : IsPlannedOver set digits s) (next : SetParts)
        → moment ≢ [] → MayAct set most_actions s → IsReadIn s set → members_have_float (old_status set) ≡ false
        → IsReadIn (after_plan set digits moment s) next → next.object.key ≡ set.object.key
        → built_status next (status_of set plan.pods (current_name set plan.pods plan.current plan.update) plan.update.key.name) ≡ None }
{}

/// If the pods stand, each claim of an ordinal in range that is there after a plan has the owners that it is to have: the next
/// plan updates none of them.
pub fn plans_give_claims_their_owners()
    ensures { (set : SetParts) (digits : ℕ) (moment : List ℕ) (s : Store) (plan : IsPlannedOver set digits s)
        → moment ≢ [] → MayAct set most_actions s → IsReadIn s set → Stands set plan.pods → (i : ℕ) (template : Claim) (claim : Object) → in_range set i ≡ true → Among template set.claims
        → Has (after_plan set digits moment s) (key_parts PersistentVolumeClaim set.object.key.namespace (claim_name template.0 set.object.key.name i)) claim → HasMembers claim.body
        → are_wanted set (name_at set i) (owner_in_range set) (entries_of claim) ≡ true }
{}

/// If a plan creates, deletes and waits for no pod, it removes each revision that has expired.
pub fn plans_remove_expired_revisions()
    ensures { (set : SetParts) (digits : ℕ) (moment : List ℕ) (s : Store) (plan : IsPlannedOver set digits s)
        → moment ≢ [] → MayAct set most_actions s → IsReadIn s set → pod_steps (full_steps set plan.pods) ≡ []
        → AllByRecursion (λ (o : Object). map.get (after_plan set digits moment s).objects o.key ≡ None)
        (expired_revisions set (views_in set s) (current_name set plan.pods plan.current plan.update) plan.update.key.name plan.owned) }
{}

/// After a round that is not refused the update revision is in place: it was, or the round's plan has written it. And it stays: after
/// each further round it is the same one. Its template has no fraction, as no object that was read has, and each UID is above 0.
pub fn update_revisions_are_put_in_place()
    ensures put { (set : SetParts) (digits : ℕ) (s t : Store) (round : IsRoundOver set digits s t) → members_have_float round.now.template ≡ false
        → ((key : Key) (o : Object) → Has s key o → 1 ≤ o.meta.uid) → (update : Object) × IsInPlace set digits update t }
    ensures kept { (set : SetParts) (update : Object) (digits : ℕ) (s t : Store) → IsInPlace set digits update s → IsRoundOver set digits s t → IsInPlace set digits update t }
{}

/// So two rounds of the controller and the kubelet for each replica, one for each condemned pod and one more bring the pods of a store
/// to what the spec says, whatever they were; unless a failed pod stops the set, under OrderedReady. Before them the update
/// revision is in place; or the first one puts it there and condemns no more pods, which are counted after it. Meanwhile nobody else
/// writes, and no plan is refused.
pub fn sets_come_to_stand_in_stores()
    ensures in_place { (set : SetParts) (update : Object) (digits k : ℕ) (s t : Store) (current : List ℕ) (pods last : Pods)
        → IsReadIn s set → IsInPlace set digits update s → AreRoundsOver set digits k s t
        → replicas_in set update.key.name current (views_in set s) ≡ Ok pods → replicas_in set update.key.name current (views_in set t) ≡ Ok last
        → most_rounds set pods + 1 ≤ k → Stands set last ⊎ ((set.policy ≡ Policy.OrderedReady) × IsStopped set pods) }
    ensures from_any { (set : SetParts) (digits k : ℕ) (r s t : Store) (first : IsRoundOver set digits r s)
        → IsReadIn r set → members_have_float first.now.template ≡ false → ((key : Key) (o : Object) → Has r key o → 1 ≤ o.meta.uid)
        → AreRoundsOver set digits k s t → (update : Object) × IsInPlace set digits update s × CondemnsNoMore set update.key.name r s × ((current : List ℕ) (pods last : Pods)
        → replicas_in set update.key.name current (views_in set s) ≡ Ok pods → replicas_in set update.key.name current (views_in set t) ≡ Ok last
        → most_rounds set pods ≤ k → Stands set last ⊎ ((set.policy ≡ Policy.OrderedReady) × IsStopped set pods)) }
{}

/// One round more then leaves the set at rest, whatever the owners of claims, the history and the status were: the set that is read
/// after it has none of them to change. Before it the pods stand, each as a kubelet's turn leaves it, and the update revision is in
/// place. The status had no fraction, and the next plan is not refused.
pub fn sets_that_stand_come_to_rest()
    ensures { (set : SetParts) (update : Object) (digits : ℕ) (s t : Store) (current : List ℕ) (pods : Pods) → let key = set.object.key in
        IsReadIn s set → IsInPlace set digits update s → IsRoundOver set digits s t → replicas_in set update.key.name current (views_in set s) ≡ Ok pods → Stands set pods
        → AllByRecursion IsTendedPod (listed_in s key Pod) → members_have_float (old_status set) ≡ false
        → (next : SetParts) → IsReadIn t next → next.object.key ≡ key → IsUnrefusedOver next digits t
        → RestsOver next digits (listed_in t key ControllerRevision) (listed_in t key Pod) (listed_in t key PersistentVolumeClaim) }
{}

/// So two rounds for each replica, one for each condemned pod and two more bring a set to rest, whatever its pods, claims, history and
/// status were, unless a failed pod stops it. Before them the update revision is in place; or the first one puts it there and condemns
/// no more pods, which are counted after it. Meanwhile nobody else writes, and no plan is refused. At the end no claim is left to
/// collect; or the last plan leaves none whose owner is a claim or to come, with numbers for the deletes of its collection. Then each
/// further round only reads (`stores_of_sets_at_rest_stay`).
pub fn sets_come_to_rest_in_stores()
    ensures in_place { (set : SetParts) (update : Object) (digits k : ℕ) (s t u : Store) (current : List ℕ) (pods last : Pods) → let key = set.object.key in
        IsReadIn s set → IsInPlace set digits update s → AreRoundsOver set digits k s t
        → replicas_in set update.key.name current (views_in set s) ≡ Ok pods → replicas_in set update.key.name current (views_in set t) ≡ Ok last → most_rounds set pods + 1 ≤ k
        → (round : IsRoundOver set digits t u) → members_have_float (old_status round.now) ≡ false
        → (next : SetParts) → IsReadIn u next → next.object.key ≡ key → IsUnrefusedOver next digits u
        → (collectable (listed_in u key PersistentVolumeClaim) (owners_in u key) u.counter ≡ []) ⊎ MayCollect (reconciler_with key digits round.moment) (after_plan round.now digits round.moment t)
        → ShowsRest key digits u ⊎ ((set.policy ≡ Policy.OrderedReady) × IsStopped set pods) }
    ensures from_any { (set : SetParts) (digits k : ℕ) (r s t u : Store) (first : IsRoundOver set digits r s) → let key = set.object.key in
        IsReadIn r set → members_have_float first.now.template ≡ false → ((key : Key) (o : Object) → Has r key o → 1 ≤ o.meta.uid)
        → AreRoundsOver set digits k s t → (update : Object) × IsInPlace set digits update s × CondemnsNoMore set update.key.name r s × ((current : List ℕ) (pods last : Pods)
        → replicas_in set update.key.name current (views_in set s) ≡ Ok pods → replicas_in set update.key.name current (views_in set t) ≡ Ok last → most_rounds set pods ≤ k
        → (round : IsRoundOver set digits t u) → members_have_float (old_status round.now) ≡ false
        → (next : SetParts) → IsReadIn u next → next.object.key ≡ key → IsUnrefusedOver next digits u
        → (collectable (listed_in u key PersistentVolumeClaim) (owners_in u key) u.counter ≡ []) ⊎ MayCollect (reconciler_with key digits round.moment) (after_plan round.now digits round.moment t)
        → ShowsRest key digits u ⊎ ((set.policy ≡ Policy.OrderedReady) × IsStopped set pods)) }
{}
