ghost use Rattle.std.specs.Prelude.{◌≡◌, ◌≢◌, ◌⊎◌, ◌+◌, ◌++◌, ◌∷◌, ◌<◌, ◌≤◌, ℕ, false, List, [], Ok};
ghost use Rattle.std.specs.List.{AllByRecursion};
ghost use Rattle.serde_json.specs.Written.{members_have_float};
ghost use Rattle.objects.specs.declared.kind.Kind.TheVariants.{PersistentVolumeClaim, Pod};
ghost use Rattle.objects.specs.declared.object.Object.{Object};
ghost use Rattle.set_views.specs.Set.{SetParts};
ghost use Rattle.pod_steps.specs.Listed.{replicas_in};
ghost use Rattle.pod_steps.specs.Replicas.{Pods};
ghost use Rattle.collector.specs.Collectable.{collection as collectable};
ghost use Rattle.manifests.specs.BuiltStatus.{old_status};
ghost use Rattle.interleavings.specs.World.{Size};
ghost use Rattle.rounds.specs.Phase.{reading_set};
ghost use Rattle.rounds.specs.Reconciler.{Reconciler};
ghost use Rattle.controllers.specs.Reconciler.{reconciler_with};
ghost use Rattle.convergence.specs.Left.{most_rounds};
ghost use Rattle.convergence.specs.Stopped.{IsStopped};
ghost use Rattle.cluster_runs.specs.declared.event.ClusterEvent.{ClusterEvent};
ghost use Rattle.cluster_runs.specs.Cluster.{Cluster, lowest_unused, run, start};
ghost use Rattle.cluster_runs.specs.Turns.{events_of_turns};
ghost use Rattle.cluster_runs.specs.declared.turn.Turn.{Turn};
ghost use Rattle.cluster_runs.specs.declared.turn.Turn.TheVariants as turn;
ghost use Rattle.quiet_runs.specs.Quiet.{is_single};
ghost use Rattle.resting.specs.Acting.{IsReadIn, IsUnrefusedOver, after_plan, views_in};
ghost use Rattle.resting.specs.RoundsOver.{AreRoundsOver, CondemnsNoMore, IsInPlace};
ghost use Rattle.resting.specs.Still.{IsTendedPod, ShowsRest, listed_in, owners_in};
ghost use Rattle.resting.specs.WholeRounds.{MayCollect};
ghost use Rattle.settling.specs.Settling.{ComesToRest, IsBetweenRounds, IsSize, MayRound, after_settle, is_settle, settled_store};

use set_views::Policy;

/// From any events of a cluster with one controller, of a set, after which no write is in progress and the controller
/// is between two rounds: each round of `settle` is a round of the controller and a kubelet's turn over the plain
/// store that the writes so far make up, whatever the number of shards. Before each of them that store is one over
/// which a round may be made. Nobody else writes meanwhile.
pub fn settling_is_rounds_over_a_plain_store()
    ensures { (size : Size) (reconcilers : ℕ → Reconciler) (events : List ClusterEvent) (set : SetParts) (digits kubelet rounds : ℕ) (moment : List ℕ)
        → let cluster = run size 1 reconcilers (start 1) events in
        let store = settled_store size reconcilers kubelet set.object.key.namespace cluster in
        IsSize size → reconcilers 0 ≡ reconciler_with set.object.key digits moment → moment ≢ [] → IsBetweenRounds size kubelet cluster
        → ((i : ℕ) → i < rounds → MayRound set digits moment (store i))
        → IsBetweenRounds size kubelet (after_settle size reconcilers kubelet set.object.key.namespace cluster rounds)
        × AreRoundsOver set digits rounds (store 0) (store rounds) }
{}

/// If the set is at rest there, with no claim to collect, and each pod of its namespace is unmarked, and ready or
/// failed, then `settle` writes nothing, however many rounds it has.
pub fn sets_at_rest_stay_so_while_they_settle()
    ensures { (size : Size) (reconcilers : ℕ → Reconciler) (events : List ClusterEvent) (set : SetParts) (digits kubelet rounds : ℕ) (moment : List ℕ)
        → let cluster = run size 1 reconcilers (start 1) events in
        let store = settled_store size reconcilers kubelet set.object.key.namespace cluster in
        IsSize size → reconcilers 0 ≡ reconciler_with set.object.key digits moment → moment ≢ [] → IsBetweenRounds size kubelet cluster
        → ShowsRest set.object.key digits (store 0) → AllByRecursion IsTendedPod (listed_in (store 0) set.object.key Pod)
        → store rounds ≡ store 0 }
{}

/// So a `settle` of two rounds for each replica, one for each condemned pod and two more brings the set to rest, and
/// a further one writes nothing, unless a failed pod stops the set, under OrderedReady. That is so whatever the pods,
/// the claims, the history and the status were. Before it the update revision is in place; or the first round puts it
/// there and condemns no more pods, which are counted after it. Before each round the store is one over which a round
/// may be made: so no plan is refused. At the end no claim is left to collect; or the last plan leaves none whose
/// owner is a claim or to come, with numbers for the deletes of its collection.
pub fn sets_come_to_rest_when_they_settle()
    ensures in_place { (size : Size) (reconcilers : ℕ → Reconciler) (events : List ClusterEvent) (set : SetParts) (update : Object) (digits kubelet k : ℕ)
        (moment current : List ℕ) (pods last : Pods) → let key = set.object.key in
        let cluster = run size 1 reconcilers (start 1) events in
        let store = settled_store size reconcilers kubelet key.namespace cluster in
        IsSize size → reconcilers 0 ≡ reconciler_with key digits moment → moment ≢ [] → IsBetweenRounds size kubelet cluster
        → IsReadIn (store 0) set → IsInPlace set digits update (store 0) → ((i : ℕ) → i < k → MayRound set digits moment (store i))
        → replicas_in set update.key.name current (views_in set (store 0)) ≡ Ok pods → replicas_in set update.key.name current (views_in set (store k)) ≡ Ok last
        → most_rounds set pods + 1 ≤ k → (round : MayRound set digits moment (store k)) → members_have_float (old_status round.now) ≡ false
        → (next : SetParts) → IsReadIn (store (k + 1)) next → next.object.key ≡ key → IsUnrefusedOver next digits (store (k + 1))
        → (collectable (listed_in (store (k + 1)) key PersistentVolumeClaim) (owners_in (store (k + 1)) key) (store (k + 1)).counter ≡ [])
        ⊎ MayCollect (reconciler_with key digits moment) (after_plan round.now digits moment (store k))
        → ComesToRest key digits store (k + 1) ⊎ ((set.policy ≡ Policy.OrderedReady) × IsStopped set pods) }
    ensures from_any { (size : Size) (reconcilers : ℕ → Reconciler) (events : List ClusterEvent) (set : SetParts) (digits kubelet k : ℕ) (moment : List ℕ)
        → let key = set.object.key in
        let cluster = run size 1 reconcilers (start 1) events in
        let store = settled_store size reconcilers kubelet key.namespace cluster in
        IsSize size → reconcilers 0 ≡ reconciler_with key digits moment → moment ≢ [] → IsBetweenRounds size kubelet cluster
        → IsReadIn (store 0) set → ((i : ℕ) → i ≤ k → MayRound set digits moment (store i))
        → (update : Object) × IsInPlace set digits update (store 1) × CondemnsNoMore set update.key.name (store 0) (store 1)
        × ((current : List ℕ) (pods last : Pods) → replicas_in set update.key.name current (views_in set (store 1)) ≡ Ok pods
        → replicas_in set update.key.name current (views_in set (store (1 + k))) ≡ Ok last → most_rounds set pods ≤ k
        → (round : MayRound set digits moment (store (1 + k))) → members_have_float (old_status round.now) ≡ false
        → (next : SetParts) → IsReadIn (store (2 + k)) next → next.object.key ≡ key → IsUnrefusedOver next digits (store (2 + k))
        → (collectable (listed_in (store (2 + k)) key PersistentVolumeClaim) (owners_in (store (2 + k)) key) (store (2 + k)).counter ≡ [])
        ⊎ MayCollect (reconciler_with key digits moment) (after_plan round.now digits moment (store (1 + k)))
        → ComesToRest key digits store (2 + k) ⊎ ((set.policy ≡ Policy.OrderedReady) × IsStopped set pods)) }
{}

/// In a script whose set has this namespace, the first line `settle` is so many rounds from the cluster that the
/// lines before it left, and a second one is so many more. The kubelet is the lowest caller that was not used. If no
/// line before is a single event, and the controller's next request begins a round, that cluster is between two
/// rounds.
pub fn lines_of_scripts_settle()
    ensures lines { (size : Size) (reconcilers : ℕ → Reconciler) (namespace : List ℕ) (before : List Turn) (rounds more : ℕ)
        → let all : List Turn → Cluster = λ turns. run size 1 reconcilers (start 1) (events_of_turns size 1 reconcilers (namespace ∷ []) turns) in
        let cluster = all before in
        AllByRecursion (λ line. is_settle line ≡ false) before → 0 < rounds
        → (all (before ++ turn.Settle rounds ∷ []) ≡ after_settle size reconcilers (lowest_unused cluster) namespace cluster rounds)
        × (all (before ++ turn.Settle rounds ∷ turn.Settle more ∷ []) ≡ after_settle size reconcilers (lowest_unused cluster) namespace cluster (rounds + more)) }
    ensures begins { (size : Size) (reconcilers : ℕ → Reconciler) (namespace : List ℕ) (before : List Turn)
        → let cluster = run size 1 reconcilers (start 1) (events_of_turns size 1 reconcilers (namespace ∷ []) before) in
        IsSize size → AllByRecursion (λ line. is_single line ≡ false) before → cluster.phases 0 ≡ reading_set
        → IsBetweenRounds size (lowest_unused cluster) cluster }
{}
