ghost use Rattle.std.specs.Prelude.{◌≡◌, ◌<◌, ◌≤◌, ◌+◌, ◌∷◌, [], ℕ, List, None, Option, false, true};
ghost use Rattle.std.specs.List.{AllByRecursion};
ghost use Rattle.cluster_runs.specs.declared.event.ClusterEvent.{ClusterEvent};
ghost use Rattle.cluster_runs.specs.Cluster.{Cluster, is_used, run, start};
ghost use Rattle.cluster_runs.specs.Turns.{Course, approach, asked, asked_as, carried, events_of_turns, followed_by, round, settled_as};
ghost use Rattle.cluster_runs.specs.declared.turn.Turn.{Turn};
ghost use Rattle.interleavings.specs.declared.trace.Item.TheVariants as item;
ghost use Rattle.interleavings.specs.World.{Idle, Size, opening};
ghost use Rattle.quiet_runs.specs.Plain.{AnswersPlainly, phases_after};
ghost use Rattle.quiet_runs.specs.Quiet.{Answers, HasShards, IsAtRest, IsQuiet, KeepsQuiet, is_open, is_single, steps_of_a_request, world_of};
ghost use Rattle.requests.specs.declared.reply.Reply.{Reply};
ghost use Rattle.requests.specs.declared.request.Request.{Request};
ghost use Rattle.rounds.specs.Phase.{asks};
ghost use Rattle.rounds.specs.Reconciler.{Reconciler};

/// If the store is quiet, an open request gets its reply when it is continued: within five steps, or two more than
/// there are shards if that is more; and the store is quiet again. So a script line that continues a request never
/// stops short there, whichever caller called it, and however many requests of other callers are open.
pub fn quiet_requests_are_answered()
    ensures { (size : Size) (count : ℕ) (reconcilers : ℕ → Reconciler) (cluster : Cluster) (caller : ℕ) → HasShards size
        → IsQuiet (world_of size cluster) → is_used cluster caller ≡ true → is_open ((world_of size cluster).phase caller) ≡ true
        → Answers (carried caller) [] caller (steps_of_a_request size) size count reconcilers cluster }
{}

/// If the store is quiet, an idle caller that sends a request gets the reply: a controller that sends its next request,
/// and a caller that is no controller's.
pub fn quiet_asks_are_answered()
    ensures controllers { (size : Size) (count : ℕ) (reconcilers : ℕ → Reconciler) (events : List ClusterEvent) (controller : ℕ)
        → HasShards size → controller < count
        → let cluster = run size count reconcilers (start count) events in
        let caller = cluster.callers controller in
        IsQuiet (world_of size cluster) → (world_of size cluster).phase caller ≡ Idle
        → Answers (asked controller) (item.Call (world_of size cluster).now caller (asks (reconcilers controller) (cluster.phases controller)) ∷ [])
        caller (steps_of_a_request size + 1) size count reconcilers cluster }
    ensures others { (size : Size) (count : ℕ) (reconcilers : ℕ → Reconciler) (cluster : Cluster) (caller : ℕ) (request : Request)
        → HasShards size → IsQuiet (world_of size cluster) → (world_of size cluster).phase caller ≡ Idle
        → cluster.incarnations caller ≡ None
        → Answers (asked_as caller request) (item.Call (world_of size cluster).now caller request ∷ [])
        caller (steps_of_a_request size + 1) size count reconcilers cluster }
{}

/// And the reply is the one that a plain store gives, which handles whole requests one at a time: the store that the writes so
/// far make up. The request leaves in the interleaved store what it leaves in that one. A controller then continues from this
/// reply; nothing else changes of any controller. So while one caller at a time asks, a quiet store is a plain one.
pub fn quiet_stores_are_plain_stores()
    ensures controllers { (size : Size) (count : ℕ) (reconcilers : ℕ → Reconciler) (events : List ClusterEvent) (controller : ℕ)
        → HasShards size → controller < count
        → let cluster = run size count reconcilers (start count) events in
        IsQuiet (world_of size cluster) → (world_of size cluster).phase (cluster.callers controller) ≡ Idle
        → AnswersPlainly (asked controller) (asks (reconcilers controller) (cluster.phases controller))
        (phases_after size reconcilers cluster controller) size count reconcilers cluster }
    ensures others { (size : Size) (count : ℕ) (reconcilers : ℕ → Reconciler) (cluster : Cluster) (caller : ℕ) (request : Request)
        → HasShards size → IsQuiet (world_of size cluster) → (world_of size cluster).phase caller ≡ Idle
        → cluster.incarnations caller ≡ None
        → AnswersPlainly (asked_as caller request) request cluster.phases size count reconcilers cluster }
{}

/// Lines that send or continue requests keep a quiet store quiet, and no caller waits for a reply that did not wait
/// before. Such a line continues a request, sends one as a controller or as another client, is a controller's round or
/// its approach to a write, or is rounds of all controllers and turns of a kubelet; any of these may follow one
/// another. So none of them stops short at a request that it has called. And a script without single events ends at
/// rest: no write is in progress, and no caller waits.
pub fn quiet_is_kept()
    ensures begins { IsAtRest opening }
    ensures carried { (size : Size) (count : ℕ) (reconcilers : ℕ → Reconciler) (caller : ℕ)
        → HasShards size → KeepsQuiet size count reconcilers (carried caller) }
    ensures controllers { (size : Size) (count : ℕ) (reconcilers : ℕ → Reconciler) (controller : ℕ)
        → HasShards size → KeepsQuiet size count reconcilers (asked controller) }
    ensures others { (size : Size) (count : ℕ) (reconcilers : ℕ → Reconciler) (caller : ℕ) (request : Request)
        → HasShards size → KeepsQuiet size count reconcilers (asked_as caller request) }
    ensures rounds { (size : Size) (count : ℕ) (reconcilers : ℕ → Reconciler) (controller : ℕ)
        → HasShards size → KeepsQuiet size count reconcilers (round controller) }
    ensures approaches { (size : Size) (count : ℕ) (reconcilers : ℕ → Reconciler) (controller : ℕ)
        → HasShards size → KeepsQuiet size count reconcilers (approach controller) }
    ensures settled { (size : Size) (count : ℕ) (reconcilers : ℕ → Reconciler) (rounds kubelet : ℕ) (namespaces : List (List ℕ))
        → HasShards size → KeepsQuiet size count reconcilers (settled_as rounds kubelet namespaces) }
    ensures one_after_another { (size : Size) (count : ℕ) (reconcilers : ℕ → Reconciler) (first : Course) (next : Option Reply → Course)
        → KeepsQuiet size count reconcilers first → ((delivered : Option Reply) → KeepsQuiet size count reconcilers (next delivered))
        → KeepsQuiet size count reconcilers (followed_by first next) }
    ensures scripts { (size : Size) (count : ℕ) (reconcilers : ℕ → Reconciler) (namespaces : List (List ℕ)) (turns : List Turn)
        → HasShards size → AllByRecursion (λ turn. is_single turn ≡ false) turns
        → IsAtRest (world_of size (run size count reconcilers (start count) (events_of_turns size count reconcilers namespaces turns))) }
{}
