ghost use Rattle.std.specs.Prelude.{◌≤◌, ◌<◌, ℕ, List};
ghost use Rattle.cluster_runs.specs.declared.event.ClusterEvent.{ClusterEvent};
ghost use Rattle.cluster_runs.specs.Cluster.{run, start};
ghost use Rattle.cluster_runs.specs.Ordered.{OrderKeepsPromises};
ghost use Rattle.interleavings.specs.Linearization.{IsLegal};
ghost use Rattle.interleavings.specs.Trace.{trace};
ghost use Rattle.interleavings.specs.World.{Size};
ghost use Rattle.plain_store.specs.Reached.{most_revisions};
ghost use Rattle.rounds.specs.Reconciler.{Reconciler};
ghost use Rattle.rounds.specs.Sound.{IsSound};

use interleavings::runs_are_linearizable;
use rounds::transcripts_keep_promises;

/// However the steps of controllers, of other clients and of the store are mixed, and whenever controllers crash: in
/// each legal order of the run, what one plain store handles keeps the promises.
pub fn clusters_keep_promises()
    ensures { (size : Size) (count : ℕ) (reconcilers : ℕ → Reconciler) (events : List ClusterEvent) (order : List ℕ)
        → 0 < size.shards → 1 ≤ size.capacity → size.capacity ≤ most_revisions → ((controller : ℕ) → IsSound (reconcilers controller))
        → IsLegal size.capacity (trace size (run size count reconcilers (start count) events).events) order
        → OrderKeepsPromises size reconcilers (run size count reconcilers (start count) events) order }
{
    runs_are_linearizable();
    transcripts_keep_promises();
}
