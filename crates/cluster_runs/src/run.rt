ghost use Rattle.std.specs.Prelude.{◌≡◌, ◌⊎◌, ◌<◌, ◌≤◌, ◌↔◌, ℕ, length, IfOk, IsErrOf, OnErr, OnOk};
ghost use Rattle.std.specs.List.{AllByRecursion};
ghost use Rattle.plain_store.specs.Reached.{most_revisions};
ghost use Rattle.rounds.specs.Phase.{reading_set};
ghost use Rattle.rounds.specs.Reconciler.{Reconciler};
ghost use Rattle.rounds.specs.Sound.{IsSound};
ghost use Rattle.rounds.specs.World.{AreMadeOf, StandAt};
ghost use Rattle.cluster_runs.specs.Ordered.{OrderKeepsPromises};
ghost use Rattle.cluster_runs.specs.Ran.{IsClusterRun, IsTooMany, StopsAt, cluster_after};

use crate::callers::UsedCallers;
use crate::cluster::Cluster;
use crate::event::ClusterEvent;
use crate::fault::ClusterFault;
use crate::laws::clusters_keep_promises;
use history::Replay;
use interleavings::{Event, Run};
use rounds::ControlLoop;
use std::alloc::Global;
use std::collections::BTreeMap;

/// The events that were passed to the store, in order, and their run. Indices in the run count these events.
#[derive(Drop)]
pub struct ClusterRun {
    pub events: Vec<Event>,
    pub run: Run,
    /// For each caller that was used: the number of the controller that it is or was, and none for another client.
    pub owners: BTreeMap<u64, Option<usize>>,
}

/// Applies the events, one after another. Each becomes exactly one event of the store, unless it is not enabled; then
/// it changes nothing. The store's run is explained by an order in which one plain store handles whole requests, and in
/// that order these keep the promises of sound controllers: between two accepted creates of one key is an accepted
/// removal of the first one's UID; what an accepted delete of a plan marks or removes has the UID that was listed for
/// the plan; each create of a controller comes from its plan over the replies that it got since its last crash, in that
/// round; each delete of a controller is of a pod or a revision and comes from such a plan, or it is of a claim and
/// comes from a collection of that round; and when a controller's delete removes a claim, no object of its namespace
/// has the UID of an owner of it, and none ever will.
///
/// Each controller keeps its reconciler, and is where the events left it. At a fault it is where the events before the
/// failed one left it: `TooManyCallers` fails at the event that brings the 4,097th caller. A fault before the first
/// event leaves the controllers as they were. So they can crash, and another run can follow.
pub fn run_cluster<C: ControlLoop>(
    alloc: Global,
    shards: usize,
    capacity: u64,
    controllers: &mut [C],
    events: &[ClusterEvent],
) -> Result<ClusterRun, ClusterFault>
    requires { AllByRecursion (λ c. (C.phase c ≡ reading_set)) controllers.old }
    ensures run { IfOk result (λ found. (reconcilers : ℕ → Reconciler) → AreMadeOf C.reconciler controllers.old reconcilers
        → IsClusterRun (record { capacity = capacity; shards = shards }) (length controllers.old) reconcilers events.now found) }
    ensures promises { IfOk result (λ found. (reconcilers : ℕ → Reconciler) → AreMadeOf C.reconciler controllers.old reconcilers
        → ((c : ℕ) → IsSound (reconcilers c))
        → OrderKeepsPromises (record { capacity = capacity; shards = shards }) reconcilers
        (cluster_after (record { capacity = capacity; shards = shards }) (length controllers.old) reconcilers events.now) found.run.order.items) }
    ensures many { length controllers.new ≡ length controllers.old }
    ensures stand { OnOk result ((reconcilers : ℕ → Reconciler) → AreMadeOf C.reconciler controllers.old reconcilers
        → StandAt C.reconciler C.phase controllers.new reconcilers
        (cluster_after (record { capacity = capacity; shards = shards }) (length controllers.old) reconcilers events.now).phases) }
    ensures unbegun { IsErrOf result ClusterFault.BadShards ⊎ (IsErrOf result ClusterFault.BadCapacity ⊎ (4096 < length controllers.old))
        → controllers.new ≡ controllers.old }
    ensures stopped { OnErr result ((reconcilers : ℕ → Reconciler) → AreMadeOf C.reconciler controllers.old reconcilers
        → (controllers.new ≡ controllers.old) ⊎ ((n : ℕ) × StopsAt C.reconciler C.phase
        (record { capacity = capacity; shards = shards }) (length controllers.old) reconcilers events.now controllers.new n)) }
    ensures filled { IsErrOf result ClusterFault.TooManyCallers → length controllers.old ≤ 4096
        → (reconcilers : ℕ → Reconciler) → AreMadeOf C.reconciler controllers.old reconcilers
        → (n : ℕ) × StopsAt C.reconciler C.phase
        (record { capacity = capacity; shards = shards }) (length controllers.old) reconcilers events.now controllers.new n
        × IsTooMany (record { capacity = capacity; shards = shards }) (length controllers.old) reconcilers events.now n }
    ensures bad_shards { IsErrOf result ClusterFault.BadShards ↔ (1 ≤ shards → 64 < shards) }
    ensures bad_capacity { IsErrOf result ClusterFault.BadCapacity ↔ ((1 ≤ shards) × (shards ≤ 64) × (1 ≤ capacity → most_revisions < capacity)) }
    ensures too_many { IsErrOf result ClusterFault.TooManyCallers → (reconcilers : ℕ → Reconciler) → AreMadeOf C.reconciler controllers.old reconcilers
        → 4096 < length (cluster_after (record { capacity = capacity; shards = shards }) (length controllers.old) reconcilers events.now).used }
{
    clusters_keep_promises();
    let replay = Replay::new(alloc, shards, capacity)?;
    let callers = UsedCallers::of(alloc, controllers.len())?;
    let mut cluster = Cluster {
        replay,
        callers,
        events: Vec::new(alloc),
    };
    for event in events {
        cluster.apply_event(controllers, event)?;
    }
    let Cluster {
        replay,
        callers,
        events,
    } = cluster;
    let UsedCallers {
        present,
        owners,
        unused: _,
    } = callers;
    drop(present);
    Ok(ClusterRun {
        events,
        run: replay.finish(),
        owners,
    })
}
