// Controllers over the interleaved store, event by event.
ghost use Rattle.std.specs.Prelude.{◌≡◌, ◌≤◌, ◌<◌, length, map, IfOk, IsErrOf};
ghost use Rattle.std.specs.List.{AllByRecursion};
ghost use Rattle.plain_store.specs.Reached.{most_revisions};
ghost use Rattle.rounds.specs.Phase.{reading_set};
ghost use Rattle.cluster_runs.specs.Ordered.{OrderKeepsPromises, entries_in};
ghost use Rattle.cluster_runs.specs.Ran.{IsClusterRun, cluster_after};
ghost use Rattle.controllers.specs.Cluster.{reconciler_for, reconciler_named, size_of};
ghost use Rattle.controllers.specs.Controller.{phase_of, reconciler_of};
ghost use Rattle.controllers.specs.InTurn.{PodsComeInTurn};

use crate::cluster_spec::ClusterSpec;
use crate::controller::Controller;
use crate::set_spec::SetSpec;
use cluster_runs::{ClusterEvent, ClusterFault, ClusterRun};
use objects::Memory;
use std::alloc::Global;

/// Applies the events, one after another. Each becomes exactly one event of the store, unless it is not enabled; then
/// it changes nothing. The order of the run is one in which one plain store handles whole requests, gives exactly the
/// same replies, and keeps five promises, whenever controllers crash. Between two accepted creates of one key is an
/// accepted removal of the first one's UID. What an accepted delete of a plan marks or removes has the UID that was
/// listed for the plan. Each create of a controller comes from its plan over the replies that it got since its last
/// crash, in that round. Each delete of a controller is of a pod or a revision and comes from such a plan, or it is of
/// a claim and comes from a collection of that round. When a controller's delete removes a claim, no object of the
/// claim's namespace has the UID of an owner of it, and none ever will.
///
/// Each create of a pod, if its set was read as OrderedReady, is of the least ordinal in range that has no healthy pod
/// in the list of its plan, under a name that no pod there has; and its plan creates and deletes no other pod.
///
/// # Errors
/// The first of these that applies: `BadShards` and `BadCapacity` if these are out of range, `TooManyCallers` if more
/// than 4,096 callers would be used: controllers, those that they continue as after a crash, and others. `Memory` if an
/// allocation was refused, which may come before any of them.
pub fn run_cluster(
    alloc: Global,
    spec: &ClusterSpec,
    events: &[ClusterEvent],
) -> Result<ClusterRun, ClusterFault>
    ensures run { IfOk result (λ found. IsClusterRun (size_of spec.now) (length spec.now.sets.items) (reconciler_named spec.now.sets.items) events.now found) }
    ensures promises { IfOk result (λ found. OrderKeepsPromises (size_of spec.now) (reconciler_named spec.now.sets.items)
        (cluster_after (size_of spec.now) (length spec.now.sets.items) (reconciler_named spec.now.sets.items) events.now) found.run.order.items) }
    ensures in_turn { IfOk result (λ found. PodsComeInTurn (reconciler_named spec.now.sets.items) (entries_in (size_of spec.now)
        (cluster_after (size_of spec.now) (length spec.now.sets.items) (reconciler_named spec.now.sets.items) events.now) found.run.order.items)) }
    ensures bad_shards { IsErrOf result ClusterFault.BadShards → 1 ≤ spec.now.shards → 64 < spec.now.shards }
    ensures shards { IfOk result (λ found. (1 ≤ spec.now.shards) × (spec.now.shards ≤ 64)) }
    ensures bad_capacity { IsErrOf result ClusterFault.BadCapacity → (1 ≤ spec.now.shards) × (spec.now.shards ≤ 64)
        × (1 ≤ spec.now.capacity → most_revisions < spec.now.capacity) }
    ensures capacity { IfOk result (λ found. (1 ≤ spec.now.capacity) × (spec.now.capacity ≤ most_revisions)) }
    ensures too_many { IsErrOf result ClusterFault.TooManyCallers → (1 ≤ spec.now.shards) × (spec.now.shards ≤ 64)
        × (1 ≤ spec.now.capacity) × (spec.now.capacity ≤ most_revisions)
        × (4096 < length (cluster_after (size_of spec.now) (length spec.now.sets.items) (reconciler_named spec.now.sets.items) events.now).used) }
{
    let mut controllers = controllers_of(alloc, spec.sets.as_slice())?;
    cluster_runs::run_cluster(
        alloc,
        spec.shards,
        spec.capacity,
        controllers.as_mut_slice(),
        events,
    )
}

/// A controller for each of these sets.
pub(crate) fn controllers_of(alloc: Global, sets: &[SetSpec]) -> Result<Vec<Controller>, Memory>
    ensures made { IfOk result (λ controllers. map reconciler_of controllers.items ≡ map reconciler_for sets.now) }
    ensures begun { IfOk result (λ controllers. AllByRecursion (λ c. (phase_of c ≡ reading_set)) controllers.items) }
{
    let mut controllers = Vec::new(alloc);
    for set in sets {
        controllers.push(Controller::of(alloc, set)?)?;
    }
    Ok(controllers)
}
