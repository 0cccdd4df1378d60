// Controllers over the interleaved store, turn by turn.
ghost use Rattle.std.specs.Prelude.{◌≡◌, ◌≤◌, ◌<◌, length, IfOk, IsErrOf, OnOk, bytes_eq};
ghost use Rattle.std.specs.List.{list_any};
ghost use Rattle.plain_store.specs.Reached.{most_revisions};
ghost use Rattle.cluster_runs.specs.Ordered.{OrderKeepsPromises, entries_in};
ghost use Rattle.cluster_runs.specs.Ran.{IsClusterRun, cluster_after};
ghost use Rattle.cluster_runs.specs.Turns.{ends_of_turns, events_of_turns};
ghost use Rattle.controllers.specs.Cluster.{namespaces_of, reconciler_named, size_of, with_namespace};
ghost use Rattle.controllers.specs.InTurn.{PodsComeInTurn};

use crate::cluster::controllers_of;
use crate::cluster_spec::ClusterSpec;
use crate::set_spec::SetSpec;
use cluster_runs::{ClusterFault, Turn, TurnsRun};
use objects::{Memory, Text};
use std::alloc::Global;

/// Applies the events of the turns, one after another: each turn finds the cluster as the ones before left it. The
/// result also says how many events there were after each turn. All else is as for `run_cluster` over these events.
///
/// # Errors
/// Those of `run_cluster`.
pub fn run_turns(
    alloc: Global,
    spec: &ClusterSpec,
    turns: &[Turn],
) -> Result<TurnsRun, ClusterFault>
    ensures run { IfOk result (λ found. IsClusterRun (size_of spec.now) (length spec.now.sets.items) (reconciler_named spec.now.sets.items)
        (events_of_turns (size_of spec.now) (length spec.now.sets.items)
        (reconciler_named spec.now.sets.items) (namespaces_of spec.now.sets.items) turns.now) found.run) }
    ensures ends { IfOk result (λ found. found.ends.items ≡ ends_of_turns (size_of spec.now) (length spec.now.sets.items)
        (reconciler_named spec.now.sets.items) (namespaces_of spec.now.sets.items) turns.now) }
    ensures promises { IfOk result (λ found. OrderKeepsPromises (size_of spec.now) (reconciler_named spec.now.sets.items)
        (cluster_after (size_of spec.now) (length spec.now.sets.items) (reconciler_named spec.now.sets.items)
        (events_of_turns (size_of spec.now) (length spec.now.sets.items)
        (reconciler_named spec.now.sets.items) (namespaces_of spec.now.sets.items) turns.now)) found.run.run.order.items) }
    ensures in_turn { IfOk result (λ found. PodsComeInTurn (reconciler_named spec.now.sets.items) (entries_in (size_of spec.now)
        (cluster_after (size_of spec.now) (length spec.now.sets.items) (reconciler_named spec.now.sets.items)
        (events_of_turns (size_of spec.now) (length spec.now.sets.items)
        (reconciler_named spec.now.sets.items) (namespaces_of spec.now.sets.items) turns.now)) found.run.run.order.items)) }
    ensures bad_shards { IsErrOf result ClusterFault.BadShards → 1 ≤ spec.now.shards → 64 < spec.now.shards }
    ensures shards { IfOk result (λ found. (1 ≤ spec.now.shards) × (spec.now.shards ≤ 64)) }
    ensures bad_capacity { IsErrOf result ClusterFault.BadCapacity → (1 ≤ spec.now.shards) × (spec.now.shards ≤ 64)
        × (1 ≤ spec.now.capacity → most_revisions < spec.now.capacity) }
    ensures capacity { IfOk result (λ found. (1 ≤ spec.now.capacity) × (spec.now.capacity ≤ most_revisions)) }
    ensures too_many { IsErrOf result ClusterFault.TooManyCallers → (1 ≤ spec.now.shards) × (spec.now.shards ≤ 64)
        × (1 ≤ spec.now.capacity) × (spec.now.capacity ≤ most_revisions)
        × (4096 < length (cluster_after (size_of spec.now) (length spec.now.sets.items) (reconciler_named spec.now.sets.items)
        (events_of_turns (size_of spec.now) (length spec.now.sets.items)
        (reconciler_named spec.now.sets.items) (namespaces_of spec.now.sets.items) turns.now)).used) }
{
    let mut controllers = controllers_of(alloc, spec.sets.as_slice())?;
    let namespaces = namespaces_of(alloc, spec.sets.as_slice())?;
    cluster_runs::run_turns(
        alloc,
        spec.shards,
        spec.capacity,
        controllers.as_mut_slice(),
        namespaces.as_slice(),
        turns,
    )
}

/// The namespaces of these sets, each once, in the order of the first mention.
fn namespaces_of(alloc: Global, sets: &[SetSpec]) -> Result<Vec<Text>, Memory>
    ensures { IfOk result (λ namespaces. namespaces.items ≡ namespaces_of sets.now) }
{
    let mut found = Vec::new(alloc);
    for set in sets {
        note_namespace(alloc, &mut found, set)?;
    }
    Ok(found)
}

fn note_namespace(alloc: Global, found: &mut Vec<Text>, set: &SetSpec) -> Result<(), Memory>
    ensures { OnOk result (found.new.items ≡ with_namespace found.old.items set.now) }
{
    if is_noted(found.as_slice(), &set.namespace) {
        return Ok(());
    }
    found.push(Text::copy_of(alloc, set.namespace.as_str())?)?;
    Ok(())
}

fn is_noted(found: &[Text], namespace: &Text) -> bool
    ensures { result ≡ list_any (λ s. bytes_eq s namespace.now) found.now }
{
    found
        .iter()
        .any(|known| known.as_str() == namespace.as_str())
}
