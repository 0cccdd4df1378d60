// Parallel: each pod at once.
ghost use Rattle.std.specs.Prelude.{◌≡◌, [], OnOk, reverse};
ghost use Rattle.std.specs.List.{flat_map};
ghost use Rattle.set_views.specs.Set.{set_parts};
ghost use Rattle.pod_steps.specs.Replicas.{pod_at};
ghost use Rattle.pod_steps.specs.Step.{Adds};
ghost use Rattle.pod_steps.specs.FullSteps.{all_target_steps, parallel_steps, target_steps, condemned_steps, parallel_scaling_steps};

use crate::predicates::end_of;
use crate::replica::Replica;
use crate::single::{create, delete_condemned, delete_pod, keep};
use crate::step::Steps;
use crate::update::update;
use set_views::Set;
use std::alloc::AllocError;
use std::collections::BTreeMap;

/// Adds the steps of Parallel: scales the set at once, and updates it if there is nothing to scale.
pub(crate) fn add_parallel_steps(
    steps: &mut Steps,
    set: &Set,
    pods: &BTreeMap<u32, Replica>,
) -> Result<(), AllocError>
    requires { steps.old.list.items ≡ [] }
    ensures { OnOk result (Adds steps.old.list.items steps.new.list.items (parallel_steps (set_parts set.now) pods.now.entries)) }
{
    scale(steps, set, pods)?;
    if steps.is_full() {
        return Ok(());
    }
    if steps.has_pod_step() {
        return Ok(());
    }
    update(steps, set, pods)
}

/// Adds the steps towards each pod in range, and deletes each condemned one.
#[tactic(auto, using(crate::proofs::Truncation::adds_more), unfolding(crate::specs::FullSteps::parallel_scaling_steps))]
fn scale(steps: &mut Steps, set: &Set, pods: &BTreeMap<u32, Replica>) -> Result<(), AllocError>
    ensures { OnOk result (Adds steps.old.list.items steps.new.list.items (parallel_scaling_steps (set_parts set.now) pods.now.entries)) }
{
    ensure_pods(steps, set, pods)?;
    delete_all_condemned(steps, set, pods)
}

/// Adds the steps towards each pod in range. It stops when the steps are full, since the range may be far longer than
/// the list of pods.
fn ensure_pods(
    steps: &mut Steps,
    set: &Set,
    pods: &BTreeMap<u32, Replica>,
) -> Result<(), AllocError>
    ensures { OnOk result (Adds steps.old.list.items steps.new.list.items (all_target_steps (set_parts set.now) pods.now.entries)) }
{
    for ordinal in set.start..end_of(set) {
        if steps.is_full() {
            return Ok(());
        }
        ensure_pod(steps, set, pods, ordinal)?;
    }
    Ok(())
}

/// Adds the step towards a pod at an ordinal in range.
#[tactic(auto, using(crate::proofs::Truncation::adds_none))]
fn ensure_pod(
    steps: &mut Steps,
    set: &Set,
    pods: &BTreeMap<u32, Replica>,
    ordinal: u32,
) -> Result<(), AllocError>
    ensures { OnOk result (Adds steps.old.list.items steps.new.list.items (target_steps (set_parts set.now) ordinal (pod_at pods.now.entries ordinal))) }
{
    match pods.get(&ordinal) {
        None => create(steps, set, ordinal),
        Some(pod) => {
            if pod.terminating {
                Ok(())
            } else if pod.is_failed() {
                delete_pod(steps, ordinal, pod)
            } else if pod.is_ready() {
                keep(steps, ordinal)
            } else {
                Ok(())
            }
        }
    }
}

/// Deletes each condemned pod, from the highest down.
fn delete_all_condemned(
    steps: &mut Steps,
    set: &Set,
    pods: &BTreeMap<u32, Replica>,
) -> Result<(), AllocError>
    ensures { OnOk result (Adds steps.old.list.items steps.new.list.items (flat_map (condemned_steps (set_parts set.now)) (reverse pods.now.entries))) }
{
    for (ordinal, pod) in pods.iter().rev() {
        delete_if_condemned(steps, set, *ordinal, pod)?;
    }
    Ok(())
}

/// Deletes the pod if it is condemned, unless it is terminating.
#[tactic(auto, using(crate::proofs::Truncation::adds_none))]
fn delete_if_condemned(
    steps: &mut Steps,
    set: &Set,
    ordinal: u32,
    pod: &Replica,
) -> Result<(), AllocError>
    ensures { OnOk result (Adds steps.old.list.items steps.new.list.items (condemned_steps (set_parts set.now) (ordinal, pod.now))) }
{
    if set.has_in_range(ordinal) || pod.terminating {
        Ok(())
    } else {
        delete_condemned(steps, ordinal, pod)
    }
}
