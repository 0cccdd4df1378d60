// The rolling update.
ghost use Rattle.std.specs.Prelude.{◌≡◌, OnOk, find, reverse};
ghost use Rattle.set_views.specs.Set.{set_parts};
ghost use Rattle.pod_steps.specs.Replicas.{is_due, ordinals, pod_at};
ghost use Rattle.pod_steps.specs.Step.{Adds};
ghost use Rattle.pod_steps.specs.FullSteps.{replacement_steps, update_steps};

use crate::predicates::end_of;
use crate::replica::Replica;
use crate::single::{delete_pod, wait};
use crate::step::Steps;
use set_views::{Set, Strategy};
use std::alloc::AllocError;
use std::collections::BTreeMap;

/// Whether a rolling update down to that partition has still to replace the ordinal's pod, or to wait for it.
fn is_due(pods: &BTreeMap<u32, Replica>, partition: u32, ordinal: u32) -> bool
    ensures { result ≡ is_due partition pods.now.entries ordinal }
{
    match pods.get(&ordinal) {
        Some(pod) => partition <= ordinal && !pod.is_settled(),
        None => false,
    }
}

/// The largest ordinal whose pod a rolling update has still to replace, or to wait for.
fn last_due(set: &Set, pods: &BTreeMap<u32, Replica>, partition: u32) -> Option<u32>
    ensures { result ≡ find (is_due partition pods.now.entries) (reverse (ordinals (set_parts set.now))) }
{
    (set.start..end_of(set))
        .rev()
        .find(|ordinal| is_due(pods, partition, *ordinal))
}

/// Deletes the pod if it is at another revision, and else waits for it.
#[tactic(auto, using(crate::proofs::Truncation::adds_none))]
fn replace(steps: &mut Steps, pods: &BTreeMap<u32, Replica>, ordinal: u32) -> Result<(), AllocError>
    ensures { OnOk result (Adds steps.old.list.items steps.new.list.items (replacement_steps ordinal (pod_at pods.now.entries ordinal))) }
{
    match pods.get(&ordinal) {
        Some(pod) => {
            if !pod.updated && !pod.terminating {
                delete_pod(steps, ordinal, pod)
            } else {
                wait(steps, ordinal, pod)
            }
        }
        None => Ok(()),
    }
}

/// Replaces the last pod that is due.
#[tactic(auto, using(crate::proofs::Truncation::adds_none), unfolding(crate::specs::FullSteps::update_steps))]
pub(crate) fn update(
    steps: &mut Steps,
    set: &Set,
    pods: &BTreeMap<u32, Replica>,
) -> Result<(), AllocError>
    ensures { OnOk result (Adds steps.old.list.items steps.new.list.items (update_steps (set_parts set.now) pods.now.entries)) }
{
    match set.strategy {
        Strategy::OnDelete => Ok(()),
        Strategy::RollingUpdate { partition } => match last_due(set, pods, partition) {
            Some(ordinal) => replace(steps, pods, ordinal),
            None => Ok(()),
        },
    }
}
