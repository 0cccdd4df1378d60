// OrderedReady: one pod at a time.
ghost use Rattle.std.specs.Prelude.{◌≡◌, OnOk, find, reverse, option_map};
ghost use Rattle.std.specs.Map.Iter.{deref_pair};
ghost use Rattle.set_views.specs.Set.{set_parts};
ghost use Rattle.pod_steps.specs.Replicas.{is_out_of_range, pod_at};
ghost use Rattle.pod_steps.specs.Step.{Adds};
ghost use Rattle.pod_steps.specs.FullSteps.{ordered_ready_steps, is_other_unhealthy, gap_steps, scale_down_steps};

use crate::predicates::{end_of, first_gap};
use crate::replica::Replica;
use crate::single::{create, delete_condemned, delete_pod, keep_below, wait};
use crate::step::Steps;
use crate::update::update;
use set_views::Set;
use std::alloc::AllocError;
use std::collections::BTreeMap;

/// Adds the steps of OrderedReady: scales and updates the set one pod at a time.
pub(crate) fn add_ordered_ready_steps(
    steps: &mut Steps,
    set: &Set,
    pods: &BTreeMap<u32, Replica>,
) -> Result<(), AllocError>
    ensures { OnOk result (Adds steps.old.list.items steps.new.list.items (ordered_ready_steps (set_parts set.now) pods.now.entries)) }
{
    match first_gap(set, pods) {
        Some(ordinal) => {
            keep_below(steps, set, ordinal)?;
            close_gap(steps, set, pods, ordinal)
        }
        None => {
            keep_below(steps, set, end_of(set))?;
            match highest_condemned(set, pods) {
                Some((ordinal, pod)) => scale_down(steps, set, pods, *ordinal, pod),
                None => update(steps, set, pods),
            }
        }
    }
}

/// Adds the step towards a healthy pod at an ordinal that has none.
fn close_gap(
    steps: &mut Steps,
    set: &Set,
    pods: &BTreeMap<u32, Replica>,
    ordinal: u32,
) -> Result<(), AllocError>
    ensures { OnOk result (Adds steps.old.list.items steps.new.list.items (gap_steps (set_parts set.now) ordinal (pod_at pods.now.entries ordinal))) }
{
    match pods.get(&ordinal) {
        None => create(steps, set, ordinal),
        Some(pod) => {
            if pod.is_failed() && !pod.terminating {
                delete_pod(steps, ordinal, pod)
            } else {
                wait(steps, ordinal, pod)
            }
        }
    }
}

fn highest_condemned<'a>(
    set: &Set,
    pods: &'a BTreeMap<u32, Replica>,
) -> Option<(&'a u32, &'a Replica)>
    ensures { option_map deref_pair result ≡ find (is_out_of_range (set_parts set.now)) (reverse pods.now.entries) }
{
    pods.iter()
        .rev()
        .find(|(ordinal, _)| !set.has_in_range(**ordinal))
}

/// The least condemned pod, other than the highest, that is not healthy.
fn first_unhealthy<'a>(
    set: &Set,
    pods: &'a BTreeMap<u32, Replica>,
    highest: u32,
) -> Option<(&'a u32, &'a Replica)>
    ensures { option_map deref_pair result ≡ find (is_other_unhealthy (set_parts set.now) highest) pods.now.entries }
{
    pods.iter().find(|(ordinal, pod)| !set.has_in_range(**ordinal)
        && **ordinal != highest
        && !pod.is_healthy())
}

/// Deletes the highest condemned pod, once each other one is healthy.
fn scale_down(
    steps: &mut Steps,
    set: &Set,
    pods: &BTreeMap<u32, Replica>,
    highest: u32,
    pod: &Replica,
) -> Result<(), AllocError>
    ensures { OnOk result (Adds steps.old.list.items steps.new.list.items (scale_down_steps (set_parts set.now) pods.now.entries (highest, pod.now))) }
{
    if pod.terminating {
        return wait(steps, highest, pod);
    }
    match first_unhealthy(set, pods, highest) {
        Some((ordinal, other)) => wait(steps, *ordinal, other),
        None => delete_condemned(steps, highest, pod),
    }
}
