// The steps of a plan on a set's pods.
ghost use Rattle.std.specs.Prelude.{◌≡◌, [], IfOk, OnOk};
ghost use Rattle.set_views.specs.Set.{set_parts};
ghost use Rattle.pod_steps.specs.Step.{Adds, truncated, pod_steps};
ghost use Rattle.pod_steps.specs.Scaling.{ScalesOrderedReady, ScalesParallel};
ghost use Rattle.pod_steps.specs.FullSteps.{full_steps};

use crate::ordered_ready::add_ordered_ready_steps;
use crate::parallel::add_parallel_steps;
use crate::replica::Replica;
use crate::step::{Step, Steps};
use set_views::{Policy, Set};
use std::alloc::{AllocError, Global};
use std::collections::BTreeMap;

/// The steps of a plan on the pods of a set, as `replicas_of` gives them, up to the 1,024th that is no step on claims:
/// a plan has at most 1,024 actions, and these have as many, or are the full list. It scales by the set's
/// `podManagementPolicy`, and updates by its `updateStrategy` (Kubernetes, "StatefulSets": "Deployment and Scaling
/// Guarantees", "Update strategies"). Its time depends on the pods that exist, and not on `replicas`.
///
/// Under OrderedReady only the least ordinal in range without a healthy pod is handled; if there is none, the highest
/// condemned pod is scaled down; if there is none either, the update alone acts. Under Parallel all missing pods are
/// created, all failed and condemned ones that are not terminating are deleted, and nothing is waited for; if there are
/// none of these, the update alone acts. A rolling update replaces the largest ordinal that is due, down to the
/// partition, and OnDelete none.
pub fn pod_steps(
    alloc: Global,
    set: &Set,
    pods: &BTreeMap<u32, Replica>,
) -> Result<Vec<Step>, AllocError>
    ensures first { IfOk result (λ steps. steps.items ≡ truncated (full_steps (set_parts set.now) pods.now.entries)) }
    ensures ordered_ready { IfOk result (λ _. set.now.policy ≡ Policy.OrderedReady
        → ScalesOrderedReady (set_parts set.now) pods.now.entries (pod_steps (full_steps (set_parts set.now) pods.now.entries))) }
    ensures parallel { IfOk result (λ _. set.now.policy ≡ Policy.Parallel
        → ScalesParallel (set_parts set.now) pods.now.entries (pod_steps (full_steps (set_parts set.now) pods.now.entries))) }
{
    // A map's length says that its keys are in order.
    let _len = pods.len();
    let mut steps = Steps::new(alloc);
    add_by_policy(&mut steps, set, pods)?;
    Ok(steps.list)
}

/// Adds the steps by the set's policy.
fn add_by_policy(
    steps: &mut Steps,
    set: &Set,
    pods: &BTreeMap<u32, Replica>,
) -> Result<(), AllocError>
    requires { steps.old.list.items ≡ [] }
    ensures { OnOk result (Adds steps.old.list.items steps.new.list.items (full_steps (set_parts set.now) pods.now.entries)) }
{
    match set.policy {
        Policy::OrderedReady => add_ordered_ready_steps(steps, set, pods),
        Policy::Parallel => add_parallel_steps(steps, set, pods),
    }
}
