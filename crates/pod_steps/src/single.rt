// The steps on one ordinal.
ghost use Rattle.std.specs.Prelude.{◌≤◌, ◌-◌, [], ◌∷◌, OnOk};
ghost use Rattle.std.specs.List.{flat_map, range_with_len};
ghost use Rattle.set_views.specs.Set.{set_parts};
ghost use Rattle.pod_steps.specs.Step.{Adds};
ghost use Rattle.pod_steps.specs.FullSteps.{keep_steps, creation_steps, removal_steps, wait_for};

use crate::predicates::revision_at;
use crate::replica::Replica;
use crate::step::{Cause, Step, Steps};
use set_views::Set;
use std::alloc::AllocError;

/// Keeps the claims at the ordinals from the set's first one to below `end`.
pub(crate) fn keep_below(steps: &mut Steps, set: &Set, end: u32) -> Result<(), AllocError>
    requires { set.now.start ≤ end }
    ensures { OnOk result (Adds steps.old.list.items steps.new.list.items (flat_map keep_steps (range_with_len set.now.start (end - set.now.start)))) }
{
    for ordinal in set.start..end {
        keep(steps, ordinal)?;
    }
    Ok(())
}

pub(crate) fn keep(steps: &mut Steps, ordinal: u32) -> Result<(), AllocError>
    ensures { OnOk result (Adds steps.old.list.items steps.new.list.items (keep_steps ordinal)) }
{
    steps.add(Step::KeepClaims { ordinal })
}

/// Creates the pod at an ordinal, after its claims.
#[tactic(auto, using(crate::proofs::Truncation::adds_two))]
pub(crate) fn create(steps: &mut Steps, set: &Set, ordinal: u32) -> Result<(), AllocError>
    ensures { OnOk result (Adds steps.old.list.items steps.new.list.items (creation_steps (set_parts set.now) ordinal)) }
{
    steps.add(Step::MakeClaims { ordinal })?;
    let revision = revision_at(set.strategy, ordinal);
    steps.add(Step::CreatePod { ordinal, revision })
}

/// Deletes a condemned pod, after its claims.
#[tactic(auto, using(crate::proofs::Truncation::adds_two))]
pub(crate) fn delete_condemned(
    steps: &mut Steps,
    ordinal: u32,
    pod: &Replica,
) -> Result<(), AllocError>
    ensures { OnOk result (Adds steps.old.list.items steps.new.list.items (removal_steps ordinal pod.now)) }
{
    let uid = pod.uid;
    steps.add(Step::ReleaseClaims { ordinal, uid })?;
    delete_pod(steps, ordinal, pod)
}

pub(crate) fn delete_pod(steps: &mut Steps, ordinal: u32, pod: &Replica) -> Result<(), AllocError>
    ensures { OnOk result (Adds steps.old.list.items steps.new.list.items (Step.DeletePod ordinal pod.now.uid ∷ [])) }
{
    steps.add(Step::DeletePod {
        ordinal,
        uid: pod.uid,
    })
}

/// Waits for a pod that is not healthy.
pub(crate) fn wait(steps: &mut Steps, ordinal: u32, pod: &Replica) -> Result<(), AllocError>
    ensures { OnOk result (Adds steps.old.list.items steps.new.list.items (wait_for ordinal pod.now ∷ [])) }
{
    let cause = if pod.terminating {
        Cause::Terminating
    } else {
        Cause::NotReady
    };
    steps.add(Step::Wait { ordinal, cause })
}
