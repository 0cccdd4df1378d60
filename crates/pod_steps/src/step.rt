// The steps of a plan on a set's pods, and the list that holds the first of them.
ghost use Rattle.std.specs.Prelude.{◌≡◌, ◌+◌, ◌≤◌, ◌↔◌, [], ◌∷◌, IsTrue, OnOk, length, not};
ghost use Rattle.std.specs.List.{list_any};
ghost use Rattle.pod_steps.specs.Step.{Adds, truncated, is_of_pod, pod_steps};

use std::alloc::{AllocError, Global};

/// What a plan waits for.
#[derive(Clone, Copy)]
pub enum Cause {
    /// The pod is terminating.
    Terminating,
    /// The pod is not ready.
    NotReady,
}

/// The revision that a new pod is made from.
#[derive(Clone, Copy)]
pub enum Revision {
    Current,
    Update,
}

/// A step of a plan. The pod of an ordinal has the set's name and the ordinal as its name. A step on claims is added
/// whenever the claims of that ordinal are to be checked, and becomes no request if they are as wanted.
#[derive(Clone, Copy)]
pub enum Step {
    /// Creates the missing claims of a pod that is then created, and updates the others.
    MakeClaims { ordinal: u32 },
    /// Updates the claims of a healthy pod.
    KeepClaims { ordinal: u32 },
    /// Updates the claims of a condemned pod with that UID, which is then deleted.
    ReleaseClaims { ordinal: u32, uid: u64 },
    CreatePod { ordinal: u32, revision: Revision },
    /// Deletes the pod with that UID, 0 if none was read.
    DeletePod { ordinal: u32, uid: u64 },
    Wait { ordinal: u32, cause: Cause },
}

impl Step {
    fn is_of_pod(&self) -> bool
        ensures { result ≡ is_of_pod self.now }
    {
        matches!(
            self,
            Step::CreatePod { .. } | Step::DeletePod { .. } | Step::Wait { .. }
        )
    }
}

const LIMIT: usize = 1024;

/// The steps that were added, up to the 1,024th that is no step on claims.
#[derive(Drop)]
pub(crate) struct Steps {
    pub list: Vec<Step>,
    // how many of them are no steps on claims
    of_pods: usize,
    ghost counted: { of_pods ≡ length (pod_steps list.items) },
    ghost within: { truncated list.items ≡ list.items },
}

impl Steps {
    #[tactic(auto, using(crate::proofs::Truncation::truncated_nil))]
    pub fn new(alloc: Global) -> Steps
        ensures { result.list.items ≡ [] }
    {
        Steps {
            list: Vec::new(alloc),
            of_pods: 0,
        }
    }

    /// Whether whatever is added after these steps is left to the next plan.
    pub fn is_full(&self) -> bool
        ensures { IsTrue result ↔ (1024 ≤ length (pod_steps self.now.list.items)) }
    {
        self.of_pods >= LIMIT
    }

    /// Adds a step, unless the list is full.
    #[tactic(auto, using(crate::proofs::Truncation::adds_one, crate::proofs::Truncation::adds_none_past, crate::proofs::Truncation::truncated_with_one, crate::proofs::Truncation::count_with_one, crate::proofs::Truncation::count_with_other))]
    pub fn add(&mut self, step: Step) -> Result<(), AllocError>
        ensures { OnOk result (Adds self.old.list.items self.new.list.items (step ∷ [])) }
    {
        if self.of_pods < LIMIT {
            self.list.push(step)?;
            if step.is_of_pod() {
                self.of_pods += 1;
            }
        }
        Ok(())
    }

    /// Whether there is a step that is none on claims.
    pub(crate) fn has_pod_step(&self) -> bool
        ensures { result ≡ list_any is_of_pod self.now.list.items }
    {
        have_pod_step(&self.list)
    }
}

fn have_pod_step(steps: &[Step]) -> bool
    ensures { result ≡ list_any is_of_pod steps.now }
{
    steps.iter().any(|step| step.is_of_pod())
}

/// Whether these steps create, delete and wait for no pod. Only a plan of such steps deletes revisions.
pub fn are_quiet(steps: &[Step]) -> bool
    ensures { result ≡ not (list_any is_of_pod steps.now) }
{
    !have_pod_step(steps)
}
