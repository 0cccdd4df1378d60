// Why a plan has its actions.
ghost use Rattle.std.specs.Prelude.{◌≡◌, ◌≤◌, false, find, reverse, option_map, IfOk};
ghost use Rattle.std.specs.Map.Iter.{deref_pair};
ghost use Rattle.set_views.specs.Firsts.{is_held};
ghost use Rattle.set_views.specs.Set.{set_parts};
ghost use Rattle.revisions.specs.Plan.{plan_of};
ghost use Rattle.revisions.specs.Revision.{listed};
ghost use Rattle.sets.specs.PlanOfLists.{owned_of};
ghost use Rattle.reasons.specs.Reasons.{grounds_with, is_outdated, ordinal_of, update_name, wait_reason_by};
ghost use Rattle.reasons.specs.Found.{is_out_of_memory, name_found};

use crate::gone::{Gone, has_owners, is_deleted_with};
use crate::reason::Reason;
use objects::{Memory, Object, Text, split_pod_name};
use pod_steps::{Replica, by_ordinal, views_of};
use revisions::{RevisionPlan, revision_plan};
use set_views::{PlanError, Readiness, Set, Strategy};
use sets::Action;
use std::alloc::Global;
use std::collections::BTreeMap;

/// What the reasons of a plan depend on: the set, the name of its update revision, and its pods as they were listed.
#[derive(Drop)]
pub struct Why {
    pub(crate) set: Set,
    pub(crate) update: Text,
    pub(crate) pods: BTreeMap<u32, Replica>,
}

/// The name of the update revision, empty if a revision has to be written first.
fn name_of_update<'a>(found: &Result<RevisionPlan<'a>, PlanError>) -> Result<&'a str, Memory>
    ensures name { IfOk result (λ name. name.now ≡ name_found found.now) }
    ensures ample { IfOk result (λ _. is_out_of_memory found.now ≡ false) }
{
    match found {
        Ok(RevisionPlan::Settled(revisions)) => Ok(revisions.update.name),
        Ok(RevisionPlan::Create(_) | RevisionPlan::Renumber(_)) => Ok(""),
        Err(PlanError::Memory) => Err(Memory),
        Err(
            PlanError::NameTooLong
            | PlanError::BadSpec
            | PlanError::Foreign(_)
            | PlanError::OrdinalTooLarge
            | PlanError::NoRevisionName,
        ) => Ok(""),
    }
}

fn update_in(alloc: Global, set: &Set, revisions: &[Object], digits: usize) -> Result<Text, Memory>
    requires some { 1 ≤ digits }
    requires most { digits ≤ 64 }
    ensures { IfOk result (λ name. name ≡ update_name
        (plan_of (set_parts set.now) (is_held (listed (set_parts set.now) revisions.now)) digits (owned_of (set_parts set.now) revisions.now))) }
{
    let found = revision_plan(alloc, set, revisions, digits);
    let name = name_of_update(&found)?;
    let text = Text::copy_of(alloc, name)?;
    Ok(text)
}

fn pods_in(
    alloc: Global,
    set: &Set,
    update: &str,
    pods: &[Object],
) -> Result<BTreeMap<u32, Replica>, Memory>
    ensures { IfOk result (λ found. found.entries ≡ (grounds_with (set_parts set.now) update.now pods.now).pods) }
{
    let views = views_of(alloc, set, pods)?;
    let found = by_ordinal(alloc, set, update, "", &views)?;
    Ok(found)
}

/// Whether a rolling update down to that partition has still to replace the pod.
fn is_outdated(set: &Set, partition: u32, ordinal: u32, pod: &Replica) -> bool
    ensures { result ≡ is_outdated (set_parts set.now) partition (ordinal, pod.now) }
{
    set.has_in_range(ordinal) && partition <= ordinal && !pod.updated && !pod.terminating
}

fn last_outdated<'a>(
    set: &Set,
    pods: &'a BTreeMap<u32, Replica>,
    partition: u32,
) -> Option<(&'a u32, &'a Replica)>
    ensures { option_map deref_pair result ≡ find (is_outdated (set_parts set.now) partition) (reverse pods.now.entries) }
{
    pods.iter().rev().find(|(ordinal, pod)| is_outdated(set, partition, **ordinal, pod))
}

/// The ordinal that the name of a pod or of its claim ends with.
fn ordinal_of(name: &str) -> Option<u32>
    ensures { result ≡ ordinal_of name.now }
{
    ordinal_in(split_pod_name(name))
}

fn ordinal_in(split: Option<(&str, u32)>) -> Option<u32>
    ensures { result ≡ option_map (λ s. s.1) split.entry }
{
    match split {
        Some((_, ordinal)) => Some(ordinal),
        None => None,
    }
}

/// Why a plan waits for a pod, by the pod's own ordinal and that of the pod to be updated next.
fn wait_reason(waited: Option<u32>, next: Option<u32>) -> Reason
    ensures { result ≡ wait_reason_by waited next }
{
    match (waited, next) {
        (_, None) => Reason::Unstated,
        (None, Some(ordinal)) => Reason::HoldsUp(ordinal),
        (Some(own), Some(ordinal)) => {
            if own == ordinal {
                Reason::HoldsUpItself
            } else {
                Reason::HoldsUp(ordinal)
            }
        }
    }
}

impl Why {
    ghost use Rattle.std.specs.Prelude.{◌≡◌, ◌≤◌, IfOk};
    ghost use Rattle.set_views.specs.Set.{set_parts};
    ghost use Rattle.reasons.specs.Reasons.{claim_reason, deletion_reason, is_deleted_with_pod, grounds_of_lists, has_failed, next_outdated, ordinal_of, pod_reason, reason_of};
    ghost use Rattle.reasons.specs.Why.{grounds};

    /// What the reasons of a plan of this set over these pods and revisions depend on.
    pub fn of(
        alloc: Global,
        set: Set,
        pods: &[Object],
        revisions: &[Object],
        digits: usize,
    ) -> Result<Why, Memory>
        requires some { 1 ≤ digits }
        requires most { digits ≤ 64 }
        ensures { IfOk result (λ why. grounds why ≡ grounds_of_lists (set_parts set) digits revisions.now pods.now) }
    {
        let update = update_in(alloc, &set, revisions, digits)?;
        let found = pods_in(alloc, &set, update.as_str(), pods)?;
        Ok(Why {
            set,
            update,
            pods: found,
        })
    }

    /// The set that was planned.
    pub fn set(&self) -> &Set
        ensures { set_parts result.now ≡ (grounds self.now).set }
    {
        &self.set
    }

    /// The name of its update revision.
    pub fn update(&self) -> &str
        ensures { result.now ≡ (grounds self.now).update }
    {
        self.update.as_str()
    }

    fn has_failed(&self, ordinal: u32) -> bool
        ensures { result ≡ has_failed (grounds self.now).pods ordinal }
    {
        match self.pods.get(&ordinal) {
            Some(pod) => matches!(pod.readiness, Readiness::Failed),
            None => false,
        }
    }

    fn deletion_reason(&self, ordinal: Option<u32>) -> Reason
        ensures { result ≡ deletion_reason (grounds self.now) ordinal }
    {
        match ordinal {
            None => Reason::Unstated,
            Some(ordinal) if !self.set.has_in_range(ordinal) => Reason::OutOfRange,
            Some(ordinal) if self.has_failed(ordinal) => Reason::Failed,
            Some(_) => Reason::Outdated,
        }
    }

    fn is_deleted_with_pod(&self, claim: &Object, ordinal: u32) -> bool
        ensures { result ≡ is_deleted_with_pod (grounds self.now) claim.now ordinal }
    {
        match self.pods.get(&ordinal) {
            Some(pod) => is_deleted_with(Gone::Owner(pod.uid), claim),
            None => false,
        }
    }

    fn pod_reason(&self, claim: &Object, ordinal: Option<u32>) -> Reason
        ensures { result ≡ pod_reason (grounds self.now) claim.now ordinal }
    {
        match ordinal {
            Some(ordinal) if self.is_deleted_with_pod(claim, ordinal) => Reason::DeletedWithPod(
                ordinal,
            ),
            _ => Reason::Unstated,
        }
    }

    fn claim_reason(&self, claim: &Object) -> Reason
        ensures { result ≡ claim_reason (grounds self.now) claim.now }
    {
        if !has_owners(claim) {
            Reason::Stays
        } else if is_deleted_with(Gone::Owner(self.set.object.meta.uid), claim) {
            Reason::DeletedWithSet
        } else {
            self.pod_reason(claim, ordinal_of(claim.key.name.as_str()))
        }
    }

    /// The ordinal of the pod that the rolling update replaces next, once nothing holds it up.
    fn next_outdated(&self) -> Option<u32>
        ensures { result ≡ next_outdated (grounds self.now) }
    {
        match self.set.strategy {
            Strategy::OnDelete => None,
            Strategy::RollingUpdate { partition } => {
                match last_outdated(&self.set, &self.pods, partition) {
                    Some((ordinal, _)) => Some(*ordinal),
                    None => None,
                }
            }
        }
    }

    /// Why a plan of the set has this action.
    pub fn reason(&self, action: &Action) -> Reason
        ensures { result ≡ reason_of (grounds self.now) action.now }
    {
        match action {
            Action::DeletePod { name, .. } => self.deletion_reason(ordinal_of(name.as_str())),
            Action::UpdateClaim(claim) => self.claim_reason(claim),
            Action::Wait(_, name) => wait_reason(ordinal_of(name.as_str()), self.next_outdated()),
            _ => Reason::Unstated,
        }
    }
}
