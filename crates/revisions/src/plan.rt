ghost use Rattle.std.specs.Prelude.{◌≡◌, ◌≤◌, ◌<◌, unwrap_or};
ghost use Rattle.objects.specs.Tree.{data_of};
ghost use Rattle.set_views.specs.Set.{set_parts};
ghost use Rattle.set_views.specs.Steps.{Gives};
ghost use Rattle.revisions.specs.Choice.{data_with, named_current};
ghost use Rattle.revisions.specs.Listing.{has_name};
ghost use Rattle.revisions.specs.Plan.{creation, objects_of, plan_of, plan_parts, IsPlan};

use crate::built::{data_with, new_revision, with_number};
use crate::choice::{Chosen, choice_of, greatest, is_sound, named_current};
use crate::listed::{Listed, read_revisions};
use crate::name::{name_of, new_name};
use crate::view::RevisionView;
use objects::{MAX_LABEL, Object, Tree};
use set_views::{PlanError, Set};
use std::alloc::Global;
use std::collections::BTreeSet;

/// The revisions of a set whose update revision is in place.
#[derive(Drop)]
pub struct Revisions<'a> {
    /// Those that the set controls, by number and then by name, so that the newest is the last.
    pub owned: Vec<RevisionView<'a>>,
    /// The one that pods below the partition are made from: that of `status.currentRevision`, or the update revision.
    pub current: RevisionView<'a>,
    /// The one that has the set's template.
    pub update: RevisionView<'a>,
}

/// What is due of a set's revisions.
#[derive(Drop)]
pub enum RevisionPlan<'a> {
    /// This ControllerRevision is to be created. Nothing else is planned until it is there.
    Create(Object),
    /// This one is to be updated: it has a new number. Nothing else is planned until it is.
    Renumber(Object),
    /// Nothing is due.
    Settled(Revisions<'a>),
}

/// What is due of the set's revisions among these objects, by the documentation of StatefulSets ("Rolling Updates") and
/// of ControllerRevisions (API reference, apps/v1). Objects of other kinds and namespaces are ignored, and of several
/// with one name the first counts. The newest is the last by number, and of one number by name. If the newest revision
/// has the set's template, nothing is due. If an older one has it, that one gets the next number. Else a new one is
/// made, whose name is the set's and so many hexadecimal digits of the digest of its `data` and the collision count;
/// while a listed revision has that name the count goes up.
///
/// It is BadSpec if the greatest number is above 9,223,372,036,854,775,806, or would be with the one that is due, or if the
/// current revision has no template to make pods from; NameTooLong if the new name has more than 63 bytes; and
/// NoRevisionName if the names of 1,024 counts are in use.
pub fn revision_plan<'a>(
    alloc: Global,
    set: &Set,
    revisions: &'a [Object],
    digits: usize,
) -> Result<RevisionPlan<'a>, PlanError>
    requires some { 1 ≤ digits }
    requires most { digits ≤ 64 }
    ensures { IsPlan (set_parts set.now) revisions.now digits result }
{
    let found = read_revisions(alloc, set, revisions)?;
    plan_of(alloc, set, found, digits)
}

#[tactic(auto, using(set_views::proofs::Chains::fails_then), unfolding(crate::specs::Plan::plan_of))]
fn plan_of<'a>(
    alloc: Global,
    set: &Set,
    found: Listed<'a>,
    digits: usize,
) -> Result<RevisionPlan<'a>, PlanError>
    requires some { 1 ≤ digits }
    requires most { digits ≤ 64 }
    ensures { Gives plan_parts result (plan_of (set_parts set.now) (λ q. has_name q found.entry.names.keys) digits (objects_of found.entry.owned.items)) }
{
    let Listed { names, owned } = found;
    let template = data_with(alloc, &set.template)?;
    let choice = choice_of(&owned, &template);
    if !is_sound(set, &owned, choice) {
        drop(template);
        drop(names);
        drop(owned);
        return Err(PlanError::BadSpec);
    }
    match choice {
        Chosen::InPlace(update) => {
            let current = current_or(set, &owned, update);
            Ok(RevisionPlan::Settled(Revisions {
                owned,
                current,
                update,
            }))
        }
        Chosen::Renumber(revision) => {
            let number = greatest(&owned) + 1;
            Ok(RevisionPlan::Renumber(with_number(revision.object, number)?))
        }
        Chosen::Create => {
            let number = greatest(&owned) + 1;
            Ok(RevisionPlan::Create(creation(alloc, set, &names, template, number, digits)?))
        }
    }
}

/// The current revision, or that one if `status.currentRevision` names none.
fn current_or<'a>(
    set: &Set,
    owned: &[RevisionView<'a>],
    update: RevisionView<'a>,
) -> RevisionView<'a>
    ensures { result.object.now ≡ unwrap_or (named_current (set_parts set.now) (objects_of owned.now)) update.entry.object.now }
{
    match named_current(set, owned) {
        Some(current) => current,
        None => update,
    }
}

/// A new revision of the set's template, under the first free name.
#[tactic(auto, using(set_views::proofs::Chains::fails_then), unfolding(crate::specs::Plan::creation))]
fn creation(
    alloc: Global,
    set: &Set,
    names: &BTreeSet<&str>,
    template: Tree,
    number: u64,
    digits: usize,
) -> Result<Object, PlanError>
    requires some { 1 ≤ digits }
    requires most { digits ≤ 64 }
    requires template { data_of template ≡ data_with set.now.template }
    ensures { Gives (λ object. object) result (creation (set_parts set.now) (λ q. has_name q names.now.keys) digits number) }
{
    if MAX_LABEL < name_of(set).len() + 1 + digits {
        drop(template);
        return Err(PlanError::NameTooLong);
    }
    let name = new_name(alloc, set, names, &template, digits)?;
    Ok(new_revision(alloc, set, name.as_str(), template, number)?)
}
