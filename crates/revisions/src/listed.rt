// The revisions of a set, among the objects that were listed.
ghost use Rattle.std.specs.Prelude.{◌≡◌, ℕ, List, [], ◌∷◌, ◌++◌, ◌&&◌, ◌||◌, not, bytes_eq, if◌then◌else◌, IfOk, OnOk};
ghost use Rattle.std.specs.List.Sorted.{IsPermutation, IsSorted};
ghost use Rattle.objects.specs.declared.kind.Kind.TheVariants.{ControllerRevision};
ghost use Rattle.set_views.specs.Set.{set_parts};
ghost use Rattle.set_views.specs.Predicates.{in_namespace};
ghost use Rattle.revisions.specs.Listing.{has_name, HoldsNames};
ghost use Rattle.revisions.specs.Plan.{objects_of};
ghost use Rattle.revisions.specs.Revision.{owns_revision, owned_among, revision_cmp, AreOwned, listed};

use crate::view::{RevisionView, read_revision};
use objects::{Kind, Object};
use set_views::Set;
use std::alloc::{AllocError, Global};
use std::collections::BTreeSet;

/// The names of a namespace's revisions, and those revisions that the set controls.
#[derive(Drop)]
pub(crate) struct Listed<'a> {
    pub names: BTreeSet<&'a str>,
    pub owned: Vec<RevisionView<'a>>,
}

impl<'a> Listed<'a> {
    /// Adds one more object of the list.
    fn take(&mut self, set: &Set, object: &'a Object) -> Result<(), AllocError>
        ensures names { OnOk result ((q : List ℕ) → has_name q self.new.names.keys
            ≡ (has_name q self.old.names.keys || (in_namespace (set_parts set.now) ControllerRevision object.now && bytes_eq q object.now.key.name))) }
        ensures owned { OnOk result (objects_of self.new.owned.items ≡ (if in_namespace (set_parts set.now) ControllerRevision object.now
            && not (has_name object.now.key.name self.old.names.keys) && owns_revision (set_parts set.now) object.now
            then objects_of self.old.owned.items ++ object.now ∷ [] else objects_of self.old.owned.items)) }
    {
        if set.has_in_namespace(Kind::ControllerRevision, object) {
            let revision = read_revision(object);
            let is_first = self.names.insert(revision.name)?;
            if is_first && set.controls(object) {
                self.owned.push(revision)?;
            }
        }
        Ok(())
    }
}

/// The revisions of the set among these objects, in their order; of several with one name the first counts.
pub(crate) fn read_revisions<'a>(
    alloc: Global,
    set: &Set,
    objects: &'a [Object],
) -> Result<Listed<'a>, AllocError>
    ensures names { IfOk result (λ found. HoldsNames found.names.keys (listed (set_parts set.now) objects.now)) }
    ensures owned { IfOk result (λ found. AreOwned (set_parts set.now) objects.now (objects_of found.owned.items)) }
{
    let mut found = gather(alloc, set, objects)?;
    sort_revisions(&mut found.owned);
    Ok(found)
}

fn gather<'a>(alloc: Global, set: &Set, objects: &'a [Object]) -> Result<Listed<'a>, AllocError>
    ensures names { IfOk result (λ found. HoldsNames found.names.keys (listed (set_parts set.now) objects.now)) }
    ensures owned { IfOk result (λ found. objects_of found.owned.items ≡ owned_among (set_parts set.now) objects.now) }
{
    let mut found = Listed {
        names: BTreeSet::new(alloc),
        owned: Vec::new(alloc),
    };
    for object in objects {
        found.take(set, object)?;
    }
    Ok(found)
}

/// Puts revisions in the order of their numbers, and then of their names.
fn sort_revisions(owned: &mut Vec<RevisionView<'_>>)
    ensures same { IsPermutation (objects_of owned.old.items) (objects_of owned.new.items) }
    ensures ordered { IsSorted revision_cmp (objects_of owned.new.items) }
{
    owned.sort_unstable_by_key(|revision| (revision.number, revision.name));
}
