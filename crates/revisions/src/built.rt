// The ControllerRevisions that a plan writes.
ghost use Rattle.std.specs.Prelude.{◌≡◌, true, IfOk};
ghost use Rattle.objects.specs.Key.{is_key, key_parts};
ghost use Rattle.objects.specs.Tree.{data_of};
ghost use Rattle.objects.specs.declared.kind.Kind.TheVariants.{ControllerRevision};
ghost use Rattle.set_views.specs.Set.{set_parts};
ghost use Rattle.revisions.specs.Built.{new_revision, owned_metadata, owner_reference, with_number};
ghost use Rattle.revisions.specs.Choice.{data_with};

use objects::{Integer, Items, Key, Kind, Members, Memory, Object, ReadError, Tree, uid_text};
use set_views::Set;
use std::alloc::{AllocError, Global};

/// The `data` of a revision of this template.
pub(crate) fn data_with(alloc: Global, template: &Members) -> Result<Tree, AllocError>
    ensures { IfOk result (λ tree. data_of tree ≡ data_with template.now) }
{
    let template = Tree::Map(template.clone()?);
    let none = Members::none(alloc)?;
    let spec = none.clone()?.with("template", Some(template))?;
    Ok(Tree::Map(none.with("spec", Some(Tree::Map(spec)))?))
}

/// The set as the controller of what it owns.
fn owner_reference(alloc: Global, set: &Set) -> Result<Tree, Memory>
    ensures { IfOk result (λ tree. data_of tree ≡ owner_reference (set_parts set.now)) }
{
    let uid = uid_text(alloc, set.object.meta.uid)?;
    let owner = Members::none(alloc)?
        .with_text(alloc, "apiVersion", "apps/v1")?
        .with("blockOwnerDeletion", Some(Tree::Truth(true)))?
        .with("controller", Some(Tree::Truth(true)))?
        .with_text(alloc, "kind", "StatefulSet")?
        .with_text(alloc, "name", set.object.key.name.as_str())?
        .with_text(alloc, "uid", uid.as_str())?;
    Ok(Tree::Map(owner))
}

/// The metadata of what the set owns, except its name and namespace: one owner reference, with the set as the
/// controller, which keeps its UID until its dependents are deleted (Kubernetes, "Owners and Dependents":
/// `blockOwnerDeletion`).
pub fn owned_metadata(alloc: Global, set: &Set) -> Result<Members, Memory>
    ensures { IfOk result (λ metadata. metadata ≡ owned_metadata (set_parts set.now)) }
{
    let mut owners = Vec::new(alloc);
    owners.push(owner_reference(alloc, set)?)?;
    let owners = Tree::List(Items::of(alloc, owners)?);
    Ok(Members::none(alloc)?.with("ownerReferences", Some(owners))?)
}

/// A revision of the set's template, with that name and number.
pub(crate) fn new_revision(
    alloc: Global,
    set: &Set,
    name: &str,
    template: Tree,
    number: u64,
) -> Result<Object, Memory>
    requires named { is_key (key_parts ControllerRevision set.now.object.key.namespace name.now) ≡ true }
    requires template { data_of template ≡ data_with set.now.template }
    ensures { IfOk result (λ object. object ≡ new_revision (set_parts set.now) name.now number) }
{
    let members = Members::none(alloc)?
        .with("data", Some(template))?
        .with_number("revision", number)?;
    let metadata = owned_metadata(alloc, set)?;
    let key = revision_key(alloc, set.object.key.namespace.as_str(), name)?;
    Ok(Object::of(alloc, key, metadata, members)?)
}

fn revision_key(alloc: Global, namespace: &str, name: &str) -> Result<Key, Memory>
    requires { is_key (key_parts ControllerRevision namespace.now name.now) ≡ true }
    ensures { IfOk result (λ key. key ≡ key_parts ControllerRevision namespace.now name.now) }
{
    match Key::of(alloc, Kind::ControllerRevision, namespace, name) {
        Ok(key) => Ok(key),
        Err(ReadError::Memory) => Err(Memory),
        // The caller knows that the name makes a key, so only memory can run out.
        Err(_) => unreachable!(),
    }
}

/// The revision with that number.
pub(crate) fn with_number(revision: &Object, number: u64) -> Result<Object, AllocError>
    ensures { IfOk result (λ object. object ≡ with_number revision.now number) }
{
    let numbered = revision.clone()?;
    numbered.with_member("revision", Some(Tree::Integer(Integer::from(number))))
}
