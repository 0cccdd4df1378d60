// The members of an object, each as a text with the names that lead to it.
ghost use Rattle.std.specs.Prelude.{◌≡◌, ◌++◌, ◌∷◌, codes, decimal, option_map, IfOk, OnOk};
ghost use Rattle.serde_json.specs.Find.{as_object};
ghost use Rattle.trees.specs.Tree.{data_of, members_of};
ghost use Rattle.outcome_lines.specs.ObjectWords.{has_members, inner_of, leaf, leaves, leaves_of, lists_in, member_leaves, object_leaves, time_leaf};

use objects::{Members, Object, Text, Tree};
use std::alloc::{AllocError, Global};
use trees::tree_text;

/// The members of the object, but for those that name it, its version, its UID and its mark.
#[tactic(auto, using(crate::proofs::Stored::lists_push))]
pub(crate) fn object_leaves(alloc: Global, object: &Object) -> Result<Vec<Vec<u8>>, AllocError>
    ensures { IfOk result (λ found. lists_in found.items ≡ object_leaves object.now) }
{
    let mut found = Vec::new(alloc);
    add_body(alloc, &object.body, &mut found)?;
    let generation = generation_leaf(alloc, object.meta.generation)?;
    found.push(generation)?;
    Ok(found)
}

fn add_body(alloc: Global, body: &Tree, found: &mut Vec<Vec<u8>>) -> Result<(), AllocError>
    ensures { OnOk result (lists_in found.new.items ≡ lists_in found.old.items ++ leaves_of (as_object (data_of body.now))) }
{
    match body.as_map() {
        Some(members) => add_members(alloc, &[], members.entries(), found),
        None => Ok(()),
    }
}

fn generation_leaf(alloc: Global, generation: u64) -> Result<Vec<u8>, AllocError>
    ensures { IfOk result (λ text. text.items ≡ codes "metadata.generation " ++ decimal generation) }
{
    Ok(format!(in alloc; "metadata.generation {generation}")?.into_bytes())
}

#[cycle(leaves)]
#[tactic(auto, using(crate::proofs::Stored::lists_push, crate::proofs::Leaving::leaves_are))]
fn add_leaves(
    alloc: Global,
    path: &[u8],
    tree: &Tree,
    found: &mut Vec<Vec<u8>>,
) -> Result<(), AllocError>
    ensures { OnOk result (lists_in found.new.items ≡ lists_in found.old.items ++ leaves path.now (data_of tree.now)) }
{
    match inner_members(tree) {
        Some(members) => {
            let lead = with_text(alloc, path, ".".as_bytes())?;
            add_members(alloc, lead.as_slice(), members.entries(), found)
        }
        None => {
            let text = leaf(alloc, path, tree)?;
            Ok(found.push(text)?)
        }
    }
}

#[cycle(leaves)]
#[tactic(auto, using(crate::proofs::Stored::lists_push))]
fn add_members(
    alloc: Global,
    lead: &[u8],
    entries: &[(Text, Tree)],
    found: &mut Vec<Vec<u8>>,
) -> Result<(), AllocError>
    ensures { OnOk result (lists_in found.new.items ≡ lists_in found.old.items ++ member_leaves lead.now (members_of entries.now)) }
{
    for (name, value) in entries {
        let path = with_text(alloc, lead, name.as_str().as_bytes())?;
        add_leaves(alloc, path.as_slice(), value, found)?;
    }
    Ok(())
}

/// The members, if it is an object that has any.
#[tactic(auto, using(crate::proofs::Leaving::inner_by))]
fn inner_members(tree: &Tree) -> Option<&Members>
    ensures { option_map (λ members. members.now) result ≡ inner_of (data_of tree.now) }
{
    let members = tree.as_map()?;
    if has_members(members) {
        Some(members)
    } else {
        None
    }
}

fn has_members(members: &Members) -> bool
    ensures { result ≡ has_members members.now }
{
    match members.entries().split_first() {
        Some(_) => true,
        None => false,
    }
}

fn leaf(alloc: Global, path: &[u8], tree: &Tree) -> Result<Vec<u8>, AllocError>
    ensures { IfOk result (λ text. text.items ≡ leaf path.now (data_of tree.now)) }
{
    let value = tree_text(alloc, tree)?;
    with_words(alloc, path, value.as_slice())
}

/// The time at which an object was marked, as a member of it.
pub(crate) fn time_leaf(alloc: Global, at: &Text) -> Result<Vec<u8>, AllocError>
    ensures { IfOk result (λ text. text.items ≡ time_leaf at.now) }
{
    let tree = Tree::Text(at.clone()?);
    leaf(alloc, "metadata.deletionTimestamp".as_bytes(), &tree)
}

/// The text with the other behind it.
pub(crate) fn with_text(alloc: Global, text: &[u8], more: &[u8]) -> Result<Vec<u8>, AllocError>
    ensures { IfOk result (λ both. both.items ≡ text.now ++ more.now) }
{
    let mut both = text.to_vec(alloc)?;
    both.extend_from_slice(more)?;
    Ok(both)
}

/// The same, with a space between them.
pub(crate) fn with_words(alloc: Global, text: &[u8], more: &[u8]) -> Result<Vec<u8>, AllocError>
    ensures { IfOk result (λ both. both.items ≡ text.now ++ 32 ∷ more.now) }
{
    let mut both = text.to_vec(alloc)?;
    both.push(b' ')?;
    both.extend_from_slice(more)?;
    Ok(both)
}
