// JSON merge patches (RFC 7396).
ghost use Rattle.std.specs.Prelude.{◌≡◌, IfOk, option_map, unwrap_or};
ghost use Rattle.serde_json.specs.Data.{no_members};
ghost use Rattle.serde_json.specs.Find.{as_object, get_member};
ghost use Rattle.trees.specs.Members.{set_member};
ghost use Rattle.trees.specs.Tree.{data_of, members_of};
ghost use Rattle.participants.specs.Merging.{is_null, members_in, merged, merged_members, unless_null};

use objects::{Members, Text, Tree};
use std::alloc::{AllocError, Global};

/// The value, or a missing one, changed by a merge patch (RFC 7396): a map changes the members that it names, and any
/// other patch replaces the value.
#[cycle(merging)]
pub fn merged(alloc: Global, target: Option<Tree>, patch: &Tree) -> Result<Tree, AllocError>
    ensures { IfOk result (λ t. data_of t ≡ merged (option_map data_of target) (data_of patch.now)) }
{
    match patch.as_map() {
        Some(members) => {
            let before = members_in(alloc, &target)?;
            let changed = merged_members(alloc, before, members.entries())?;
            Ok(Tree::Map(changed))
        }
        None => {
            let copy = patch.clone()?;
            Ok(copy)
        }
    }
}

#[cycle(merging)]
fn merged_members(
    alloc: Global,
    target: Members,
    patch: &[(Text, Tree)],
) -> Result<Members, AllocError>
    ensures { IfOk result (λ ms. ms ≡ merged_members target (members_of patch.now)) }
{
    let mut changed = target;
    for (name, value) in patch {
        let more = merged_member(alloc, changed, name.as_str(), value)?;
        changed = more;
    }
    Ok(changed)
}

#[cycle(merging)]
fn merged_member(
    alloc: Global,
    target: Members,
    name: &str,
    patch: &Tree,
) -> Result<Members, AllocError>
    ensures { IfOk result (λ ms. ms ≡ set_member name.now (unless_null (data_of patch.now) (merged (get_member name.now target) (data_of patch.now))) target) }
{
    if is_null(patch) {
        let removed = target.with(name, None)?;
        return Ok(removed);
    }
    let old = copied(target.get(name))?;
    let new = merged(alloc, old, patch)?;
    let changed = target.with(name, Some(new))?;
    Ok(changed)
}

fn is_null(value: &Tree) -> bool
    ensures { result ≡ is_null (data_of value.now) }
{
    matches!(value, Tree::Null)
}

fn copied(found: Option<&Tree>) -> Result<Option<Tree>, AllocError>
    ensures { IfOk result (λ copy. option_map data_of copy ≡ option_map (λ t. data_of t.now) found.entry) }
{
    match found {
        Some(value) => Ok(Some(value.clone()?)),
        None => Ok(None),
    }
}

/// The members of a map; none of another value, or of a missing one.
fn members_in(alloc: Global, found: &Option<Tree>) -> Result<Members, AllocError>
    ensures { IfOk result (λ ms. ms ≡ members_in (option_map data_of found.now)) }
{
    match found {
        Some(value) => {
            let members = members_or_none(alloc, value)?;
            Ok(members)
        }
        None => Members::none(alloc),
    }
}

/// The same of a value.
pub(crate) fn members_or_none(alloc: Global, value: &Tree) -> Result<Members, AllocError>
    ensures { IfOk result (λ ms. ms ≡ unwrap_or (as_object (data_of value.now)) no_members) }
{
    match value.as_map() {
        Some(members) => members.clone(),
        None => Members::none(alloc),
    }
}
