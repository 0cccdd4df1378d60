// An object as the JSON value that is printed of it.
ghost use Rattle.std.specs.Prelude.{◌≡◌, ◌<◌, ◌^◌, codes, decimal, option_map, unwrap_or, IfOk, Ok, Option};
ghost use Rattle.serde_json.specs.Data.{string, no_members, number as number_data, unsigned};
ghost use Rattle.trees.specs.Building.{put_some};
ghost use Rattle.trees.specs.Tree.{data_of};
ghost use Rattle.trees.specs.declared.tree.Tree.{Tree as SpecTree};
ghost use Rattle.objects.specs.Object.{object_at};
ghost use Rattle.objects.specs.Text.{full_metadata, printed, unless_zero};
ghost use Rattle.objects.specs.Uid.{uid_text};

use crate::merging::members_or_none;
use objects::{Integer, Members, Memory, Object, Text, Tree, uid_text};
use std::alloc::Global;

/// The object as a JSON value.
pub(crate) fn printed(alloc: Global, object: &Object) -> Result<Tree, Memory>
    ensures { IfOk result (λ t. data_of t ≡ printed object.now) }
{
    let members = members_or_none(alloc, &object.body)?;
    let metadata = metadata_in(alloc, &members)?;
    let full = full_metadata(alloc, object, metadata)?;
    let whole = members.with("metadata", Some(Tree::Map(full)))?;
    Ok(Tree::Map(whole))
}

/// The members of the metadata; none if there is no map of them.
fn metadata_in(alloc: Global, members: &Members) -> Result<Members, Memory>
    ensures { IfOk result (λ ms. ms ≡ unwrap_or (object_at (codes "metadata") members.now) no_members) }
{
    match members.get("metadata") {
        Some(value) => {
            let metadata = members_or_none(alloc, value)?;
            Ok(metadata)
        }
        None => Ok(Members::none(alloc)?),
    }
}

/// The metadata with the members that the key and the meta hold.
fn full_metadata(alloc: Global, object: &Object, metadata: Members) -> Result<Members, Memory>
    ensures { IfOk result (λ ms. ms ≡ full_metadata object.now metadata) }
{
    let key = &object.key;
    let meta = &object.meta;
    let with_uid = with_read(metadata, "uid", uid_of(alloc, meta.uid))?;
    let version = version_of(alloc, meta.revision);
    let with_version = with_read(with_uid, "resourceVersion", version)?;
    let with_namespace = with_version.with_text(alloc, "namespace", key.namespace.as_str())?;
    let with_name = with_namespace.with_text(alloc, "name", key.name.as_str())?;
    let with_generation = with_name.with_some("generation", generation_of(meta.generation))?;
    with_read(with_generation, "deletionTimestamp", copied(&meta.deletion))
}

/// The members with that value at the key, unless there is none.
fn with_read(
    members: Members,
    key: &str,
    value: Result<Option<Tree>, Memory>,
) -> Result<Members, Memory>
    ensures { IfOk result (λ ms. (v : Option SpecTree) × (value ≡ Ok v) × (ms ≡ put_some key.now (option_map data_of v) members)) }
{
    match value {
        Ok(value) => Ok(members.with_some(key, value)?),
        Err(error) => {
            drop(members);
            Err(error)
        }
    }
}

fn uid_of(alloc: Global, number: u64) -> Result<Option<Tree>, Memory>
    requires { number < 2 ^ 48 }
    ensures { IfOk result (λ t. option_map data_of t ≡ unless_zero number (string (uid_text number))) }
{
    if number == 0 {
        return Ok(None);
    }
    Ok(Some(Tree::Text(Text::from(uid_text(alloc, number)?))))
}

fn version_of(alloc: Global, number: u64) -> Result<Option<Tree>, Memory>
    ensures { IfOk result (λ t. option_map data_of t ≡ unless_zero number (string (decimal number))) }
{
    if number == 0 {
        return Ok(None);
    }
    Ok(Some(Tree::Text(Text::from(format!(in alloc; "{number}")?))))
}

fn generation_of(number: u64) -> Option<Tree>
    ensures { option_map data_of result ≡ unless_zero number (number_data (unsigned number)) }
{
    if number == 0 {
        None
    } else {
        Some(Tree::Integer(Integer::from(number)))
    }
}

fn copied(text: &Option<Text>) -> Result<Option<Tree>, Memory>
    ensures { IfOk result (λ t. option_map data_of t ≡ option_map string text.now) }
{
    match text {
        Some(text) => Ok(Some(Tree::Text(text.clone()?))),
        None => Ok(None),
    }
}
