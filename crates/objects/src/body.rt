// The body of an object: its members, those of `metadata` without the ones that the key and the meta hold.
ghost use Rattle.std.specs.Prelude.{◌≡◌, codes, Ok, Some, IfOk};
ghost use Rattle.serde_json.specs.Data.{Members as DataMembers, object, put};
ghost use Rattle.serde_json.specs.Find.{get_member};
ghost use Rattle.trees.specs.Tree.{data_of, members_of};
ghost use Rattle.objects.specs.Steps.{Gives};
ghost use Rattle.objects.specs.Object.{is_held, without_held};

use crate::fault::ReadError;
use std::alloc::{AllocError, Global};
use trees::{Members, Text, Tree, position_of};

fn is_held(name: &str) -> bool
    ensures { result ≡ is_held name.now }
{
    name == "deletionTimestamp"
        || name == "generation"
        || name == "name"
        || name == "namespace"
        || name == "resourceVersion"
        || name == "uid"
}

/// Takes out the members of `metadata` that the key and the meta hold.
fn drop_held(entries: &mut Vec<(Text, Tree)>)
    ensures { members_of entries.new.items ≡ without_held (members_of entries.old.items) }
{
    entries.retain(|(name, _)| !is_held(name.as_str()));
}

// A map without its held members.
fn stripped(alloc: Global, value: Tree) -> Result<Tree, AllocError>
    ensures { (metadata : DataMembers) → data_of value ≡ object metadata
        → IfOk result (λ t. data_of t ≡ object (without_held metadata)) }
{
    match value {
        Tree::Map(metadata) => {
            let mut entries = metadata.into_entries()?;
            drop_held(&mut entries);
            Ok(Tree::Map(Members::of(alloc, entries)?))
        }
        other => Ok(other),
    }
}

/// The members without the held ones of their metadata.
pub(crate) fn body_of(alloc: Global, members: Members) -> Result<Tree, ReadError>
    ensures { (metadata : DataMembers) → get_member (codes "metadata") members ≡ Some (object metadata)
        → Gives data_of result (Ok (object (put (codes "metadata") (object (without_held metadata)) members))) }
{
    let mut entries = members.into_entries()?;
    let Ok(at) = position_of(&entries, "metadata") else {
        return Err(ReadError::BadName);
    };
    let (name, value) = entries.remove(at);
    let metadata = stripped(alloc, value)?;
    entries.insert(at, (name, metadata))?;
    Ok(Tree::Map(Members::of(alloc, entries)?))
}
