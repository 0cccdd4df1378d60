// Objects, keys and collections, read from bytes and from values.
ghost use Rattle.objects.specs.Steps.{Gives};
ghost use Rattle.trees.specs.Tree.{data_of};
ghost use Rattle.objects.specs.Reading.{reading, draft_of, key_in, collection_in};

use crate::draft::{draft_in, key_of, kind_of, namespace_of};
use crate::fault::ReadError;
use crate::key::Key;
use crate::kind::Kind;
use crate::names::is_dns_label;
use crate::object::Draft;
use std::alloc::Global;
use trees::{Members, Text, Tree, read_tree};

/// The object that the bytes are.
///
/// # Errors
///
/// The first that applies: TooLong, NotJson, NotWhole, NoKind, UnknownKind, BadName, BadMeta.
#[tactic(auto, using(crate::proofs::Chains::fails_then), unfolding(crate::specs::Reading::reading))]
pub fn read_object(alloc: Global, bytes: &[u8]) -> Result<Draft, ReadError>
    ensures { Gives (λ draft. draft) result (reading bytes.now) }
{
    let tree = read_tree(alloc, bytes)?;
    read_draft(alloc, tree)
}

/// The object that a value is. The six members of `metadata` that the key and the meta hold leave the body; the texts
/// of `uid` and `resourceVersion` are kept as they are, an empty one as none.
///
/// # Errors
///
/// The first that applies: NoKind, UnknownKind, BadName, BadMeta.
#[tactic(auto, unfolding(crate::specs::Reading::draft_of))]
pub fn read_draft(alloc: Global, tree: Tree) -> Result<Draft, ReadError>
    ensures { Gives (λ draft. draft) result (draft_of (data_of tree)) }
{
    match tree {
        Tree::Map(members) => draft_in(alloc, members),
        _ => Err(ReadError::NoKind),
    }
}

/// The key that the members `kind`, `namespace` and `name` say.
///
/// # Errors
///
/// The first that applies: NoKind, UnknownKind, BadName.
#[tactic(auto, using(crate::proofs::Chains::fails_then), unfolding(crate::specs::Reading::key_in))]
pub fn read_key(alloc: Global, members: &Members) -> Result<Key, ReadError>
    ensures { Gives (λ key. key) result (key_in members.now) }
{
    let kind = kind_of(members)?;
    key_of(alloc, kind, members)
}

/// The kind and the namespace that the members `kind` and `namespace` say: those of the objects that a list requests
/// (Kubernetes API concepts, resource collections).
///
/// # Errors
///
/// The first that applies: NoKind, UnknownKind, BadName.
#[tactic(auto, using(crate::proofs::Chains::fails_then), unfolding(crate::specs::Reading::collection_in))]
pub fn read_collection(alloc: Global, members: &Members) -> Result<(Kind, Text), ReadError>
    ensures { Gives (λ collection. collection) result (collection_in members.now) }
{
    let kind = kind_of(members)?;
    let namespace = namespace_of(members)?;
    if !is_dns_label(namespace) {
        return Err(ReadError::BadName);
    }
    Ok((kind, Text::copy_of(alloc, namespace)?))
}
