ghost use Rattle.std.specs.Prelude.{◌≡◌, IfOk, false, true};
ghost use Rattle.objects.specs.MetadataShape.{metadata_fits};
ghost use Rattle.objects.specs.New.{new_object};
ghost use Rattle.objects.specs.Object.{has_held};

use crate::key::Key;
use crate::meta::Meta;
use std::alloc::{AllocError, Global};
use std::marker::Model;
use trees::{Members, Text, Tree};

/// An object. The body holds all members as they were read, `kind` among them, except the six of `metadata` that the
/// key and the meta hold: `name`, `namespace`, `uid`, `resourceVersion`, `generation` and `deletionTimestamp`. In
/// `metadata`, `labels` is a map of texts and `ownerReferences` is a list of maps that each have a text `uid`; either
/// may be missing or `null`. The body's kind is the key's, and if it has an API version, that is the kind's.
#[derive(Drop)]
pub struct Object {
    pub key: Key,
    pub meta: Meta,
    pub body: Tree,
}

impl Model for Object {
    ghost use Rattle.trees.specs.Tree.{data_of};
    ghost use Rattle.objects.specs.Object.{ObjectParts, object_coded, IsBody};

    ghost Value = { ObjectParts };

    ghost coded = { object_coded };

    ghost view = { λ o. record { key = o.key; meta = o.meta; body = data_of o.body } };

    ghost invariant = { λ o. IsBody o.key.kind (data_of o.body) };
}

impl Object {
    /// An object that is to be made: the store knows nothing of it yet. `metadata` has what the key does not say, and
    /// `members` are the object's other members, as `spec`; its kind and API version are those of the key.
    pub fn of(
        alloc: Global,
        key: Key,
        metadata: Members,
        members: Members,
    ) -> Result<Object, AllocError>
        requires unheld { has_held metadata ≡ false }
        requires fits { metadata_fits metadata ≡ true }
        ensures { IfOk result (λ object. object ≡ new_object key metadata members) }
    {
        let versioned = members.with_text(alloc, "apiVersion", key.kind.api_version())?;
        let named = versioned.with_text(alloc, "kind", key.kind.name())?;
        let whole = named.with("metadata", Some(Tree::Map(metadata)))?;
        Ok(Object {
            key,
            meta: Meta {
                uid: 0,
                revision: 0,
                generation: 0,
                deletion: None,
            },
            body: Tree::Map(whole),
        })
    }
}

impl Clone for Object {
    ghost is_clone = { λ old new. new ≡ old };

    fn clone(&self) -> Result<Object, AllocError> {
        Ok(Object {
            key: self.key.clone()?,
            meta: self.meta.clone()?,
            body: self.body.clone()?,
        })
    }
}

/// An object as it was read, with the texts of its UID and its resource version unchanged. An empty text is none.
#[derive(Drop)]
pub struct Draft {
    pub object: Object,
    pub uid: Option<Text>,
    pub version: Option<Text>,
}

impl Clone for Draft {
    ghost is_clone = { λ old new. new ≡ old };

    fn clone(&self) -> Result<Draft, AllocError> {
        let uid = self.uid.clone()?;
        let version = self.version.clone()?;
        Ok(Draft {
            object: self.object.clone()?,
            uid,
            version,
        })
    }
}
