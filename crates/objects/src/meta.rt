ghost use Rattle.std.specs.Prelude.{◌≡◌};

use std::alloc::AllocError;
use std::marker::Model;
use trees::Text;

/// What the store knows of an object (Kubernetes `ObjectMeta`). 0 stands for none. The UID is below 2^48, the revision
/// below 2^64, the generation below 2^63.
#[derive(Drop)]
pub struct Meta {
    /// The number of `uid`, below 2^48: the revision that created the object.
    pub uid: u64,
    /// The number of `resourceVersion`: the revision that wrote the object last.
    pub revision: u64,
    /// `generation`, below 2^63: it rises as `spec` changes.
    pub generation: u64,
    /// `deletionTimestamp`: the text that a graceful deletion passed.
    pub deletion: Option<Text>,
}

impl Model for Meta {
    ghost use Rattle.objects.specs.Meta.{MetaParts, meta_coded, IsMeta};

    ghost Value = { MetaParts };

    ghost coded = { meta_coded };

    ghost view = { λ m. record { uid = m.uid; revision = m.revision; generation = m.generation; deletion = m.deletion } };

    ghost invariant = { λ m. IsMeta (record { uid = m.uid; revision = m.revision; generation = m.generation; deletion = m.deletion }) };
}

impl Clone for Meta {
    ghost is_clone = { λ old new. new ≡ old };

    fn clone(&self) -> Result<Meta, AllocError> {
        Ok(Meta {
            uid: self.uid,
            revision: self.revision,
            generation: self.generation,
            deletion: self.deletion.clone()?,
        })
    }
}
