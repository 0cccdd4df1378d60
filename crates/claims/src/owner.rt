// The owner that a claim is to have, by the set's retention policy.
ghost use Rattle.std.specs.Prelude.{◌≡◌, IfOk};
ghost use Rattle.set_views.specs.Set.{set_parts};
ghost use Rattle.claims.specs.Owners.{known_uid, owner_in_range, owner_of_condemned};

use objects::{Memory, Text, uid_text};
use set_views::{Retention, Set};
use std::alloc::Global;

/// What a claim is deleted with.
#[derive(Drop)]
pub(crate) enum Owner {
    /// With the set.
    Set,
    /// With the pod of this UID, an empty text if none was read.
    Pod(Text),
}

/// The owner of the claims of a pod in range, by `whenDeleted`.
pub(crate) fn owner_in_range(set: &Set) -> Option<Owner>
    ensures { result ≡ owner_in_range (set_parts set.now) }
{
    match set.when_deleted {
        Retention::Retain => None,
        Retention::Delete => Some(Owner::Set),
    }
}

/// The text of a UID's number. A number that no UID has counts as none.
fn known_uid(alloc: Global, uid: u64) -> Result<Text, Memory>
    ensures { IfOk result (λ text. text ≡ known_uid uid) }
{
    // 0 is the number of no UID.
    let known = if uid < 1 << 48 { uid } else { 0 };
    Ok(Text::from(uid_text(alloc, known)?))
}

/// The owner of the claims of a condemned pod with that UID, by `whenScaled`.
pub(crate) fn owner_of_condemned(
    alloc: Global,
    set: &Set,
    uid: u64,
) -> Result<Option<Owner>, Memory>
    ensures { IfOk result (λ owner. owner ≡ owner_of_condemned (set_parts set.now) uid) }
{
    match set.when_scaled {
        Retention::Retain => Ok(owner_in_range(set)),
        Retention::Delete => Ok(Some(Owner::Pod(known_uid(alloc, uid)?))),
    }
}
