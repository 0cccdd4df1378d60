// Claims that are deleted with these owners.
ghost use Rattle.std.specs.Prelude.{◌≡◌};
ghost use Rattle.objects.specs.Metadata.{owners_of};
ghost use Rattle.objects.specs.Tree.{data_of, items_of};
ghost use Rattle.collector.specs.Collectable.{has_items};
ghost use Rattle.reasons.specs.Gone.{all_gone_with, any_among, deletes, is_deleted_with, is_among, is_deleted, is_gone, is_gone_with};

use collector::owner_number;
use objects::{Object, Tree};
use sets::Action;

/// Owners that are assumed to be gone.
#[derive(Clone, Copy)]
pub(crate) enum Gone<'a> {
    /// The object whose UID has this number.
    Owner(u64),
    /// The pods that these actions delete.
    DeletedBy(&'a [Action]),
}

/// Whether the action deletes the pod with that UID.
fn deletes(action: &Action, uid: u64) -> bool
    ensures { result ≡ deletes uid action.now }
{
    match action {
        Action::DeletePod { uid: deleted, .. } => *deleted == uid,
        _ => false,
    }
}

fn is_deleted(actions: &[Action], uid: u64) -> bool
    ensures { result ≡ is_deleted actions.now uid }
{
    actions.iter().any(|action| deletes(action, uid))
}

fn is_gone(gone: Gone<'_>, uid: u64) -> bool
    ensures { result ≡ is_gone gone.entry uid }
{
    match gone {
        Gone::Owner(number) => uid == number,
        Gone::DeletedBy(actions) => is_deleted(actions, uid),
    }
}

fn is_among(gone: Gone<'_>, owner: &Tree) -> bool
    ensures { result ≡ is_among (is_gone gone.entry) (data_of owner.now) }
{
    match owner_number(owner) {
        Some(uid) => is_gone(gone, uid),
        None => false,
    }
}

fn is_gone_with(gone: Gone<'_>, owner: &Tree) -> bool
    ensures { result ≡ is_gone_with (is_gone gone.entry) (data_of owner.now) }
{
    match owner_number(owner) {
        Some(uid) => is_gone(gone, uid),
        // No store gives such a UID.
        None => true,
    }
}

fn any_among(gone: Gone<'_>, owners: &[Tree]) -> bool
    ensures { result ≡ any_among (is_gone gone.entry) (items_of owners.now) }
{
    for owner in owners {
        if is_among(gone, owner) {
            return true;
        }
    }
    false
}

fn all_gone_with(gone: Gone<'_>, owners: &[Tree]) -> bool
    ensures { result ≡ all_gone_with (is_gone gone.entry) (items_of owners.now) }
{
    for owner in owners {
        if !is_gone_with(gone, owner) {
            return false;
        }
    }
    true
}

pub(crate) fn has_owners(claim: &Object) -> bool
    ensures { result ≡ has_items (owners_of claim.now.body) }
{
    let owners = claim.owners();
    !owners.is_empty()
}

/// Whether one of these owners owns the claim, and nobody else does.
pub(crate) fn is_deleted_with(gone: Gone<'_>, claim: &Object) -> bool
    ensures { result ≡ is_deleted_with (is_gone gone.entry) claim.now }
{
    let owners = claim.owners();
    any_among(gone, owners) && all_gone_with(gone, owners)
}
