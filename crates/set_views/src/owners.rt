// The controller of an object.
ghost use Rattle.std.specs.Prelude.{◌≡◌, ◌<◌, ◌^◌};
ghost use Rattle.objects.specs.Tree.{data_of, items_of};
ghost use Rattle.set_views.specs.Owners.{is_controller, is_controlled};

use crate::values::{inside, text_in};
use objects::{Tree, is_uid_text};

/// Whether the owner reference has that UID, and its `controller` is true.
fn is_controller(owner: &Tree, uid: u64) -> bool
    requires { uid < 2 ^ 48 }
    ensures { result ≡ is_controller uid (data_of owner.now) }
{
    let Some(Tree::Truth(true)) = inside(Some(owner), "controller") else {
        return false;
    };
    match text_in(inside(Some(owner), "uid")) {
        Some(text) => is_uid_text(text, uid),
        None => false,
    }
}

/// Whether one of these owner references is that of the controller with that UID.
pub(crate) fn is_controlled(owners: &[Tree], uid: u64) -> bool
    requires { uid < 2 ^ 48 }
    ensures { result ≡ is_controlled uid (items_of owners.now) }
{
    for owner in owners {
        if is_controller(owner, uid) {
            return true;
        }
    }
    false
}
