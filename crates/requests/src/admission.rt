// Whether a write may be made over what now has its key, before any object is read.
ghost use Rattle.std.specs.Prelude.{◌≡◌, Some, false, MatchResult, option_map};
ghost use Rattle.std.specs.Option.{option_copied};
ghost use Rattle.objects.specs.declared.object.Object.{Object as SpecObject};
ghost use Rattle.requests.specs.Admission.{IsDenied, create_denied};
ghost use Rattle.requests.specs.Verdict.{conflicts, nonempty};

use crate::preconditions::{texts_conflict_with, unless_empty};
use crate::reply::Reason;
use objects::{Object, Printed};

/// An object as a store keeps it, whose numbers are known without reading it.
pub trait Kept {
    ghost object: { Self → SpecObject };

    /// The number of the object's `uid`.
    fn uid(&self) -> u64
        ensures { result ≡ (object self.now).meta.uid };

    /// The number of the object's `resourceVersion`.
    fn revision(&self) -> u64
        ensures { result ≡ (object self.now).meta.revision };
}

impl Kept for Object {
    ghost object = { λ o. o };

    fn uid(&self) -> u64 {
        self.meta.uid
    }

    fn revision(&self) -> u64 {
        self.meta.revision
    }
}

impl Kept for Printed {
    ghost object = { λ o. o };

    fn uid(&self) -> u64 {
        self.uid()
    }

    fn revision(&self) -> u64 {
        self.revision()
    }
}

/// Why a create is refused, if it is: it names a resource version, or there is an object of its name.
pub fn create_denied(version: Option<&str>, is_there: bool) -> Option<Reason>
    ensures { result ≡ create_denied (option_map (λ s. s.now) version.entry) is_there }
{
    if unless_empty(version).is_some() {
        Some(Reason::Invalid)
    } else if is_there {
        Some(Reason::AlreadyExists)
    } else {
        None
    }
}

/// The object that an update, a status request or a delete finds; or why it is refused: there is none, or the resource
/// version or the UID that it names is not the object's.
pub fn found<'a, K: Kept>(
    current: Option<&'a K>,
    version: Option<&str>,
    uid: Option<&str>,
) -> Result<&'a K, Reason>
    ensures { MatchResult result
        (λ o. (option_copied current.entry ≡ Some o.now) × (conflicts (option_map (λ s. s.now) version.entry) (option_map (λ s. s.now) uid.entry) (K.object o.now) ≡ false))
        (IsDenied (option_map (λ s. s.now) version.entry) (option_map (λ s. s.now) uid.entry) (option_map K.object (option_copied current.entry))) }
{
    let Some(current) = current else {
        return Err(Reason::NotFound);
    };
    if texts_conflict_with(version, uid, current.revision(), current.uid()) {
        return Err(Reason::Conflict);
    }
    Ok(current)
}
