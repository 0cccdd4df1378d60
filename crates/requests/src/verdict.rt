use crate::change::Change;
use crate::change_kind::ChangeKind;
use crate::reply::Reason;
use objects::Object;

/// What a write request does, given the object that now has its key.
#[derive(Drop)]
pub enum Verdict {
    Refuse(Reason),
    /// The request would change nothing: this is the object as it is.
    Same(Object),
    Write(Change),
}

/// A verdict for which nothing is copied yet, over objects that are kept as a `T`. A write has the kind, and the object
/// that it leaves or removes: as it is before it is given its number, or as that number leaves it.
#[derive(Drop)]
pub enum Judgment<T> {
    Refuse(Reason),
    /// The request would change nothing: this is the object as it is.
    Same(T),
    Write(ChangeKind, T),
}
