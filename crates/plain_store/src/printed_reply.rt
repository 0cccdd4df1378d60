ghost use Rattle.std.specs.Prelude.{◌≡◌, Some, IfSome};
ghost use Rattle.std.specs.Option.{option_copied};
ghost use Rattle.plain_store.specs.PrintedReplies.{reply_object, reply_printed};
ghost use Rattle.requests.specs.Change.{accepted};
ghost use Rattle.requests.specs.ChangeKinds.{change_by};

use objects::{Object, Printed};
use requests::{ChangeKind, Reason, Reply};

/// The reply to a write, with the text of the object that it is about.
#[derive(Drop)]
pub enum PrintedReply {
    Created(Printed),
    Updated(Printed),
    /// The request would change nothing: this is the object as it is.
    Unchanged(Printed),
    Marked(Printed),
    /// The object as it was, at the resource version of its removal.
    Removed(Printed),
    Refused(Reason),
}

impl PrintedReply {
    /// The reply to a change of that kind that left the object.
    pub(crate) fn accepted(kind: ChangeKind, text: Printed) -> PrintedReply
        ensures { reply_printed result ≡ accepted (change_by kind text) text }
    {
        match kind {
            ChangeKind::Creation => PrintedReply::Created(text),
            ChangeKind::Update => PrintedReply::Updated(text),
            ChangeKind::Mark => PrintedReply::Marked(text),
            ChangeKind::Removal => PrintedReply::Removed(text),
        }
    }

    /// The text of the object, if the reply has one.
    pub fn text(&self) -> Option<&Printed>
        ensures { option_copied result ≡ reply_object (reply_printed self.now) }
    {
        match self {
            PrintedReply::Created(text)
            | PrintedReply::Updated(text)
            | PrintedReply::Unchanged(text)
            | PrintedReply::Marked(text)
            | PrintedReply::Removed(text) => Some(text),
            PrintedReply::Refused(_) => None,
        }
    }

    /// The reply with that object instead of its text.
    pub(crate) fn with_object(self, object: Option<Object>) -> Reply
        requires { IfSome (reply_object (reply_printed self)) (λ o. object ≡ Some o) }
        ensures { result ≡ reply_printed self }
    {
        match object {
            Some(object) => self.with_some(object),
            None => match self {
                PrintedReply::Refused(reason) => Reply::Refused(reason),
                _ => unreachable!(),
            },
        }
    }

    fn with_some(self, object: Object) -> Reply
        requires { IfSome (reply_object (reply_printed self)) (λ o. object ≡ o) }
        ensures { result ≡ reply_printed self }
    {
        match self {
            PrintedReply::Created(_) => Reply::Created(object),
            PrintedReply::Updated(_) => Reply::Updated(object),
            PrintedReply::Unchanged(_) => Reply::Unchanged(object),
            PrintedReply::Marked(_) => Reply::Marked(object),
            PrintedReply::Removed(_) => Reply::Removed(object),
            PrintedReply::Refused(reason) => {
                drop(object);
                Reply::Refused(reason)
            }
        }
    }
}
