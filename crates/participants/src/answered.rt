// What a caller has been told.
ghost use Rattle.std.specs.Prelude.{◌≡◌, Some, None, option_and_then, option_map};
ghost use Rattle.participants.specs.Callers.{latest, object_told, word_of};
ghost use Rattle.participants.specs.Stands.{reply_by, stand_in, told_by};

use crate::stand::{Mark, Stand, reply_at};
use objects::Object;
use requests::Reply;

/// The last reply.
pub(crate) fn last_reply<'a>(table: &'a [Reply], stand: &Stand) -> Option<&'a Reply>
    ensures { option_map (λ r. r.now) result ≡ latest Some None (stand_in table.now stand.now).heard }
{
    let mut found = None;
    for mark in &stand.heard {
        found = reply_at(table, *mark).or(found);
    }
    found
}

/// The object in the last reply that has one.
pub(crate) fn last_object<'a>(table: &'a [Reply], stand: &Stand) -> Option<&'a Object>
    ensures { option_map (λ o. o.now) result ≡ latest object_told None (stand_in table.now stand.now).heard }
{
    let mut found = None;
    for mark in &stand.heard {
        found = object_at(table, *mark).or(found);
    }
    found
}

fn object_at(table: &[Reply], mark: Mark) -> Option<&Object>
    ensures { option_map (λ o. o.now) result ≡ option_and_then object_told (reply_by (told_by table.now mark)) }
{
    object_told(reply_at(table, mark)?)
}

/// The object that a reply tells, as it is.
fn object_told(reply: &Reply) -> Option<&Object>
    ensures { option_map (λ o. o.now) result ≡ object_told reply.now }
{
    match reply {
        Reply::Created(object)
        | Reply::Found(object)
        | Reply::Updated(object)
        | Reply::Unchanged(object)
        | Reply::Marked(object) => Some(object),
        Reply::Listed {
            objects: _,
            revision: _,
        }
        | Reply::Removed(_)
        | Reply::Compacted { revision: _ }
        | Reply::Refused(_) => None,
    }
}

/// The result of a reply, or the reason of a refusal.
pub(crate) fn word_of(reply: &Reply) -> &'static str
    ensures { result.now ≡ word_of reply.now }
{
    match reply {
        Reply::Created(_) => "Created",
        Reply::Found(_) => "Found",
        Reply::Listed {
            objects: _,
            revision: _,
        } => "Listed",
        Reply::Updated(_) => "Updated",
        Reply::Unchanged(_) => "Unchanged",
        Reply::Marked(_) => "Marked",
        Reply::Removed(_) => "Removed",
        Reply::Compacted { revision: _ } => "Compacted",
        Reply::Refused(reason) => reason.name(),
    }
}
