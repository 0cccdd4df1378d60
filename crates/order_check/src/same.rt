// Whether a reply is the one that a store gives. Objects are compared by their trees, which copies nothing.
ghost use Rattle.std.specs.Prelude.{◌≡◌, ◌↔◌, true, false, IfOk, IsTrue, length, map};
ghost use Rattle.std.specs.Option.{option_copied};
ghost use Rattle.plain_store.specs.Store.{found};
ghost use Rattle.requests.specs.declared.reply.Reply.TheVariants.{Compacted as CompactedReply, Listed, Refused as RefusedReply};
ghost use Rattle.requests.specs.Same.{same_meta, same_object, same_time};
ghost use Rattle.order_check.specs.Recorded.{Fits, is_to_read};

use objects::{Memory, Meta, Object, Printed, Printer, Text};
use requests::{Reason, Reply};

/// Whether the reply to a write or a compaction is the recorded one, if there is one.
pub(crate) fn is_change(
    printer: &mut Printer,
    recorded: Option<&Reply>,
    given: &Reply,
) -> Result<bool, Memory>
    requires { is_to_read given.now ≡ false }
    ensures { IfOk result (λ yes. IsTrue yes ↔ Fits (option_copied recorded.entry) given.now) }
{
    match recorded {
        Some(recorded) => is_reply(printer, recorded, given),
        None => Ok(true),
    }
}

fn is_reply(printer: &mut Printer, recorded: &Reply, given: &Reply) -> Result<bool, Memory>
    requires { is_to_read given.now ≡ false }
    ensures { IfOk result (λ yes. IsTrue yes ↔ (recorded.now ≡ given.now)) }
{
    match given {
        Reply::Created(stored) => match recorded {
            Reply::Created(object) => is_object(printer, object, stored),
            _ => Ok(false),
        },
        Reply::Updated(stored) => match recorded {
            Reply::Updated(object) => is_object(printer, object, stored),
            _ => Ok(false),
        },
        Reply::Unchanged(stored) => match recorded {
            Reply::Unchanged(object) => is_object(printer, object, stored),
            _ => Ok(false),
        },
        Reply::Marked(stored) => match recorded {
            Reply::Marked(object) => is_object(printer, object, stored),
            _ => Ok(false),
        },
        Reply::Removed(stored) => match recorded {
            Reply::Removed(object) => is_object(printer, object, stored),
            _ => Ok(false),
        },
        Reply::Compacted { revision } => Ok(is_compacted(recorded, *revision)),
        Reply::Refused(reason) => Ok(is_refused(recorded, *reason)),
        Reply::Found(_)
        | Reply::Listed {
            objects: _,
            revision: _,
        } => unreachable!(),
    }
}

/// Whether the reply says that the store was compacted to that number.
fn is_compacted(recorded: &Reply, to: u64) -> bool
    ensures { IsTrue result ↔ (recorded.now ≡ CompactedReply to) }
{
    matches!(recorded, Reply::Compacted { revision } if *revision == to)
}

/// Whether the reply is a refusal for that reason.
pub(crate) fn is_refused(recorded: &Reply, reason: Reason) -> bool
    ensures { IsTrue result ↔ (recorded.now ≡ RefusedReply reason) }
{
    matches!(recorded, Reply::Refused(other) if *other == reason)
}

/// Whether the reply is that of a get that finds this object, or none.
pub(crate) fn is_found(
    printer: &mut Printer,
    recorded: &Reply,
    stored: Option<&Object>,
) -> Result<bool, Memory>
    ensures { IfOk result (λ yes. IsTrue yes ↔ (recorded.now ≡ found (option_copied stored.entry))) }
{
    match stored {
        Some(stored) => match recorded {
            Reply::Found(object) => is_object(printer, object, stored),
            _ => Ok(false),
        },
        None => Ok(is_refused(recorded, Reason::NotFound)),
    }
}

/// Whether the reply is a list of those objects at that revision.
pub(crate) fn is_listed(
    printer: &mut Printer,
    recorded: &Reply,
    stored: &[&Object],
    revision: u64,
) -> Result<bool, Memory>
    ensures { IfOk result (λ yes. IsTrue yes ↔ (recorded.now ≡ Listed (map (λ o. o.now) stored.now) revision)) }
{
    match recorded {
        Reply::Listed {
            objects,
            revision: read_at,
        } => is_list(printer, objects.as_slice(), *read_at, stored, revision),
        _ => Ok(false),
    }
}

fn is_list(
    printer: &mut Printer,
    recorded: &[Object],
    read_at: u64,
    stored: &[&Object],
    revision: u64,
) -> Result<bool, Memory>
    ensures { IfOk result (λ yes. IsTrue yes ↔ ((read_at ≡ revision) × (recorded.now ≡ map (λ o. o.now) stored.now))) }
{
    if read_at != revision || recorded.len() != stored.len() {
        return Ok(false);
    }
    are_objects(printer, recorded, stored)
}

fn are_objects(
    printer: &mut Printer,
    recorded: &[Object],
    stored: &[&Object],
) -> Result<bool, Memory>
    requires { length recorded.now ≡ length stored.now }
    ensures { IfOk result (λ yes. IsTrue yes ↔ (recorded.now ≡ map (λ o. o.now) stored.now)) }
{
    for i in 0..recorded.len() {
        if !is_object(printer, &recorded[i], stored[i])? {
            return Ok(false);
        }
    }
    Ok(true)
}

/// Whether two objects are equal, found by their trees. If those differ, the texts decide: nothing promises that two
/// objects of one text always have trees that are found the same.
fn is_object(printer: &mut Printer, recorded: &Object, stored: &Object) -> Result<bool, Memory>
    ensures { IfOk result (λ yes. IsTrue yes ↔ (recorded.now ≡ stored.now)) }
{
    if are_same(recorded, stored) {
        return Ok(true);
    }
    let recorded = printer.print(recorded)?;
    let stored = printer.print(stored)?;
    Ok(are_same_texts(&recorded, &stored))
}

/// Whether two objects are equal, which they are if their texts are.
fn are_same_texts(left: &Printed, right: &Printed) -> bool
    ensures { IsTrue result ↔ (left.now ≡ right.now) }
{
    let (left_text, _) = left.parts();
    let (right_text, _) = right.parts();
    left_text == right_text
}

/// Whether two objects have the same content. If so, they are equal.
#[tactic(auto, using(crate::proofs::SameObjects::objects_equal))]
fn are_same(left: &Object, right: &Object) -> bool
    ensures { IsTrue result → left.now ≡ right.now }
{
    same_object(left, right)
}

fn same_object(left: &Object, right: &Object) -> bool
    ensures { result ≡ same_object left.now right.now }
{
    left.key == right.key && same_meta(&left.meta, &right.meta) && left.body.is_same(&right.body)
}

fn same_meta(left: &Meta, right: &Meta) -> bool
    ensures { result ≡ same_meta left.now right.now }
{
    left.uid == right.uid
        && left.revision == right.revision
        && left.generation == right.generation
        && same_time(left.deletion.as_ref(), right.deletion.as_ref())
}

fn same_time(left: Option<&Text>, right: Option<&Text>) -> bool
    ensures { result ≡ same_time (option_copied left.entry) (option_copied right.entry) }
{
    match left {
        Some(left) => match right {
            Some(right) => left.as_str() == right.as_str(),
            None => false,
        },
        None => right.is_none(),
    }
}
