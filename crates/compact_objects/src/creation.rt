// The create of an object as it is written.
ghost use Rattle.std.specs.Prelude.{◌≡◌, ◌<◌, ◌^◌, true, is_some, Option, IfOk, IfSome};
ghost use Rattle.objects.specs.declared.object.Draft.{Draft};
ghost use Rattle.objects.specs.declared.object.Object.{Object as SpecObject};
ghost use Rattle.requests.specs.Change.{creates, stamp};
ghost use Rattle.requests.specs.Judgments.{judged_at};
ghost use Rattle.requests.specs.Verdict.{born, has_status, verdict};
ghost use Rattle.requests.specs.declared.request.Request.TheVariants.{Create};
ghost use Rattle.compact_objects.specs.ReadFrom.{IsReadFrom};

use crate::draft::CompactDraft;
use crate::print::indexed;
use objects::{Memory, Meta, Printed};
use requests::{ChangeKind, Judgment, create_denied, has_status};
use std::alloc::Global;

/// What the create of the draft's object does, and what it leaves at that number, given whether an object has its key.
/// None says nothing of it: the object's kind has no status, or the line does not give the object's text.
pub fn judge_create(
    alloc: Global,
    is_there: bool,
    draft: &CompactDraft<'_>,
    number: u64,
) -> Result<Option<Judgment<Printed>>, Memory>
    requires told { (d : Draft) × IsReadFrom draft.now d }
    requires small { number < 2 ^ 48 }
    ensures { (d : Draft) (current : Option SpecObject) → IsReadFrom draft.now d → is_some current ≡ is_there
        → IfOk result (λ found. IfSome found (λ judged. judged ≡ judged_at number (verdict (Create d) current))) }
{
    if !has_status(draft.key.kind) {
        return Ok(None);
    }
    if let Some(reason) = create_denied(draft.version, is_there) {
        return Ok(Some(Judgment::Refuse(reason)));
    }
    match created(alloc, draft, number)? {
        Some(text) => Ok(Some(Judgment::Write(ChangeKind::Creation, text))),
        None => Ok(None),
    }
}

/// The text of the draft's object as it is made at that number.
fn created(alloc: Global, draft: &CompactDraft<'_>, number: u64) -> Result<Option<Printed>, Memory>
    requires told { (d : Draft) × IsReadFrom draft.now d }
    requires status { has_status draft.now.key.kind ≡ true }
    requires small { number < 2 ^ 48 }
    ensures { (d : Draft) → IsReadFrom draft.now d → IfOk result (λ found. IfSome found (λ text. text ≡ stamp (creates (born d.object)) number)) }
{
    let meta = first_meta(number);
    let text = indexed(alloc, draft, &meta, b"}");
    drop(meta);
    match text? {
        Some(text) => Ok(Some(Printed::of_indexed(alloc, text)?)),
        None => Ok(None),
    }
}

/// What the store knows of an object that is made at that number.
fn first_meta(number: u64) -> Meta
    requires { number < 2 ^ 48 }
    ensures { result ≡ record { uid = number; revision = number; generation = 1; deletion = None } }
{
    Meta {
        uid: number,
        revision: number,
        generation: 1,
        deletion: None,
    }
}
