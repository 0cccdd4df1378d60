// The status request of an object as it is written.
ghost use Rattle.std.specs.Prelude.{◌≡◌, None, Option, Some, option_map, IfOk, IfSome};
ghost use Rattle.serde_json.specs.Data.{Data};
ghost use Rattle.serde_json.specs.Written.{compact_text};
ghost use Rattle.objects.specs.Seams.{status_text};
ghost use Rattle.objects.specs.declared.object.Draft.{Draft};
ghost use Rattle.compact_objects.specs.Drafts.{lent};
ghost use Rattle.std.specs.Option.{option_copied};
ghost use Rattle.requests.specs.Judgments.{judged_at};
ghost use Rattle.requests.specs.Verdict.{status_unless_same, verdict};
ghost use Rattle.requests.specs.declared.request.Request.TheVariants.{UpdateStatus};
ghost use Rattle.compact_objects.specs.ReadFrom.{IsReadFrom};

use crate::draft::CompactDraft;
use objects::{Memory, Printed, Printer, ends_so, spliced};
use requests::{ChangeKind, Judgment, Reason, found, has_status};
use std::alloc::{AllocError, Global};

/// What the status request with the draft's object does to the current one, and what it leaves at that number. None
/// says nothing of it: the current text has no seams.
pub fn judge_status(
    alloc: Global,
    printer: &mut Printer,
    current: Option<&Printed>,
    draft: &CompactDraft<'_>,
    number: u64,
) -> Result<Option<Judgment<Printed>>, Memory>
    requires { (d : Draft) × IsReadFrom draft.now d }
    ensures { (d : Draft) → IsReadFrom draft.now d
        → IfOk result (λ found. IfSome found (λ judged. judged ≡ judged_at number (verdict (UpdateStatus d) (option_copied current.entry)))) }
{
    if !has_status(draft.key.kind) {
        return Ok(Some(Judgment::Refuse(Reason::Invalid)));
    }
    match found(current, draft.version, draft.uid) {
        Ok(current) => status_unless_same(alloc, printer, current, draft, number),
        Err(reason) => Ok(Some(Judgment::Refuse(reason))),
    }
}

/// What a status request with the draft's object makes of the current one at that number.
fn status_unless_same(
    alloc: Global,
    printer: &mut Printer,
    current: &Printed,
    draft: &CompactDraft<'_>,
    number: u64,
) -> Result<Option<Judgment<Printed>>, Memory>
    requires { (d : Draft) × IsReadFrom draft.now d }
    ensures { (d : Draft) → IsReadFrom draft.now d
        → IfOk result (λ found. IfSome found (λ judged. judged ≡ judged_at number (status_unless_same current.now d))) }
{
    let old = current.indexed();
    let end = end_with(alloc, draft.status)?;
    match ends_so(old, &end) {
        None => Ok(None),
        Some(true) => Ok(Some(Judgment::Same(current.clone()?))),
        Some(false) => match spliced(old, printer, &end, number)? {
            Some(new) => Ok(Some(Judgment::Write(
                ChangeKind::Update,
                Printed::of_indexed(alloc, new)?,
            ))),
            None => Ok(None),
        },
    }
}

/// The end of a text, from its status on, with that status, given as it is written, or with none.
fn end_with(alloc: Global, status: Option<&[u8]>) -> Result<Vec<u8>, AllocError>
    ensures { (value : Option Data) → lent status.entry ≡ option_map compact_text value → IfOk result (λ end. end.items ≡ status_text value) }
{
    match status {
        Some(status) => end_with_status(alloc, status),
        None => end_with_none(alloc),
    }
}

fn end_with_status(alloc: Global, status: &[u8]) -> Result<Vec<u8>, AllocError>
    ensures { (value : Data) → status.now ≡ compact_text value → IfOk result (λ end. end.items ≡ status_text (Some value)) }
{
    let name = b",\"status\":";
    let mut end = Vec::with_capacity(alloc, status.len().saturating_add(name.len() + 1))?;
    end.extend_from_slice(name)?;
    end.extend_from_slice(status)?;
    end.push(b'}')?;
    Ok(end)
}

fn end_with_none(alloc: Global) -> Result<Vec<u8>, AllocError>
    ensures { IfOk result (λ end. end.items ≡ status_text None) }
{
    let mut end = Vec::new(alloc);
    end.push(b'}')?;
    Ok(end)
}
