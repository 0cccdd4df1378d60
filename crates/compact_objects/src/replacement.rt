// The update of an object as it is written.
ghost use Rattle.std.specs.Prelude.{◌≡◌, ◌≢◌, ◌++◌, ◌<◌, ◌^◌, ℕ, List, codes, false, true, Option, option_map, string_bytes, IfOk, IfSome, bytes_eq};
ghost use Rattle.serde_json.specs.Data.{Data};
ghost use Rattle.serde_json.specs.Written.{compact_text, has_float};
ghost use Rattle.objects.specs.Rewrites.{generation_after};
ghost use Rattle.objects.specs.Seams.{AreParts, IsCanonicalStatus, IsIndexedText, IsOpen, spec_text};
ghost use Rattle.objects.specs.Status.{member_of, same_found};
ghost use Rattle.objects.specs.declared.object.Draft.{Draft};
ghost use Rattle.objects.specs.declared.object.Object.{Object as SpecObject};
ghost use Rattle.compact_objects.specs.Drafts.{lent};
ghost use Rattle.std.specs.Option.{option_copied};
ghost use Rattle.requests.specs.Judgments.{judged_at};
ghost use Rattle.requests.specs.Verdict.{has_status, verdict};
ghost use Rattle.requests.specs.declared.request.Request.TheVariants.{Update};
ghost use Rattle.compact_objects.specs.ReadFrom.{IsReadFrom};
ghost use Rattle.compact_objects.specs.Writes.{IsUpdateOf};

use crate::draft::CompactDraft;
use crate::print::indexed;
use objects::{
    IndexedText, Memory, Meta, Printed, generation_after, may_be_same, spec_bytes, status_end,
};
use requests::{ChangeKind, Judgment, found, has_status};
use std::alloc::Global;

/// What the update with the draft's object does to the current one, and what it leaves at that number. None says
/// nothing of it: the object's kind has no status, the current text does not say enough, or the update may change
/// nothing.
pub fn judge_update(
    alloc: Global,
    current: Option<&Printed>,
    draft: &CompactDraft<'_>,
    number: u64,
) -> Result<Option<Judgment<Printed>>, Memory>
    requires told { (d : Draft) × IsReadFrom draft.now d }
    requires key { IfSome (option_copied current) (λ o. o.key ≡ draft.now.key) }
    requires number { number ≢ 0 }
    ensures { (d : Draft) → IsReadFrom draft.now d
        → IfOk result (λ found. IfSome found (λ judged. judged ≡ judged_at number (verdict (Update d) (option_copied current.entry)))) }
{
    if !has_status(draft.key.kind) {
        return Ok(None);
    }
    match found(current, draft.version, draft.uid) {
        Ok(current) => match updated(alloc, current, draft, number)? {
            Some(text) => Ok(Some(Judgment::Write(ChangeKind::Update, text))),
            None => Ok(None),
        },
        Err(reason) => Ok(Some(Judgment::Refuse(reason))),
    }
}

/// The text of what an update makes of the current object, at that number. None says nothing of it: it may be as it
/// was, or more has to be read of the current text than its seams give.
fn updated(
    alloc: Global,
    current: &Printed,
    draft: &CompactDraft<'_>,
    number: u64,
) -> Result<Option<Printed>, Memory>
    requires told { (d : Draft) × IsReadFrom draft.now d }
    requires status { has_status draft.now.key.kind ≡ true }
    requires key { current.now.key ≡ draft.now.key }
    requires number { number ≢ 0 }
    ensures { (d : Draft) → IsReadFrom draft.now d → IfOk result (λ found. IfSome found (IsUpdateOf current.now d number)) }
{
    let old = current.indexed();
    // 0 says that the text has no seams, or that it is not known where its spec is and what its generation is.
    if old.version == 0 || old.generation == 0 {
        return Ok(None);
    }
    let meta = next_meta(old, draft.spec, number);
    let new = indexed(alloc, draft, &meta, status_end(old));
    drop(meta);
    let Some(new) = new? else {
        return Ok(None);
    };
    if may_be_same(old, &new) {
        drop(new);
        return Ok(None);
    }
    Ok(Some(Printed::of_indexed(alloc, new)?))
}

/// What the store knows of the current text's object once one with that spec has replaced it at that number.
fn next_meta(current: &IndexedText, spec: Option<&[u8]>, number: u64) -> Meta
    requires { (o : SpecObject) × IsIndexedText o current.now × IsOpen o current.now }
    ensures { (o : SpecObject) (value : Option Data) → IsIndexedText o current.now → IsOpen o current.now → lent spec.entry ≡ option_map compact_text value
        → IsCanonicalStatus value → IfSome value (λ d. has_float d ≡ false)
        → result ≡ record { uid = o.meta.uid; revision = number; generation = generation_after o.meta.generation (same_found (member_of (codes "spec") o.body) value); deletion = o.meta.deletion } }
{
    Meta {
        uid: current.uid,
        revision: number,
        generation: generation_after(u64::from(current.generation), has_spec(current, spec)),
        deletion: None,
    }
}

/// Whether the object of the text has that spec, given as it is written, or none.
fn has_spec(current: &IndexedText, spec: Option<&[u8]>) -> bool
    requires { (o : SpecObject) × IsIndexedText o current.now × IsOpen o current.now }
    ensures { (o : SpecObject) (value : Option Data) → IsIndexedText o current.now → IsOpen o current.now → lent spec.entry ≡ option_map compact_text value
        → IsCanonicalStatus value → IfSome value (λ d. has_float d ≡ false) → result ≡ same_found (member_of (codes "spec") o.body) value }
{
    is_spec(spec_bytes(current), spec)
}

/// Whether these bytes are that spec after its comma and its name, or none.
fn is_spec(bytes: &[u8], spec: Option<&[u8]>) -> bool
    ensures { (value : Option Data) → lent spec.entry ≡ option_map compact_text value → result ≡ bytes_eq bytes.now (spec_text value) }
{
    let Some(spec) = spec else {
        return bytes.is_empty();
    };
    match bytes.strip_prefix(b",\"spec\":") {
        Some(value) => value == spec,
        None => false,
    }
}
