// The object of a line: its draft, and its text with its seams.
ghost use Rattle.std.specs.Prelude.{◌≡◌, ◌≢◌, Option, None, Some, Ok, false, string_bytes, IfOk, IfSome, ℕ, List};
ghost use Rattle.serde_json.specs.Data.{Data, Members, object as map_of};
ghost use Rattle.serde_json.specs.Written.{has_float};
ghost use Rattle.trees.specs.Canonical.{IsCanonical};
ghost use Rattle.objects.specs.Reading.{draft_in};
ghost use Rattle.objects.specs.Rewrites.{with_status};
ghost use Rattle.objects.specs.Seams.{IsCanonicalStatus, IsIndexedText, status_text, status_tokens};
ghost use Rattle.json.specs.Print.{ArePrintableOrBad};
ghost use Rattle.objects.specs.declared.object.Draft.{Draft};
ghost use Rattle.compact_objects.specs.Drafts.{IsDraftOf};
ghost use Rattle.compact_objects.specs.Texts.{with_meta};
ghost use Rattle.compact.specs.Reads.{IsSorted};
ghost use Rattle.compact_objects.specs.Lines.{IsDraftOfLine};

use crate::draft::CompactDraft;
use crate::seams::{Seams, write_object};
use compact::Tables;
use objects::{IndexedText, Memory, Meta};
use simdutf8::basic::from_utf8;
use std::alloc::Global;

/// The draft of the object of a request, of whose line a scanner has made this text, with the tables of its members.
/// None says nothing of the line. The draft is one of the original line, whatever the order of its members was: a reader
/// of JSON reads that line as a map whose `object` the draft is of, and so does the store's own reading of a line,
/// unless it refuses the line because it is too long or not UTF-8.
pub fn draft_of_line<'a>(
    alloc: Global,
    text: &'a [u8],
    tables: &'a Tables,
) -> Result<Option<CompactDraft<'a>>, Memory>
    ensures { (line : List ℕ) → IsSorted line text.now tables.now → IfOk result (λ found. IfSome found (λ c. IsDraftOfLine c line)) }
{
    if !text.starts_with(b"{") {
        return Ok(None);
    }
    CompactDraft::of(alloc, text, tables)
}

/// The text of the draft's object, with what the store knows of it, and with that end, from its status on; with its
/// seams. None says nothing of the object: the line was no UTF-8, a member comes after its status, or it has no
/// resource version. The text is what `print_object` prints of that object; its seams and numbers are those of that
/// text. No clause says when there is one: tests do.
pub fn indexed(
    alloc: Global,
    draft: &CompactDraft<'_>,
    meta: &Meta,
    end: &[u8],
) -> Result<Option<IndexedText>, Memory>
    ensures { (os : Members) (d : Draft) (s : Option Data) → IsDraftOf draft.now os → IsCanonical (map_of os) → has_float (map_of os) ≡ false → draft_in os ≡ Ok d
        → end.now ≡ status_text s → IsCanonicalStatus s → ArePrintableOrBad (status_tokens s)
        → IfOk result (λ found. IfSome found (λ indexed. IsIndexedText (with_status s (with_meta meta.now d.object)) indexed)) }
{
    if meta.revision == 0 {
        return Ok(None);
    }
    let size = draft.object.text.len().saturating_add(end.len());
    let mut out = Vec::with_capacity(alloc, size.saturating_add(256))?;
    let written = write_object(
        alloc,
        draft.object,
        draft.metadata,
        &draft.key,
        meta,
        end,
        &mut out,
    )?;
    match written {
        Some(seams) => Ok(indexed_of(meta, out, seams)),
        None => Ok(None),
    }
}

// The text of those bytes, with its seams, if they are UTF-8 and the seams fit.
fn indexed_of(meta: &Meta, bytes: Vec<u8>, seams: Seams) -> Option<IndexedText>
    ensures text { IfSome result (λ indexed. string_bytes indexed.text ≡ bytes.items) }
    ensures meta { IfSome result (λ indexed. (indexed.uid ≡ meta.now.uid) × (indexed.revision ≡ meta.now.revision)) }
    ensures seams { IfSome result (λ indexed. (indexed.version ≡ seams.version) × (indexed.status ≡ seams.status)) }
    ensures spec { IfSome result (λ indexed. indexed.generation ≢ 0 → (seams.spec ≡ Some indexed.spec) × (indexed.generation ≡ meta.now.generation) × (meta.now.deletion ≡ None)) }
{
    let Ok(version) = u32::try_from(seams.version) else {
        return None;
    };
    let Ok(status) = u32::try_from(seams.status) else {
        return None;
    };
    let text = text_of(bytes)?;
    let (spec, generation) = short_spec(meta, seams.spec);
    Some(IndexedText {
        text,
        uid: meta.uid,
        revision: meta.revision,
        version,
        status,
        spec,
        generation,
    })
}

// The text of those bytes, if they are UTF-8.
fn text_of(bytes: Vec<u8>) -> Option<String>
    ensures { IfSome result (λ text. string_bytes text ≡ bytes.items) }
{
    match from_utf8(bytes.as_slice()) {
        Ok(_) => Some(unsafe { String::from_utf8_unchecked(bytes) }),
        Err(_) => None,
    }
}

// How many bytes the spec takes, and the generation, or 0 and 0 if they are not known, do not fit, or the object has a
// time of deletion.
fn short_spec(meta: &Meta, size: Option<usize>) -> (u32, u32)
    ensures { result.1 ≢ 0 → (size ≡ Some result.0) × (result.1 ≡ meta.now.generation) × (meta.now.deletion ≡ None) }
{
    if meta.deletion.is_some() {
        return (0, 0);
    }
    let Some(size) = size else {
        return (0, 0);
    };
    let Ok(spec) = u32::try_from(size) else {
        return (0, 0);
    };
    match u32::try_from(meta.generation) {
        Ok(generation) => (spec, generation),
        Err(_) => (0, 0),
    }
}
