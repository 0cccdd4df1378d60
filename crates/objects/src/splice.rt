// A text of an object with another resource version and another end put in.
ghost use Rattle.std.specs.Prelude.{◌≡◌, ◌≢◌, ◌++◌, [], None, Some, IfOk, IfSome, OnOk, bytes_eq, length, option_map, string_bytes};
ghost use Rattle.json.specs.Print.{ArePrintableOrBad};
ghost use Rattle.trees.specs.Tree.{data_of};
ghost use Rattle.objects.specs.Seams.{AreParts, IsCanonicalStatus, IsSpliced, status_text, status_tokens, version_text};

use crate::printed::{IndexedText, Printer, short_offsets};
use crate::seams::Seams;
use json::Writer;
use simdutf8::basic::from_utf8;
use std::alloc::AllocError;
use trees::{Memory, Tree, write_tree};

/// The text with another resource version and another end, from its status on, if it has seams.
pub fn spliced(
    indexed: &IndexedText,
    printer: &mut Printer,
    end: &[u8],
    revision: u64,
) -> Result<Option<IndexedText>, Memory>
    requires { indexed.now.version ≢ 0 → AreParts (string_bytes indexed.now.text) indexed.now.revision indexed.now.version indexed.now.status }
    ensures { IfOk result (λ found. IfSome found (λ new. IsSpliced indexed.now end.now revision new)) }
{
    // 0 says that the text has no seams, or that there is no resource version.
    if indexed.version == 0 || revision == 0 {
        return Ok(None);
    }
    let seams = Seams {
        version: indexed.version as usize,
        status: indexed.status as usize,
        spec: None,
    };
    let text = indexed.text.as_str().as_bytes();
    let (bytes, status) = splice(text, seams, indexed.revision, revision, end, printer.lent())?;
    let offsets = short_offsets(Some(Seams {
        version: seams.version,
        status,
        spec: None,
    }));
    let new = indexed_of(indexed, &bytes, revision, offsets);
    printer.keep(bytes);
    new
}

// The indexed text of these bytes, if they are a text, which has the UID, the spec and the generation of the old one.
fn indexed_of(
    old: &IndexedText,
    bytes: &[u8],
    revision: u64,
    offsets: (u32, u32),
) -> Result<Option<IndexedText>, Memory>
    ensures { IfOk result (λ found. IfSome found (λ indexed. (string_bytes indexed.text ≡ bytes.now) × (indexed.uid ≡ old.now.uid) × (indexed.revision ≡ revision)
        × (indexed.version ≡ offsets.0) × (indexed.status ≡ offsets.1) × (indexed.spec ≡ old.now.spec) × (indexed.generation ≡ old.now.generation))) }
{
    let Ok(text) = from_utf8(bytes) else {
        return Ok(None);
    };
    let (version, status) = offsets;
    Ok(Some(IndexedText {
        text: String::from_str(*old.text.allocator(), text)?,
        uid: old.uid,
        revision,
        version,
        status,
        spec: old.spec,
        generation: old.generation,
    }))
}

/// The text from its status on, if it has seams.
pub fn status_end(indexed: &IndexedText) -> &[u8]
    requires { indexed.now.version ≢ 0 → AreParts (string_bytes indexed.now.text) indexed.now.revision indexed.now.version indexed.now.status }
    ensures { indexed.now.version ≢ 0
        → (parts : AreParts (string_bytes indexed.now.text) indexed.now.revision indexed.now.version indexed.now.status) → result.now ≡ parts.rest }
{
    if indexed.version == 0 {
        return &[];
    }
    &indexed.text.as_str().as_bytes()[indexed.status as usize..]
}

/// Whether the text ends with these bytes from its status on, if it has seams.
pub fn ends_so(indexed: &IndexedText, end: &[u8]) -> Option<bool>
    requires { indexed.now.version ≢ 0 → AreParts (string_bytes indexed.now.text) indexed.now.revision indexed.now.version indexed.now.status }
    ensures { IfSome result (λ same. (indexed.now.version ≢ 0)
        × ((parts : AreParts (string_bytes indexed.now.text) indexed.now.revision indexed.now.version indexed.now.status) → same ≡ bytes_eq parts.rest end.now)) }
{
    if indexed.version == 0 {
        return None;
    }
    Some(status_end(indexed) == end)
}

// Writes the text with another resource version and another end, from its status on, and returns where that is.
fn splice(
    text: &[u8],
    seams: Seams,
    old: u64,
    new: u64,
    end: &[u8],
    mut out: Vec<u8>,
) -> Result<(Vec<u8>, usize), AllocError>
    requires parts { AreParts text.now old seams.version seams.status }
    requires empty { out.items ≡ [] }
    ensures bytes { (parts : AreParts text.now old seams.version seams.status)
        → IfOk result (λ p. p.0.items ≡ parts.front ++ (version_text new ++ (parts.middle ++ end.now))) }
    ensures status { (parts : AreParts text.now old seams.version seams.status)
        → IfOk result (λ p. p.1 ≡ length (parts.front ++ (version_text new ++ parts.middle))) }
{
    let mut buffer = itoa::Buffer::new();
    // 2 for the quotes around the old resource version.
    let behind = seams.version + 2 + buffer.format(old).len();
    out.extend_from_slice(&text[..seams.version])?;
    out.push(b'"')?;
    out.extend_from_slice(buffer.format(new).as_bytes())?;
    out.push(b'"')?;
    out.extend_from_slice(&text[behind..seams.status])?;
    let status = out.len();
    out.extend_from_slice(end)?;
    Ok((out, status))
}

/// Writes the end of a text, from its status on.
pub(crate) fn write_end(status: Option<&Tree>, out: Vec<u8>) -> Result<Vec<u8>, AllocError>
    ensures bytes { IfOk result (λ v. v.items ≡ out.items ++ status_text (option_map (λ t. data_of t.now) status.entry)) }
    ensures printable { OnOk result (ArePrintableOrBad (status_tokens (option_map (λ t. data_of t.now) status.entry))) }
    ensures canonical { OnOk result (IsCanonicalStatus (option_map (λ t. data_of t.now) status.entry)) }
{
    match status {
        Some(status) => write_status(status, out),
        None => write_brace(out),
    }
}

fn write_status(status: &Tree, mut out: Vec<u8>) -> Result<Vec<u8>, AllocError>
    ensures bytes { IfOk result (λ v. v.items ≡ out.items ++ status_text (Some (data_of status.now))) }
    ensures printable { OnOk result (ArePrintableOrBad (status_tokens (Some (data_of status.now)))) }
    ensures canonical { OnOk result (IsCanonicalStatus (Some (data_of status.now))) }
{
    out.push(b',')?;
    let mut writer = Writer::new(out);
    writer.key("status")?;
    write_tree(status, &mut writer)?;
    writer.end_object()?;
    Ok(writer.into_inner())
}

fn write_brace(mut out: Vec<u8>) -> Result<Vec<u8>, AllocError>
    ensures bytes { IfOk result (λ v. v.items ≡ out.items ++ status_text None) }
    ensures printable { OnOk result (ArePrintableOrBad (status_tokens None)) }
    ensures canonical { OnOk result (IsCanonicalStatus None) }
{
    out.push(b'}')?;
    Ok(out)
}
