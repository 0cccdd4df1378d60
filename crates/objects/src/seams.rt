// Printing an object with the seams of its text, where another resource version or another status can be put in.
ghost use Rattle.std.specs.Prelude.{◌≡◌, ◌≢◌, ◌≤◌, ◌-◌, ◌++◌, ◌∷◌, ℕ, [], codes, length, take, drop, decimal, true, false, IfOk, IfSome, OnOk, IsTrue};
ghost use Rattle.std.specs.Str.{IsUtf8};
ghost use Rattle.json.specs.Print.{ArePrintableOrBad, print_from};
ghost use Rattle.json.specs.Token.{string as string_token};
ghost use Rattle.json.specs.Tree.{members_tokens};
ghost use Rattle.serde_json.specs.Written.{members_outline};
ghost use Rattle.trees.specs.Positions.{IsAbove};
ghost use Rattle.trees.specs.Canonical.{AreCanonicalMembers, IsCanonical};
ghost use Rattle.trees.specs.Tree.{members_of};
ghost use Rattle.objects.specs.Seams.{HasSeamsAt, IsSpecAlone, IsSpecAt, IsStatusAlone, WritesBetween, WritesHead, comma_before};
ghost use Rattle.objects.specs.Merged.{StopsAt, after_version};
ghost use Rattle.objects.specs.Object.{KeepsRules, has_held};
ghost use Rattle.objects.specs.PrintedText.{IsTextOf};

use crate::object::Object;
use crate::print::{print_into, write_after_version, write_front, write_to_version};
use json::Writer;
use std::alloc::AllocError;
use std::cmp::Ordering;
use trees::{Text, Tree, write_entries};

/// A text, with its seams, if it has them.
#[derive(Drop)]
pub(crate) struct SeamedText {
    pub(crate) bytes: Vec<u8>,
    pub(crate) seams: Option<Seams>,
}

/// The seams of a text: before its resource version, and before the comma of its status, or else before its last brace.
#[derive(Clone, Copy, Drop)]
pub(crate) struct Seams {
    pub(crate) version: usize,
    pub(crate) status: usize,
    /// How many bytes of the spec end at the status, with the comma before it; none if other members are there.
    pub(crate) spec: Option<usize>,
}

// The entries of the metadata that are not written yet, and those of the body after it.
#[derive(Clone, Copy, Drop)]
struct Head<'a> {
    versioned: &'a [(Text, Tree)],
    after: &'a [(Text, Tree)],
}

// Writes an object up to its resource version.
fn write_head<'a>(object: &'a Object, out: &mut Writer) -> Result<Head<'a>, AllocError>
    ensures written { IfOk result (λ head. WritesHead object.now head.versioned.now head.after.now out.old.tokens out.new.tokens) }
    ensures none { IfOk result (λ head. has_held (members_of head.versioned.now) ≡ false) }
    ensures before { out.new.before ≡ out.old.before }
    ensures canonical { IfOk result (λ head. AreCanonicalMembers (members_of head.versioned.now) → AreCanonicalMembers (members_of head.after.now)
        → IsCanonical object.now.body) }
    ensures rules { OnOk result (KeepsRules object.now) }
{
    // By the invariant of an object its body is a map, with a map as its `metadata`; so nothing fails here and below.
    let Tree::Map(members) = &object.body else {
        unreachable!();
    };
    let entries = members.entries();
    out.begin_object()?;
    let rest = write_front(entries, "metadata", out)?;
    let Some((entry, after)) = rest.split_first() else {
        unreachable!();
    };
    let Tree::Map(metadata) = &entry.1 else {
        unreachable!();
    };
    out.key("metadata")?;
    out.begin_object()?;
    let versioned = write_to_version(object, metadata.entries(), out)?;
    Ok(Head { versioned, after })
}

// Writes the resource version and the end of the metadata.
fn write_version(
    object: &Object,
    versioned: &[(Text, Tree)],
    out: &mut Writer,
) -> Result<(), AllocError>
    requires { has_held (members_of versioned.now) ≡ false }
    ensures tokens { OnOk result (out.new.tokens ≡ out.old.tokens ++ string_token (decimal object.now.meta.revision) ∷ after_version object.now versioned.now) }
    ensures before { out.new.before ≡ out.old.before }
    ensures versioned { OnOk result (AreCanonicalMembers (members_of versioned.now)) }
{
    let meta = &object.meta;
    let mut buffer = itoa::Buffer::new();
    out.string(buffer.format(meta.revision))?;
    write_after_version(object, versioned, out)
}

// A text up to its status, and the entries that are left.
#[derive(Drop)]
struct Between<'a> {
    bytes: Vec<u8>,
    tail: &'a [(Text, Tree)],
}

// Writes the comma that comes before the entries below the status, if there are any.
fn begin_between(after: &[(Text, Tree)], mut bytes: Vec<u8>) -> Result<Vec<u8>, AllocError>
    ensures { (count : ℕ) → IsAbove (codes "status") count after.now → StopsAt (codes "status") (drop count after.now)
        → IfOk result (λ v. v.items ≡ bytes.items ++ comma_before (take count after.now)) }
{
    if let Some((entry, _)) = after.split_first() {
        match "status".cmp(entry.0.as_str()) {
            Ordering::Greater => bytes.push(b',')?,
            Ordering::Less | Ordering::Equal => {}
        }
    }
    Ok(bytes)
}

// Writes the entries after the metadata up to the status.
fn write_between<'a>(after: &'a [(Text, Tree)], bytes: Vec<u8>) -> Result<Between<'a>, AllocError>
    ensures { IfOk result (λ between. WritesBetween after.now between.tail.now bytes.items between.bytes.items) }
{
    let begun = begin_between(after, bytes)?;
    let mut writer = Writer::new(begun);
    let tail = write_front(after, "status", &mut writer)?;
    let bytes = writer.into_inner();
    Ok(Between { bytes, tail })
}

// Writes the comma that comes before entries.
fn begin_tail(tail: &[(Text, Tree)], mut bytes: Vec<u8>) -> Result<Vec<u8>, AllocError>
    ensures { IfOk result (λ v. v.items ≡ bytes.items ++ comma_before tail.now) }
{
    if !tail.is_empty() {
        bytes.push(b',')?;
    }
    Ok(bytes)
}

// Writes the last entries after others, with the closing brace.
fn write_tail(tail: &[(Text, Tree)], bytes: Vec<u8>) -> Result<Vec<u8>, AllocError>
    ensures bytes { IfOk result (λ v. v.items ≡ bytes.items ++ print_from true (members_tokens (members_outline (members_of tail.now)))) }
    ensures utf8 { OnOk result (IsUtf8 (print_from true (members_tokens (members_outline (members_of tail.now))))) }
    ensures printable { OnOk result (ArePrintableOrBad (members_tokens (members_outline (members_of tail.now)))) }
    ensures canonical { OnOk result (AreCanonicalMembers (members_of tail.now)) }
{
    let begun = begin_tail(tail, bytes)?;
    let mut writer = Writer::new(begun);
    write_entries(tail, &mut writer)?;
    Ok(writer.into_inner())
}

// The seams, if the text ends with no entry but the status.
fn seams_before(
    tail: &[(Text, Tree)],
    version: usize,
    status: usize,
    spec: Option<usize>,
) -> Option<Seams>
    ensures { IfSome result (λ seams. (seams.version ≡ version) × (seams.status ≡ status) × (seams.spec ≡ spec) × IsStatusAlone tail.now) }
{
    if is_status_alone(tail) {
        Some(Seams {
            version,
            status,
            spec,
        })
    } else {
        None
    }
}

// Whether there is no entry but the status.
fn is_status_alone(tail: &[(Text, Tree)]) -> bool
    ensures { IsTrue result → IsStatusAlone tail.now }
{
    match tail.split_first() {
        None => true,
        Some((entry, rest)) => rest.is_empty() && entry.0.as_str() == "status",
    }
}

// How many bytes the spec takes, if nothing else is between the metadata and the last entries.
fn spec_between(
    after: &[(Text, Tree)],
    tail: &[(Text, Tree)],
    begin: usize,
    end: usize,
) -> Option<usize>
    requires order { begin ≤ end }
    requires part { length tail.now ≤ length after.now }
    ensures { IfSome result (λ size. (size ≡ end - begin) × IsSpecAlone (take (length after.now - length tail.now) after.now)) }
{
    if is_spec_alone(&after[..after.len() - tail.len()]) {
        Some(end - begin)
    } else {
        None
    }
}

// Whether there is no entry but the spec.
fn is_spec_alone(entries: &[(Text, Tree)]) -> bool
    ensures { IsTrue result → IsSpecAlone entries.now }
{
    match entries.split_first() {
        None => true,
        Some((entry, rest)) => rest.is_empty() && entry.0.as_str() == "spec",
    }
}

// The bytes of the text of an object that has a resource version, in an empty vector.
fn print_parts(object: &Object, out: Vec<u8>) -> Result<SeamedText, AllocError>
    requires empty { out.items ≡ [] }
    requires written { object.now.meta.revision ≢ 0 }
    ensures text { IfOk result (λ text. IsTextOf object.now text.bytes.items) }
    ensures utf8 { IfOk result (λ text. IsUtf8 text.bytes.items) }
    ensures seams { IfOk result (λ text. IfSome text.seams (λ seams. HasSeamsAt object.now seams.version seams.status)) }
    ensures spec { IfOk result (λ text. IfSome text.seams (λ seams. IfSome seams.spec (IsSpecAt object.now seams.version seams.status))) }
{
    let mut front = Writer::new(out);
    let head = write_head(object, &mut front)?;
    front.key("resourceVersion")?;
    let bytes = front.into_inner();
    let version = bytes.len();
    let mut middle = Writer::new(bytes);
    write_version(object, head.versioned, &mut middle)?;
    let bytes = middle.into_inner();
    let begin = bytes.len();
    let between = write_between(head.after, bytes)?;
    let tail = between.tail;
    let status = between.bytes.len();
    let bytes = write_tail(tail, between.bytes)?;
    let spec = spec_between(head.after, tail, begin, status);
    let seams = seams_before(tail, version, status, spec);
    Ok(SeamedText { bytes, seams })
}

/// The bytes of the object's text, in an empty vector, with its seams.
pub(crate) fn print_seamed(object: &Object, out: Vec<u8>) -> Result<SeamedText, AllocError>
    requires { out.items ≡ [] }
    ensures text { IfOk result (λ text. IsTextOf object.now text.bytes.items) }
    ensures utf8 { IfOk result (λ text. IsUtf8 text.bytes.items) }
    ensures seams { IfOk result (λ text. IfSome text.seams (λ seams. HasSeamsAt object.now seams.version seams.status)) }
    ensures spec { IfOk result (λ text. IfSome text.seams (λ seams. IfSome seams.spec (IsSpecAt object.now seams.version seams.status))) }
{
    let meta = &object.meta;
    // 0 is no resource version, and a text without one has no seams.
    if meta.revision == 0 {
        let bytes = print_into(object, out)?;
        return Ok(SeamedText { bytes, seams: None });
    }
    print_parts(object, out)
}
