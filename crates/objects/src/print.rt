ghost use Rattle.std.specs.Prelude.{◌≡◌, ◌≤◌, ◌++◌, [], length, IfOk, OnOk, Ok, Option, Some, codes, true, false, option_map, decimal, string_bytes};
ghost use Rattle.std.specs.Option.{option_copied};
ghost use Rattle.std.specs.Str.{IsUtf8};
ghost use Rattle.json.specs.Tree.{json_tokens, members_tokens};
ghost use Rattle.serde_json.specs.Data.{Data, Members as DataMembers, object as map, string, number as number_data, unsigned, depth, put};
ghost use Rattle.serde_json.specs.Find.{get_member};
ghost use Rattle.serde_json.specs.Written.{outline, members_outline};
ghost use Rattle.trees.specs.Tree.{members_of, AreAscending};
ghost use Rattle.objects.specs.Object.{is_held, has_held, KeepsRules};
ghost use Rattle.objects.specs.Key.{is_key};
ghost use Rattle.objects.specs.Meta.{IsMeta};
ghost use Rattle.trees.specs.Canonical.{IsCanonical, AreCanonicalMembers};
ghost use Rattle.objects.specs.PrintedText.{IsTextOf};
ghost use Rattle.objects.specs.Text.{text, printed, full_metadata, unless_zero};
ghost use Rattle.objects.specs.Uid.{uid_text, uid_prefix, twelve_digits};
ghost use Rattle.objects.specs.Reading.{reading, most_bytes};
ghost use Rattle.objects.specs.Again.{draft_again_of};
ghost use Rattle.serde_json.specs.Read.{max_depth};
ghost use Rattle.objects.specs.Merged.{after_version, held_data, some_tokens, WritesFront, WritesStep, WritesToVersion};

use crate::object::Object;
use crate::uid::uid_bytes;
use json::Writer;
use std::alloc::{AllocError, Global};
use std::cmp::Ordering;
use std::str;
use trees::{Memory, Text, Tree, write_entries, write_tree};

// The value of a member that the key or the meta holds.
#[derive(Clone, Copy, Drop)]
enum Held<'a> {
    Text(&'a str),
    Integer(u64),
}

// Writes the entries whose keys are below the key, and returns the others.
pub(crate) fn write_front<'a>(
    entries: &'a [(Text, Tree)],
    key: &str,
    out: &mut Writer,
) -> Result<&'a [(Text, Tree)], AllocError>
    ensures front { IfOk result (λ rest. WritesFront key.now entries.now rest.now out.old.tokens out.new.tokens) }
    ensures before { out.new.before ≡ out.old.before }
{
    for (i, (name, value)) in entries.iter().enumerate() {
        match key.cmp(name.as_str()) {
            Ordering::Greater => {
                out.key(name.as_str())?;
                write_tree(value, out)?;
            }
            Ordering::Less | Ordering::Equal => return Ok(&entries[i..]),
        }
    }
    Ok(&entries[entries.len()..])
}

fn write_held(key: &str, value: Option<Held<'_>>, out: &mut Writer) -> Result<(), AllocError>
    ensures tokens { OnOk result (out.new.tokens ≡ out.old.tokens ++ some_tokens key.now (option_map held_data value.entry)) }
    ensures before { out.new.before ≡ out.old.before }
{
    match value {
        None => Ok(()),
        Some(Held::Text(text)) => {
            out.key(key)?;
            out.string(text)
        }
        Some(Held::Integer(number)) => {
            out.key(key)?;
            out.u64(number)
        }
    }
}

// Writes the entries below the key and then the held member, and returns the entries that are left.
fn write_step<'a>(
    entries: &'a [(Text, Tree)],
    key: &str,
    value: Option<Held<'_>>,
    out: &mut Writer,
) -> Result<&'a [(Text, Tree)], AllocError>
    requires held { is_held key.now ≡ true }
    requires none { has_held (members_of entries.now) ≡ false }
    ensures step { IfOk result (λ rest. WritesStep key.now (option_map held_data value.entry) entries.now rest.now out.old.tokens out.new.tokens) }
    ensures none { IfOk result (λ rest. has_held (members_of rest.now) ≡ false) }
    ensures before { out.new.before ≡ out.old.before }
    ensures canonical { IfOk result (λ rest. AreCanonicalMembers (members_of rest.now) → AreCanonicalMembers (members_of entries.now)) }
{
    let rest = write_front(entries, key, out)?;
    write_held(key, value, out)?;
    Ok(rest)
}

// The text, if there is one.
fn held_text<'a>(text: Option<&'a Text>) -> Option<Held<'a>>
    ensures { option_map held_data result ≡ option_map string (option_copied text.entry) }
{
    match text {
        Some(text) => Some(Held::Text(text.as_str())),
        None => None,
    }
}

// The number, unless it is 0, which stands for none.
fn held_number<'a>(number: u64) -> Option<Held<'a>>
    ensures { option_map held_data result ≡ unless_zero number (number_data (unsigned number)) }
{
    if number == 0 {
        None
    } else {
        Some(Held::Integer(number))
    }
}

// The text of a resource version, unless it is 0.
fn held_version<'a>(buffer: &'a mut itoa::Buffer, revision: u64) -> Option<Held<'a>>
    ensures { option_map held_data result ≡ unless_zero revision (string (decimal revision)) }
{
    if revision == 0 {
        None
    } else {
        Some(Held::Text(buffer.format(revision)))
    }
}

// The text of a UID, unless it is 0.
#[tactic(auto, unfolding(crate::specs::Uid::uid_text))]
fn held_uid<'a>(text: &'a [u8; 36], number: u64) -> Option<Held<'a>>
    requires { text.now ≡ uid_prefix ++ twelve_digits number }
    ensures { option_map held_data result ≡ unless_zero number (string (uid_text number)) }
{
    if number == 0 {
        return None;
    }
    match str::from_utf8(text) {
        Ok(text) => Some(Held::Text(text)),
        Err(_) => unreachable!(),
    }
}

// Writes the metadata up to the resource version, with the members that the key and the meta hold, and returns the
// entries that are left.
pub(crate) fn write_to_version<'a>(
    object: &Object,
    entries: &'a [(Text, Tree)],
    out: &mut Writer,
) -> Result<&'a [(Text, Tree)], AllocError>
    requires { has_held (members_of entries.now) ≡ false }
    ensures written { IfOk result (λ rest. WritesToVersion object.now entries.now rest.now out.old.tokens out.new.tokens) }
    ensures none { IfOk result (λ rest. has_held (members_of rest.now) ≡ false) }
    ensures before { out.new.before ≡ out.old.before }
    ensures canonical { IfOk result (λ rest. AreCanonicalMembers (members_of rest.now) → AreCanonicalMembers (members_of entries.now)) }
    ensures rules { OnOk result ((is_key object.now.key ≡ true) × IsMeta object.now.meta) }
{
    let meta = &object.meta;
    let key = &object.key;
    let deleted = write_step(
        entries,
        "deletionTimestamp",
        held_text(meta.deletion.as_ref()),
        out,
    )?;
    let generated = write_step(deleted, "generation", held_number(meta.generation), out)?;
    let named = write_step(generated, "name", Some(Held::Text(key.name.as_str())), out)?;
    let spaced = write_step(
        named,
        "namespace",
        Some(Held::Text(key.namespace.as_str())),
        out,
    )?;
    let rest = write_step_front(spaced, "resourceVersion", out)?;
    Ok(rest)
}

// Writes the entries below the key, and returns the others.
fn write_step_front<'a>(
    entries: &'a [(Text, Tree)],
    key: &str,
    out: &mut Writer,
) -> Result<&'a [(Text, Tree)], AllocError>
    requires held { is_held key.now ≡ true }
    requires none { has_held (members_of entries.now) ≡ false }
    ensures step { IfOk result (λ rest. (value : Option Data)
        → WritesStep key.now value entries.now rest.now out.old.tokens (out.new.tokens ++ some_tokens key.now value)) }
    ensures none { IfOk result (λ rest. has_held (members_of rest.now) ≡ false) }
    ensures before { out.new.before ≡ out.old.before }
    ensures canonical { IfOk result (λ rest. AreCanonicalMembers (members_of rest.now) → AreCanonicalMembers (members_of entries.now)) }
{
    let rest = write_front(entries, key, out)?;
    Ok(rest)
}

// Writes what comes after the resource version in the metadata, with the closing brace.
pub(crate) fn write_after_version(
    object: &Object,
    entries: &[(Text, Tree)],
    out: &mut Writer,
) -> Result<(), AllocError>
    requires { has_held (members_of entries.now) ≡ false }
    ensures tokens { OnOk result (out.new.tokens ≡ out.old.tokens ++ after_version object.now entries.now) }
    ensures before { out.new.before ≡ out.old.before }
    ensures canonical { OnOk result (AreCanonicalMembers (members_of entries.now)) }
{
    let meta = &object.meta;
    let text = uid_bytes(meta.uid);
    let known = write_step(entries, "uid", held_uid(&text, meta.uid), out)?;
    write_entries(known, out)
}

// Writes the metadata with the members that the key and the meta hold, each at its place; with the closing brace.
fn write_metadata(
    object: &Object,
    entries: &[(Text, Tree)],
    out: &mut Writer,
) -> Result<(), AllocError>
    requires { has_held (members_of entries.now) ≡ false }
    ensures tokens { OnOk result (out.new.tokens ≡ out.old.tokens ++ members_tokens (members_outline (full_metadata object.now (members_of entries.now)))) }
    ensures before { out.new.before ≡ out.old.before }
    ensures canonical { OnOk result (AreCanonicalMembers (members_of entries.now)) }
    ensures rules { OnOk result ((is_key object.now.key ≡ true) × IsMeta object.now.meta) }
{
    let meta = &object.meta;
    let mut buffer = itoa::Buffer::new();
    let version = held_version(&mut buffer, meta.revision);
    let versioned = write_to_version(object, entries, out)?;
    write_held("resourceVersion", version, out)?;
    write_after_version(object, versioned, out)
}

// Writes the members of the body, the metadata in full; with the closing brace.
fn write_members(
    object: &Object,
    entries: &[(Text, Tree)],
    out: &mut Writer,
) -> Result<(), AllocError>
    requires ascending { AreAscending (members_of entries.now) }
    requires said { (metadata : DataMembers) × (get_member (codes "metadata") (members_of entries.now) ≡ Some (map metadata)) × (has_held metadata ≡ false) }
    ensures tokens { (metadata : DataMembers) → get_member (codes "metadata") (members_of entries.now) ≡ Some (map metadata)
        → OnOk result (out.new.tokens ≡ out.old.tokens ++ members_tokens
        (members_outline (put (codes "metadata") (map (full_metadata object.now metadata)) (members_of entries.now)))) }
    ensures before { out.new.before ≡ out.old.before }
    ensures canonical { OnOk result (AreCanonicalMembers (members_of entries.now)) }
    ensures rules { OnOk result ((is_key object.now.key ≡ true) × IsMeta object.now.meta) }
{
    let rest = write_front(entries, "metadata", out)?;
    let Some((entry, after)) = rest.split_first() else {
        unreachable!();
    };
    let Tree::Map(metadata) = &entry.1 else {
        unreachable!();
    };
    out.key("metadata")?;
    out.begin_object()?;
    write_metadata(object, metadata.entries(), out)?;
    write_entries(after, out)
}

/// Writes the object where a value is expected: its members in byte order of their keys. What was written before stays.
/// The object keeps its rules: those of names and of the ranges of numbers, and numbers that read back.
pub fn write_object(object: &Object, out: &mut Writer) -> Result<(), AllocError>
    ensures tokens { OnOk result (out.new.tokens ≡ out.old.tokens ++ json_tokens (outline (printed object.now))) }
    ensures before { out.new.before ≡ out.old.before }
    ensures canonical { OnOk result (IsCanonical object.now.body) }
    ensures rules { OnOk result (KeepsRules object.now) }
{
    let Tree::Map(members) = &object.body else {
        unreachable!();
    };
    out.begin_object()?;
    write_members(object, members.entries(), out)
}

/// The bytes of the object's text, in an empty vector.
pub(crate) fn print_into(object: &Object, out: Vec<u8>) -> Result<Vec<u8>, AllocError>
    requires { out.items ≡ [] }
    ensures reads_back { IfOk result (λ v. length v.items ≤ most_bytes → depth (printed object.now) ≤ max_depth
        → reading v.items ≡ Ok (draft_again_of object.now)) }
    ensures text { IfOk result (λ v. IsTextOf object.now v.items) }
    ensures utf8 { IfOk result (λ v. IsUtf8 v.items) }
{
    let mut writer = Writer::new(out);
    write_object(object, &mut writer)?;
    Ok(writer.into_inner())
}

/// The object as compact JSON, its keys in byte order: what the key and the meta hold is back in `metadata`, without
/// what is 0 or none. `read_object` gives the object back, with the texts of its UID and version, if the text has at
/// most 1,048,576 bytes and nests at most 127 deep.
pub fn print_object(alloc: Global, object: &Object) -> Result<String, Memory>
    ensures text { IfOk result (λ s. string_bytes s ≡ text object.now) }
    ensures reads_back { IfOk result (λ s. length (string_bytes s) ≤ most_bytes → depth (printed object.now) ≤ max_depth
        → reading (string_bytes s) ≡ Ok (draft_again_of object.now)) }
{
    let bytes = print_into(object, Vec::with_capacity(alloc, 256)?)?;
    match String::from_utf8(bytes) {
        Ok(text) => Ok(text),
        Err(_) => unreachable!(),
    }
}
