// The metadata of an object, as it is written: what the store sets in it, its labels and its owners.
ghost use Rattle.std.specs.Prelude.{◌≡◌, Ok, None, IfSome, option_map, ◌<◌, ◌^◌, codes, decimal, IsTrue, true, Some, ◌++◌, ◌∷◌, ℕ, List, length};
ghost use Rattle.serde_json.specs.Data.{Members, Data};
ghost use Rattle.trees.specs.Canonical.{AreCanonicalMembers};
ghost use Rattle.objects.specs.Reading.{draft_meta, draft_meta_in, unless_empty, generation_of};
ghost use Rattle.compact_objects.specs.Maps.{IsMap};
ghost use Rattle.serde_json.specs.Find.{get_member};
ghost use Rattle.serde_json.specs.Written.{compact_text};
ghost use Rattle.objects.specs.MetadataShape.{labels_fit, is_owner, owners_fit};
ghost use Rattle.compact_objects.specs.Cursors.{EndsValue};

use crate::map::Map;
use crate::text::{plain_member_rest, quoted_rest, text_member_rest};
use std::str::from_utf8;

/// The UID and the resource version, if they are there and not empty, and the generation, of an object that is not being
/// deleted.
#[derive(Clone, Copy, Drop)]
pub(crate) struct CompactMeta<'t> {
    pub uid: Option<&'t str>,
    pub version: Option<&'t str>,
    pub generation: u64,
}

/// What these members say of it.
#[tactic(auto, unfolding(objects::specs::Reading::draft_meta_in))]
pub(crate) fn meta_of<'t>(metadata: Map<'t>) -> Option<CompactMeta<'t>>
    ensures { (ms : Members) → IsMap metadata.entry.text.now metadata.entry.table.now ms → AreCanonicalMembers ms
        → IfSome result (λ s. draft_meta_in ms ≡ Ok (draft_meta (option_map (λ t. t.now) s.uid) (option_map (λ t. t.now) s.version) s.generation None)) }
{
    if metadata.member("deletionTimestamp").is_some() {
        return None;
    }
    let uid = metadata.optional_text("uid")?;
    let version = metadata.optional_text("resourceVersion")?;
    let generation = generation_of(metadata)?;
    Some(CompactMeta {
        uid: unless_empty(uid),
        version: unless_empty(version),
        generation,
    })
}

fn unless_empty(text: Option<&str>) -> Option<&str>
    ensures { option_map (λ t. t.now) result ≡ unless_empty (option_map (λ t. t.now) text.entry) }
{
    match text {
        Some(text) if !text.is_empty() => Some(text),
        _ => None,
    }
}

/// The generation among these members; a missing one is 0.
pub(crate) fn generation_of(metadata: Map<'_>) -> Option<u64>
    ensures { (ms : Members) → IsMap metadata.entry.text.now metadata.entry.table.now ms → AreCanonicalMembers ms
        → IfSome result (λ n. generation_of (get_member (codes "generation") ms) ≡ Ok n) }
{
    match metadata.member("generation") {
        None => Some(0),
        Some(digits) => number_of(digits),
    }
}

// The number that is written so, if it fits 63 bits.
fn number_of(digits: &[u8]) -> Option<u64>
    ensures { IfSome result (λ n. (digits.now ≡ decimal n) × (n < 2 ^ 63)) }
{
    let Ok(text) = from_utf8(digits) else {
        return None;
    };
    let Ok(number) = text.parse::<u64>() else {
        return None;
    };
    // It is written again, so no digit is needless.
    if number < 1 << 63 && itoa::Buffer::new().format(number) == text {
        Some(number)
    } else {
        None
    }
}

/// Whether the member `labels` of the metadata is missing, or a map of texts that have no escape.
pub(crate) fn labels_fit(metadata: Map<'_>) -> bool
    ensures { (ms : Members) → IsMap metadata.entry.text.now metadata.entry.table.now ms → IsTrue result
        → labels_fit (get_member (codes "labels") ms) ≡ true }
{
    match metadata.member("labels") {
        None => true,
        Some(labels) => are_labels(labels),
    }
}

// Whether that is the text of a map of texts, none of them with an escape.
fn are_labels(text: &[u8]) -> bool
    ensures { (d : Data) → text.now ≡ compact_text d → IsTrue result → labels_fit (Some d) ≡ true }
{
    if text == b"{}".as_slice() {
        return true;
    }
    let Some(mut left) = text.strip_prefix(b"{") else {
        return false;
    };
    'labels: while let Some(behind) = text_member_rest(left) {
        let Some((byte, others)) = behind.split_first() else {
            return false;
        };
        let byte = *byte;
        if byte == b'}' {
            return true;
        }
        if byte != b',' {
            return false;
        }
        left = others;
    }
    false
}

/// Whether the member `ownerReferences` of the metadata is missing, or a list of maps of texts and truths, the last member of
/// each a text `uid`.
pub(crate) fn owners_fit(metadata: Map<'_>) -> bool
    ensures { (ms : Members) → IsMap metadata.entry.text.now metadata.entry.table.now ms → IsTrue result
        → owners_fit (get_member (codes "ownerReferences") ms) ≡ true }
{
    match metadata.member("ownerReferences") {
        None => true,
        Some(owners) => are_owners(owners),
    }
}

// Whether that is the text of a list of such maps.
fn are_owners(text: &[u8]) -> bool
    ensures { (d : Data) → text.now ≡ compact_text d → IsTrue result → owners_fit (Some d) ≡ true }
{
    let Some(mut left) = text.strip_prefix(b"[") else {
        return false;
    };
    'owners: while let Some(behind) = owner_rest(left) {
        let Some((byte, others)) = behind.split_first() else {
            return false;
        };
        let byte = *byte;
        if byte == b']' {
            return true;
        }
        if byte != b',' {
            return false;
        }
        left = others;
    }
    false
}

// What follows such a map.
fn owner_rest(text: &[u8]) -> Option<&[u8]>
    ensures owner { (d : Data) (rest : List ℕ) → text.now ≡ compact_text d ++ rest → EndsValue rest
        → IfSome result (λ found. (found.now ≡ rest) × (is_owner d ≡ true)) }
    ensures brace { IfSome result (λ found. (behind : List ℕ) × (text.now ≡ 123 ∷ behind)) }
    ensures shorter { IfSome result (λ found. length found.now < length text.now) }
{
    let mut left = text.strip_prefix(b"{")?;
    'members: loop {
        if let Some(value) = left.strip_prefix(b"\"uid\":") {
            let behind = quoted_rest(value)?;
            let rest = behind.strip_prefix(b"}")?;
            return Some(rest);
        }
        let behind = plain_member_rest(left)?;
        left = behind.strip_prefix(b",")?;
    }
}
