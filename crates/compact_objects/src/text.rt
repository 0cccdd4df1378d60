// Texts as they are written, and what follows them.
ghost use Rattle.std.specs.Prelude.{◌≡◌, ◌∷◌, ◌++◌, [], IsTrue, IfSome, ◌<◌, ℕ, List, length};
ghost use Rattle.std.specs.Str.{IsUtf8};
ghost use Rattle.serde_json.specs.Data.{Data, string};
ghost use Rattle.serde_json.specs.Written.{compact_text};
ghost use Rattle.json.specs.Print.{quoted};
ghost use Rattle.compact_objects.specs.Cursors.{BeginsNot, EndsValue, IsTextBefore};

use compact::plain_end;
use std::str::{from_utf8, from_utf8_unchecked};

/// What is between the quotes of a value that is a text, given as it is written.
#[inline(always)]
pub(crate) fn inside_of(value: &[u8]) -> Option<&[u8]>
    ensures { IfSome result (λ inside. value.now ≡ 34 ∷ (inside.now ++ 34 ∷ [])) }
{
    let (first, behind) = value.split_first()?;
    let (last, inside) = behind.split_last()?;
    if *first == b'"' && *last == b'"' {
        Some(inside)
    } else {
        None
    }
}

/// Whether a value, given as it is written, is that text; not if the text takes an escape.
#[inline(always)]
pub(crate) fn says(value: &[u8], text: &str) -> bool
    ensures { IsTrue result → value.now ≡ 34 ∷ (text.now ++ 34 ∷ []) }
{
    match inside_of(value) {
        Some(inside) => inside == text.as_bytes(),
        None => false,
    }
}

/// The text that a value says, given as it is written; none if the value is no text, or one with an escape.
pub fn text_of(value: &[u8]) -> Option<&str>
    ensures { (v : Data) → value.now ≡ compact_text v → IfSome result (λ text. v ≡ string text.now) }
{
    let inside = inside_of(value)?;
    if inside.contains(&b'\\') {
        return None;
    }
    let text = as_text(inside)?;
    Some(text)
}

/// These bytes as a text, if they are UTF-8. Of a short one the quickest test is whether it is ASCII.
#[inline(always)]
pub fn as_text(bytes: &[u8]) -> Option<&str>
    ensures value { IfSome result (λ text. text.now ≡ bytes.now) }
    ensures utf8 { IfSome result (λ text. IsUtf8 text.now) }
{
    if bytes.is_ascii() {
        return Some(unsafe { from_utf8_unchecked(bytes) });
    }
    match from_utf8(bytes) {
        Ok(text) => Some(text),
        Err(_) => None,
    }
}

/// What follows a text with its quotes, if it has no escape.
pub(crate) fn quoted_rest(text: &[u8]) -> Option<&[u8]>
    ensures rest { (s rest : List ℕ) → text.now ≡ quoted s ++ rest → IfSome result (λ found. found.now ≡ rest) }
    ensures quote { IfSome result (λ found. (behind : List ℕ) × (text.now ≡ 34 ∷ behind)) }
    ensures shorter { IfSome result (λ found. length found.now < length text.now) }
{
    let inside = text.strip_prefix(b"\"")?;
    let (_plain, end) = inside.split_at(plain_end(inside));
    let rest = end.strip_prefix(b"\"")?;
    Some(rest)
}

/// What follows a member whose value is a text, if it has no escape.
pub(crate) fn text_member_rest(text: &[u8]) -> Option<&[u8]>
    ensures rest { (k : List ℕ) (d : Data) (rest : List ℕ) → text.now ≡ quoted k ++ 58 ∷ (compact_text d ++ rest) → BeginsNot 34 rest
        → IfSome result (λ found. IsTextBefore d rest found.now) }
    ensures shorter { IfSome result (λ found. length found.now < length text.now) }
{
    let behind = quoted_rest(text)?;
    let value = behind.strip_prefix(b":")?;
    let rest = quoted_rest(value)?;
    Some(rest)
}

/// What follows a member whose value is a truth, or a text with no escape.
pub(crate) fn plain_member_rest(text: &[u8]) -> Option<&[u8]>
    ensures rest { (k : List ℕ) (d : Data) (rest : List ℕ) → text.now ≡ quoted k ++ 58 ∷ (compact_text d ++ rest) → EndsValue rest
        → IfSome result (λ found. found.now ≡ rest) }
    ensures quote { IfSome result (λ found. (behind : List ℕ) × (text.now ≡ 34 ∷ behind)) }
    ensures shorter { IfSome result (λ found. length found.now < length text.now) }
{
    let behind = quoted_rest(text)?;
    let value = behind.strip_prefix(b":")?;
    let rest = plain_rest(value)?;
    Some(rest)
}

// What follows a truth, or a text with no escape.
fn plain_rest(text: &[u8]) -> Option<&[u8]>
    ensures rest { (d : Data) (rest : List ℕ) → text.now ≡ compact_text d ++ rest → EndsValue rest → IfSome result (λ found. found.now ≡ rest) }
    ensures shorter { IfSome result (λ found. length found.now < length text.now) }
{
    if let Some(rest) = quoted_rest(text) {
        return Some(rest);
    }
    if let Some(rest) = text.strip_prefix(b"true") {
        return Some(rest);
    }
    let rest = text.strip_prefix(b"false")?;
    Some(rest)
}
