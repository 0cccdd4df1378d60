// Texts of JSON, if they are written as a writer writes them.
ghost use Rattle.std.specs.Prelude.{◌≡◌, ◌≤◌, ◌<◌, ◌∷◌, [], length, IfSome, ◌+◌, drop, map};
ghost use Rattle.json.specs.Print.{escape_byte};
ghost use Rattle.compact.specs.Begins.{IsPlainText, EndsText, EndsPlain, EndsEscape};
ghost use Rattle.std.specs.List.{prefix_len};
ghost use Rattle.std.specs.Simd.Lanes.{mask_l};
ghost use Rattle.compact.specs.Plain.{is_stop, is_plain};

use crate::controls::control_rest;
use std::simd::prelude::*;

/// How many bytes the text takes that begins here, with its quotes, if none of it is escaped.
#[inline(always)]
pub(crate) fn plain_text_end(text: &[u8]) -> Option<usize>
    ensures plain { IfSome result (λ n. IsPlainText text.now n) }
    ensures within { IfSome result (λ n. n ≤ length text.now) }
{
    let (quote, inside) = text.split_first()?;
    if *quote != b'"' {
        return None;
    }
    let rest = plain_rest(inside)?;
    Some(text.len() - rest.len())
}

// What follows the closing quote of such a text, given what follows its first one.
#[inline(always)]
fn plain_rest(text: &[u8]) -> Option<&[u8]>
    ensures plain { IfSome result (λ rest. EndsPlain text.now rest.now) }
    ensures shorter { IfSome result (λ rest. length rest.now < length text.now) }
{
    let end = plain_end(text);
    let (byte, behind) = text[end..].split_first()?;
    if *byte == b'"' { Some(behind) } else { None }
}

/// What follows the closing quote of any text, given what follows its first one. It passes a run of plain bytes and an
/// escape at a time.
pub(crate) fn text_rest(text: &[u8]) -> Option<&[u8]>
    ensures text { IfSome result (λ rest. EndsText text.now rest.now) }
    ensures shorter { IfSome result (λ rest. length rest.now < length text.now) }
{
    let mut left = text;
    'runs: loop {
        let end = plain_end(left);
        let (byte, behind) = left[end..].split_first()?;
        let byte = *byte;
        if byte == b'"' {
            return Some(behind);
        }
        if byte != b'\\' {
            return None;
        }
        left = escape_rest(behind)?;
    }
}

// What follows an escape, given what follows its backslash.
fn escape_rest(text: &[u8]) -> Option<&[u8]>
    ensures escape { IfSome result (λ rest. EndsEscape text.now rest.now) }
    ensures shorter { IfSome result (λ rest. length rest.now < length text.now) }
{
    let (letter, rest) = text.split_first()?;
    if *letter == b'u' {
        return control_rest(text);
    }
    let _escaped = byte_escaped(*letter)?;
    Some(rest)
}

// The byte that a short escape of this letter stands for.
#[tactic(auto, unfolding(json::specs::Print::escape_byte))]
fn byte_escaped(letter: u8) -> Option<u8>
    ensures { IfSome result (λ byte. escape_byte byte ≡ 92 ∷ letter ∷ []) }
{
    match letter {
        b'"' => Some(34),
        b'\\' => Some(92),
        b'b' => Some(8),
        b'f' => Some(12),
        b'n' => Some(10),
        b'r' => Some(13),
        b't' => Some(9),
        _ => None,
    }
}

// Which of these bytes are no plain ones.
#[inline(always)]
fn stops(bytes: u8x16) -> u64
    ensures { result ≡ mask_l (map is_stop bytes) }
{
    (bytes.simd_eq(u8x16::splat(b'"'))
        | bytes.simd_eq(u8x16::splat(b'\\'))
        | bytes.simd_lt(u8x16::splat(0x20))).to_bitmask()
}

// The same a byte at a time, for the last ones.
#[inline(never)]
fn plain_end_slowly(text: &[u8], from: usize) -> usize
    requires { from ≤ length text.now }
    ensures { result ≡ from + prefix_len is_plain (drop from text.now) }
{
    let mut at = from;
    'bytes: while at < text.len() && text[at] != b'"' && text[at] != b'\\' && text[at] >= 0x20 {
        at += 1;
    }
    at
}

/// How many bytes come before the first quote, backslash or control byte.
#[inline(always)]
pub fn plain_end(text: &[u8]) -> usize
    ensures value { result ≡ prefix_len is_plain text.now }
    ensures within { result ≤ length text.now }
{
    let mut at = 0;
    'vectors: while text.len() - at >= 16 {
        let found = stops(u8x16::from_slice(&text[at..]));
        if found != 0 {
            return at + found.trailing_zeros() as usize;
        }
        at += 16;
    }
    plain_end_slowly(text, at)
}
