// Texts, numbers, truths and `null`.
ghost use Rattle.std.specs.Prelude.{◌≡◌, ◌<◌, length, IfSome, ◌≤◌, ◌∷◌};
ghost use Rattle.compact.specs.Begins.{BeginsScalar, BeginsDigits};

use crate::texts::text_rest;

/// What follows the text, the number or the word that begins here.
#[inline(never)]
pub(crate) fn scalar_rest(text: &[u8]) -> Option<&[u8]>
    ensures value { IfSome result (λ rest. BeginsScalar text.now rest.now) }
    ensures shorter { IfSome result (λ rest. length rest.now < length text.now) }
{
    let (first, behind) = text.split_first()?;
    match *first {
        b'"' => text_rest(behind),
        b'n' | b't' | b'f' => word_rest(text),
        _ => number_rest(text),
    }
}

// What follows the word that begins a text.
fn word_rest(text: &[u8]) -> Option<&[u8]>
    ensures word { IfSome result (λ rest. BeginsScalar text.now rest.now) }
    ensures shorter { IfSome result (λ rest. length rest.now < length text.now) }
{
    if let Some(rest) = text.strip_prefix(b"null") {
        return Some(rest);
    }
    if let Some(rest) = text.strip_prefix(b"true") {
        return Some(rest);
    }
    text.strip_prefix(b"false")
}

/// The most digits of a number: any of so many fits 64 bits with a sign.
const MOST_DIGITS: usize = 18;

// What follows a whole number in its shortest form.
fn number_rest(text: &[u8]) -> Option<&[u8]>
    ensures number { IfSome result (λ rest. BeginsScalar text.now rest.now) }
    ensures shorter { IfSome result (λ rest. length rest.now < length text.now) }
{
    let (first, behind) = text.split_first()?;
    if *first == b'-' {
        let (value, rest) = digits_rest(behind)?;
        return if 0 < value && value < 1 << 63 {
            Some(rest)
        } else {
            None
        };
    }
    let (_value, rest) = digits_rest(text)?;
    Some(rest)
}

// The number that the digits are, none of them needless, and what follows.
fn digits_rest(text: &[u8]) -> Option<(u64, &[u8])>
    ensures digits { IfSome result (λ found. BeginsDigits text.now found.0 found.1.now) }
    ensures shorter { IfSome result (λ found. length found.1.now < length text.now) }
{
    let end = digits_end(text);
    let (digits, rest) = text.split_at(end);
    if digits.is_empty() || digits.len() > MOST_DIGITS {
        return None;
    }
    let value = value_of(digits);
    let mut buffer = itoa::Buffer::new();
    // It is written again, so no digit is needless.
    if buffer.format(value).as_bytes() == digits {
        Some((value, rest))
    } else {
        None
    }
}

fn digits_end(text: &[u8]) -> usize
    ensures { result ≤ length text.now }
{
    for (i, byte) in text.iter().enumerate() {
        if !byte.is_ascii_digit() {
            return i;
        }
    }
    text.len()
}

// The number that the digits are. One that does not fit becomes another, whose digits differ.
fn value_of(digits: &[u8]) -> u64 {
    let mut value: u64 = 0;
    for digit in digits {
        value = value
            .wrapping_mul(10)
            .wrapping_add(u64::from(digit.wrapping_sub(b'0')));
    }
    value
}
