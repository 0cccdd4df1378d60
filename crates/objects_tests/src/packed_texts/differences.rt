//! Deltas: one that was written by hand, and how short those are that are made.
use crate::packed_texts::asserts::assert_so;
use packed::{write_delta, write_expanded};
use std::alloc::{AllocError, Global};

const POD: &str =
    r#"{"kind":"Pod","metadata":{"labels":{"app":"db","n":"7"},"name":"db-0"},"spec":{"x":1}}"#;

/// Texts next to that pod, and how many bytes a delta has: three for each piece, and those that it adds.
static DELTAS: [(&str, usize); 4] = [
    (POD, 3),
    // "12" in place of "7": what comes before it and the two bytes, and what comes after.
    (
        r#"{"kind":"Pod","metadata":{"labels":{"app":"db","n":"12"},"name":"db-0"},"spec":{"x":1}}"#,
        8,
    ),
    // A label more: its bytes up to the quote from which on the texts are alike again.
    (
        r#"{"kind":"Pod","metadata":{"labels":{"app":"db","m":"1","n":"7"},"name":"db-0"},"spec":{"x":1}}"#,
        15,
    ),
    // A label less: the two bytes up to the next quote are added.
    (
        r#"{"kind":"Pod","metadata":{"labels":{"app":"db"},"name":"db-0"},"spec":{"x":1}}"#,
        8,
    ),
];

/// Whether a delta encodes that text over a base.
fn encodes(alloc: Global, base: &[u8], delta: &[u8], text: &[u8]) -> Result<bool, AllocError> {
    let mut out = Vec::new(alloc);
    write_expanded(base, delta, &mut out)?;
    Ok(out.as_slice() == text)
}

/// Whether the delta of a text has so many bytes, and none is made that is a byte shorter.
fn has_length(alloc: Global, base: &[u8], text: &[u8], length: usize) -> Result<bool, AllocError> {
    let mut delta = Vec::new(alloc);
    let is_made = write_delta(base, text, length, &mut delta)?;
    let mut shorter = Vec::new(alloc);
    let is_shorter = write_delta(base, text, length.saturating_sub(1), &mut shorter)?;
    let is_encoded = encodes(alloc, base, &delta, text)?;
    Ok(is_made && !is_shorter && is_encoded && delta.len() == length)
}

#[test]
fn texts_that_are_much_alike_have_short_deltas(rt: HostRuntime) -> Result<(), AllocError> {
    // One byte of the base is skipped, three are copied, two are added; then the next byte of the base.
    let by_hand = [1, 3, 2, b'X', b'Y', 0, 1, 0];
    assert!(rt; encodes(rt.alloc(), b"abcdef", &by_hand, b"bcdXYe")?);
    for (text, length) in DELTAS.iter() {
        let is_so = has_length(rt.alloc(), POD.as_bytes(), text.as_bytes(), *length)?;
        assert_so(&rt, is_so, text);
    }
    Ok(())
}

/// A part that many times, and a text after it.
fn repeated(alloc: Global, part: &[u8], count: usize, end: &[u8]) -> Result<Vec<u8>, AllocError> {
    let mut text = Vec::new(alloc);
    for _ in 0..count {
        text.extend_from_slice(part)?;
    }
    text.extend_from_slice(end)?;
    Ok(text)
}

/// The same where the two differ and are alike in turn, and each second quote of the text is in the base.
fn has_length_in_turn(alloc: Global, count: usize, length: usize) -> Result<bool, AllocError> {
    let base = repeated(alloc, b"\"aaaaaaaaa\"sssssssss", count, b"")?;
    let text = repeated(alloc, b"\"bbbbbbbbb\"ccccccccc\"sssssssss", count, b"")?;
    has_length(alloc, &base, &text, length)
}

/// Whether the delta has so many bytes between two texts that differ in so many quoted parts, and then are alike.
fn has_length_past(alloc: Global, count: usize, length: usize) -> Result<bool, AllocError> {
    let base = repeated(alloc, b"\"aaaaaaaaa", count, b"\"the same end")?;
    let text = repeated(alloc, b"\"bbbbbbbbb", count, b"\"the same end")?;
    has_length(alloc, &base, &text, length)
}

/// The same where so many bytes of the base stand between its next quote and the one from which on both are alike.
fn has_length_beyond(alloc: Global, count: usize, length: usize) -> Result<bool, AllocError> {
    let end = repeated(alloc, b"\"the same end", 10, b"")?;
    let between = repeated(alloc, b"s", count, &end)?;
    let base = repeated(alloc, b"\"aaaaaaaaa", 1, b"\"")?;
    let base = repeated(alloc, &base, 1, &between)?;
    let text = repeated(alloc, b"\"bbbbbbbbb", 1, &end)?;
    has_length(alloc, &base, &text, length)
}

#[test]
fn long_texts_are_copied_added_and_skipped(rt: HostRuntime) -> Result<(), AllocError> {
    // 275 pieces copy 255 bytes each, or the rest; or they add as many.
    let long = repeated(rt.alloc(), b"\"aaaaaaaaa", 7_000, b"")?;
    assert!(rt; has_length(rt.alloc(), &long, &long, 275 * 3)?);
    assert!(rt; has_length(rt.alloc(), b"", &long, 275 * 3 + 70_000)?);
    // A piece copies ten bytes. Then 590 bytes of the base are skipped by three pieces, the last of which copies the end.
    let labels = repeated(rt.alloc(), b"label", 120, b"\",\"name\":\"db-0\",\"z\":1}")?;
    let label = b"labellabel\",\"name\":\"db-0\",\"z\":1}";
    assert!(rt; has_length(rt.alloc(), &labels, label, 3 + 3 * 3)?);
    // The first quote is copied and 9,999 bytes are added by 40 pieces, all but the first of which copy nothing. Then 9,999
    // bytes of the base are skipped by 40 pieces, the last of which copies the end.
    assert!(rt; has_length_past(rt.alloc(), 1_000, 40 * 3 + 9_999 + 40 * 3)?);
    // After 1,024 quotes no more are looked for, and the end is added too: 11,012 bytes by 44 pieces.
    assert!(rt; has_length_past(rt.alloc(), 1_100, 44 * 3 + 11_012)?);
    // In each part a piece adds 19 bytes, those of two quotes, the first of which is looked for in vain; the last piece copies the end.
    assert!(rt; has_length_in_turn(rt.alloc(), 1_000, 1_000 * (3 + 19) + 3)?);
    // The first quote of part 1,024 is the last that is looked for: 77 parts of 30 bytes but for their first quote are added by 10
    // pieces.
    assert!(rt; has_length_in_turn(rt.alloc(), 1_100, 1_023 * (3 + 19) + 10 * 3 + 77 * 30 - 1)?);
    // The 8 bytes that are compared are the last of 4,096. A piece adds nine bytes; then 17 pieces skip 4,097 of the
    // base, the last of which copies the end.
    assert!(rt; has_length_beyond(rt.alloc(), 4_087, 3 + 9 + 17 * 3)?);
    // One byte farther it is not found, and the end is added too.
    assert!(rt; has_length_beyond(rt.alloc(), 4_088, 3 + 9 + 130)?);
    Ok(())
}
