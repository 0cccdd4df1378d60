ghost use Rattle.std.specs.Prelude.{◌≡◌, ◌<◌, ◌≤◌, ◌++◌, [], length, true, IfOk, OnOk};
ghost use Rattle.packed.specs.Expanded.{expanded};
ghost use Rattle.packed.specs.Written.{Adds, AreFirst, IsWrittenTo};
ghost use Rattle.packed.specs.declared.difference.TheConstants.{MOST};

use crate::meeting::{Meeting, PATIENCE, common_length, next_meeting};
use crate::piece::next_piece;
use std::alloc::AllocError;

/// How many bytes a piece skips, copies and adds at most.
const MOST: usize = 255;

/// How many bytes of a piece say these numbers.
const HEAD: usize = 3;

/// Writes the text that a delta encodes.
pub fn write_expanded(base: &[u8], delta: &[u8], out: &mut Vec<u8>) -> Result<(), AllocError>
    ensures { OnOk result (out.new.items ≡ out.old.items ++ expanded base.now delta.now) }
{
    if delta.is_empty() {
        return out.extend_from_slice(base);
    }
    let mut behind = base;
    let mut rest = delta;
    while let Some(piece) = next_piece(behind, rest) {
        out.extend_from_slice(piece.copied)?;
        out.extend_from_slice(piece.added)?;
        behind = piece.base;
        rest = piece.delta;
    }
    Ok(())
}

/// Writes a delta that encodes the text, if one of at most that many bytes is found. Returns whether it is.
pub fn write_delta(
    base: &[u8],
    text: &[u8],
    most: usize,
    out: &mut Vec<u8>,
) -> Result<bool, AllocError>
    requires { out.old.items ≡ [] }
    ensures encoded { IfOk result (λ encoded. encoded ≡ true → expanded base.now out.new.items ≡ text.now) }
    ensures short { IfOk result (λ encoded. encoded ≡ true → length out.new.items ≤ most) }
{
    // An empty delta would encode the base.
    if text.is_empty() {
        return Ok(base.is_empty());
    }
    let end = write_stretches(base, text, most, out)?;
    Ok(end.text == text.len() && out.len() <= most)
}

// Writes the pieces of a text, or the first ones that together have more than so many bytes. Returns how far they go.
fn write_stretches(
    base: &[u8],
    text: &[u8],
    most: usize,
    out: &mut Vec<u8>,
) -> Result<Meeting, AllocError>
    requires { out.old.items ≡ [] }
    ensures { IfOk result (IsWrittenTo base.now text.now out.new.items) }
{
    let mut place = Meeting {
        text: 0,
        base: 0,
        skipped: 0,
        patience: PATIENCE,
    };
    'stretches: while place.text < text.len() && out.len() <= most {
        place = write_stretch(base, text, place, out)?;
    }
    Ok(place)
}

// Writes what both have in common from these positions on, and what only the text has after it. Returns where they meet
// again.
fn write_stretch(
    base: &[u8],
    text: &[u8],
    place: Meeting,
    out: &mut Vec<u8>,
) -> Result<Meeting, AllocError>
    requires left { place.text < length text.now }
    requires written { IsWrittenTo base.now text.now out.old.items place }
    ensures on { IfOk result (λ p. place.text < p.text) }
    ensures written { IfOk result (IsWrittenTo base.now text.now out.new.items) }
{
    let same = common_length(&base[place.base..], &text[place.text..]);
    let behind = place.base + same;
    // If nothing is alike, at least one byte is added, so that each turn makes progress.
    let begun = place.text + same.max(1);
    let met = next_meeting(&base[behind..], &text[begun..], place.patience);
    let next = begun + met.text;
    write_run(place.skipped, same, &text[place.text + same..next], out)?;
    Ok(Meeting {
        text: next,
        base: behind + met.base,
        skipped: met.base,
        patience: met.patience,
    })
}

// Writes the pieces that skip so many bytes of the base, copy so many after them, and add these.
fn write_run(
    skipped: usize,
    copied: usize,
    added: &[u8],
    out: &mut Vec<u8>,
) -> Result<(), AllocError>
    ensures { OnOk result (Adds skipped copied added.now out.old.items out.new.items) }
{
    let mut skips = skipped;
    let mut copies = copied;
    let mut rest = added;
    'pieces: while 0 < skips || 0 < copies || !rest.is_empty() {
        let (skip, copy, add) = first_lengths(skips, copies, rest.len());
        let (first, others) = rest.split_at(add);
        write_piece(skip, copy, first, out)?;
        skips -= skip;
        copies -= copy;
        rest = others;
    }
    Ok(())
}

// How many bytes the first of these pieces skips, copies and adds.
#[inline(always)]
fn first_lengths(skipped: usize, copied: usize, added: usize) -> (usize, usize, usize)
    ensures { AreFirst skipped copied added result.0 result.1 result.2 }
{
    if skipped > MOST {
        return (MOST, 0, 0);
    }
    if copied > MOST {
        return (skipped, MOST, 0);
    }
    (skipped, copied, added.min(MOST))
}

// Writes the piece that does so.
fn write_piece(
    skipped: usize,
    copied: usize,
    added: &[u8],
    out: &mut Vec<u8>,
) -> Result<(), AllocError>
    requires { (skipped ≤ MOST) × (copied ≤ MOST) × (length added.now ≤ MOST) }
    ensures { OnOk result (Adds skipped copied added.now out.old.items out.new.items) }
{
    out.reserve(HEAD)?;
    out.push_reserved(skipped as u8);
    out.push_reserved(copied as u8);
    out.push_reserved(added.len() as u8);
    out.extend_from_slice(added)?;
    Ok(())
}
