// The position of a member among those before it, and how its bytes are moved there.
ghost use Rattle.std.specs.Prelude.{◌≡◌, ◌++◌, ℕ, List, length, IfSome, ◌+◌, ◌≤◌, OnOk};
ghost use Rattle.serde_json.specs.Data.{Data, Members};
ghost use Rattle.json.specs.Print.{quoted, escape};
ghost use Rattle.compact.specs.Ended.{ended_text, ended_member};
ghost use Rattle.compact.specs.Notes.{entries_of, HavePlainKeys};
ghost use Rattle.compact.specs.Places.{HasSlot, HasLast, HasPlace};
ghost use Rattle.std.specs.Ordering.{nat_cmp};
ghost use Rattle.std.specs.Cmp.Lexicographic.{slice_cmp};

use crate::table::Entry;
use std::alloc::AllocError;
use std::cmp::Ordering;

/// The byte order of two keys. Most differ in their first byte, which is faster to compare than two slices.
#[inline(always)]
pub fn compare_keys(key: &[u8], other: &[u8]) -> Ordering
    ensures { result ≡ slice_cmp nat_cmp key.now other.now }
{
    match (key.first(), other.first()) {
        (Some(one), Some(two)) if one != two => one.cmp(two),
        _ => key.cmp(other),
    }
}

/// The index and the offset at which a member belongs, unless one before it has its key. Most often none before it is
/// above it, and the last of them alone shows that.
#[inline(always)]
pub(crate) fn place_of(
    text: &[u8],
    entries: &[Entry],
    at: usize,
    key: usize,
) -> Option<(usize, usize)>
    ensures { (ms : Members) (k : List ℕ) (d : Data) (rest : List ℕ) → text.now ≡ ended_text ms ++ (ended_member k d ++ rest) → entries_of ms ≡ entries.now → HavePlainKeys ms → escape k ≡ k → HasLast ms
        → length (ended_text ms) ≡ at → length (quoted k) ≡ key → IfSome result (λ n. HasPlace k d ms n.0 n.1) }
{
    let Some((last, _before)) = entries.split_last() else {
        return Some((0, at));
    };
    let new = key_at(text, at, key)?;
    let other = key_at(text, at.checked_sub(last.size as usize)?, last.key as usize)?;
    match compare_keys(new, other) {
        Ordering::Less => slot_of(text, entries, at, key),
        Ordering::Equal => None,
        Ordering::Greater => Some((entries.len(), at)),
    }
}

// The index of the first whose key is above that of a member, and where it begins, unless one has the same key.
fn slot_of(text: &[u8], entries: &[Entry], at: usize, key: usize) -> Option<(usize, usize)>
    ensures { (ms : Members) (k : List ℕ) (d : Data) (rest : List ℕ) → text.now ≡ ended_text ms ++ (ended_member k d ++ rest) → entries_of ms ≡ entries.now → HavePlainKeys ms → escape k ≡ k
        → length (ended_text ms) ≡ at → length (quoted k) ≡ key → IfSome result (λ n. HasSlot k ms n.0 n.1) }
{
    let new = key_at(text, at, key)?;
    let mut index: usize = 0;
    let mut start: usize = 0;
    let mut left = entries;
    'slots: while let Some((entry, behind)) = left.split_first() {
        let other = key_at(text, start, entry.key as usize)?;
        match compare_keys(new, other) {
            Ordering::Less => return Some((index, start)),
            Ordering::Equal => return None,
            Ordering::Greater => {}
        }
        start = start.checked_add(entry.size as usize)?;
        index = index.checked_add(1)?;
        left = behind;
    }
    Some((index, start))
}

/// A key without its quotes, given where it begins and how many bytes it takes with them.
#[inline(always)]
pub(crate) fn key_at(text: &[u8], start: usize, key: usize) -> Option<&[u8]>
    ensures { (front : List ℕ) (k : List ℕ) (rest : List ℕ) → text.now ≡ front ++ (quoted k ++ rest) → length front ≡ start → length (quoted k) ≡ key → IfSome result (λ s. s.now ≡ escape k) }
{
    let from = text.get(start..)?;
    let whole = from.get(..key)?;
    whole.get(1..key.checked_sub(1)?)
}

/// Puts the last bytes of those between two offsets before the others, by way of a buffer.
#[inline(always)]
pub(crate) fn move_back(
    text: &mut [u8],
    start: usize,
    end: usize,
    size: usize,
    buffer: &mut Vec<u8>,
) -> Result<(), AllocError>
    requires room { start + size ≤ end }
    requires within { end ≤ length text.old }
    ensures { OnOk result ((front back new rest : List ℕ) → text.old ≡ front ++ (back ++ (new ++ rest)) → length front ≡ start → length new ≡ size → start + length back + size ≡ end
        → text.new ≡ front ++ (new ++ (back ++ rest))) }
{
    if start + size == end {
        return Ok(());
    }
    turn(text, start, end, end - size, buffer)
}

// Puts the bytes from the middle on before the others.
#[inline(never)]
fn turn(
    text: &mut [u8],
    start: usize,
    end: usize,
    middle: usize,
    buffer: &mut Vec<u8>,
) -> Result<(), AllocError>
    requires order { (start ≤ middle) × (middle ≤ end) }
    requires within { end ≤ length text.old }
    ensures { OnOk result ((front back new rest : List ℕ) → text.old ≡ front ++ (back ++ (new ++ rest)) → length front ≡ start → length front + length back ≡ middle → middle + length new ≡ end
        → text.new ≡ front ++ (new ++ (back ++ rest))) }
{
    fill(buffer, &text[middle..end], &text[start..middle])?;
    text[start..end].copy_from_slice(buffer.as_slice());
    Ok(())
}

#[inline(always)]
fn fill(buffer: &mut Vec<u8>, front: &[u8], back: &[u8]) -> Result<(), AllocError>
    ensures { OnOk result (buffer.new.items ≡ front.now ++ back.now) }
{
    buffer.clear();
    buffer.extend_from_slice(front)?;
    buffer.extend_from_slice(back)
}
