// Where a text and its base are alike again, once they have differed. Both are JSON, so this is searched for at the
// quotes of names and texts.
ghost use Rattle.std.specs.Prelude.{◌≡◌, ◌≤◌, ◌<◌, length, map, take, IfSome};
ghost use Rattle.std.specs.Simd.Lanes.{mask_l};
ghost use Rattle.packed.specs.Alike.{differ, pairs};

use memchr::memchr;
use std::simd::prelude::*;

/// How many bytes have to be alike where two texts meet.
const WINDOW: usize = 8;

/// How many quotes of the base are looked at for each of the text.
const AHEAD: usize = 24;

/// How many bytes of the base these are at most.
const REACH: usize = 4_096;

/// How many of these quotes may come before the text's own one, counted in quotes from where the two differ.
const BEHIND: usize = 12;

/// After so many quotes of a text that were searched for in vain, no more are searched for. The search for one goes no
/// farther than the reach, so the time of all of them has a bound, whatever the texts are.
pub(crate) const PATIENCE: usize = 1_024;

/// How many bytes are compared at a time.
const LANES: usize = 16;

/// A position in the text and one in the base, how many bytes of the base are between it and what was copied last, and
/// how many more quotes may be searched for in vain.
#[derive(Clone, Copy, Drop)]
pub(crate) struct Meeting {
    pub(crate) text: usize,
    pub(crate) base: usize,
    pub(crate) skipped: usize,
    pub(crate) patience: usize,
}

/// The first position at which they meet; the end of the text if they do not.
pub(crate) fn next_meeting(base: &[u8], text: &[u8], patience: usize) -> Meeting
    ensures text { result.text ≤ length text.now }
    ensures base { result.base ≤ length base.now }
{
    let mut near = quote_from(base, 0);
    let mut place = quote_from(text, 0);
    for turn in 0..patience {
        let Some(window) = window_at(text, place) else {
            break;
        };
        if let Some(found) = find_window(base, near, window) {
            return Meeting {
                text: place,
                base: found,
                skipped: found,
                patience: patience - turn,
            };
        }
        place = quote_behind(text, place);
        if turn >= BEHIND {
            near = quote_behind(base, near);
        }
    }
    Meeting {
        text: text.len(),
        base: 0,
        skipped: 0,
        patience: 0,
    }
}

/// The position of these bytes at a quote of the base, from a position on and not far from it.
fn find_window(base: &[u8], near: usize, window: u64) -> Option<usize>
    requires { near ≤ length base.now }
    ensures { IfSome result (λ place. place ≤ length base.now) }
{
    let base = &base[..near + (base.len() - near).min(REACH)];
    let mut place = near;
    for _ in 0..AHEAD {
        match window_at(base, place) {
            Some(found) => {
                if found == window {
                    return Some(place);
                }
            }
            None => return None,
        }
        place = quote_behind(base, place);
    }
    None
}

/// The bytes at a position, if they do not end before.
fn window_at(bytes: &[u8], place: usize) -> Option<u64>
    requires { place ≤ length bytes.now }
{
    let (window, _) = bytes[place..].split_first_chunk::<WINDOW>()?;
    Some(u64::from_le_bytes(*window))
}

/// The position of the first quote after a position, or the end.
fn quote_behind(bytes: &[u8], place: usize) -> usize
    requires { place ≤ length bytes.now }
    ensures { result ≤ length bytes.now }
{
    if place < bytes.len() {
        quote_from(bytes, place + 1)
    } else {
        place
    }
}

/// The position of the first quote from a position on, or the end.
fn quote_from(bytes: &[u8], place: usize) -> usize
    requires { place ≤ length bytes.now }
    ensures { result ≤ length bytes.now }
{
    let rest = &bytes[place..];
    // Most values are no longer than a vector, and a search for more costs more to begin.
    if rest.len() >= LANES {
        let quotes = u8x16::from_slice(rest)
            .simd_eq(u8x16::splat(b'"'))
            .to_bitmask();
        if quotes != 0 {
            return bytes.len().min(place + quotes.trailing_zeros() as usize);
        }
    }
    match memchr(b'"', rest) {
        Some(skipped) => place + skipped,
        None => bytes.len(),
    }
}

/// How many bytes both begin with alike.
pub(crate) fn common_length(left: &[u8], right: &[u8]) -> usize
    ensures left { result ≤ length left.now }
    ensures right { result ≤ length right.now }
    ensures alike { take result left.now ≡ take result right.now }
{
    let shorter = left.len().min(right.len());
    let mut at = 0;
    'vectors: while shorter - at >= LANES {
        let differ = differences(
            u8x16::from_slice(&left[at..]),
            u8x16::from_slice(&right[at..]),
        );
        if differ != 0 {
            return at + differ.trailing_zeros() as usize;
        }
        at += LANES;
    }
    common_rest(left, right, at)
}

// Which of the bytes differ.
#[inline(always)]
fn differences(left: u8x16, right: u8x16) -> u64
    ensures { result ≡ mask_l (map differ (pairs left right)) }
{
    left.simd_ne(right).to_bitmask()
}

// The same a byte at a time, for the last ones.
fn common_rest(left: &[u8], right: &[u8], from: usize) -> usize
    requires left { from ≤ length left.now }
    requires right { from ≤ length right.now }
    requires alike { take from left.now ≡ take from right.now }
    ensures left { result ≤ length left.now }
    ensures right { result ≤ length right.now }
    ensures alike { take result left.now ≡ take result right.now }
{
    let mut at = from;
    'bytes: while at < left.len() && at < right.len() && left[at] == right[at] {
        at += 1;
    }
    at
}
