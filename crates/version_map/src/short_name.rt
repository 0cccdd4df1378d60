// A short name in the value itself, in a form that compares as two numbers do.
ghost use Rattle.std.specs.Prelude.{◌≡◌, ◌+◌, ◌≤◌, ◌<◌, length, IfSome, IfNone};
ghost use Rattle.std.specs.Ordering.{nat_cmp, ordering_then};
ghost use Rattle.version_map.specs.ShortName.{word_at};

use std::cmp::Ordering;
use std::marker::Model;

/// How many bytes are compared as one number.
const WORD: usize = 8;

/// How many bytes a short name is held in.
const HELD: usize = 2 * WORD;

/// The most bytes of a short name. The last of those that hold it counts them.
const MOST: usize = HELD - 1;

/// A name of at most 15 bytes, which a clause sees as its bytes. Zeros follow it, and its length is the last byte. So
/// two of them, read as numbers, are in the order of the names, and a search compares them in a few steps.
#[derive(Drop)]
pub(crate) struct ShortName {
    bytes: [u8; HELD],
}

impl Model for ShortName {
    ghost use Rattle.std.specs.Prelude.{ℕ, List};
    ghost use Rattle.version_map.specs.ShortName.{IsShort, text_in};

    ghost Value = { List ℕ };

    ghost view = { λ n. text_in n.bytes };

    ghost invariant = { λ n. IsShort n.bytes };
}

impl ShortName {
    /// The name, if it is short.
    pub(crate) fn of(name: &str) -> Option<ShortName>
        ensures short { IfSome result (λ n. (n ≡ name.now) × (length name.now ≤ 15)) }
        ensures long { IfNone result (15 < length name.now) }
    {
        let count = name.len();
        if MOST < count {
            return None;
        }
        let mut bytes = [0_u8; HELD];
        bytes[..count].copy_from_slice(name.as_bytes());
        bytes[MOST] = count as u8;
        Some(ShortName { bytes })
    }

    pub(crate) fn as_bytes(&self) -> &[u8]
        ensures { result.now ≡ self.now }
    {
        &self.bytes[..self.bytes[MOST] as usize]
    }
}

/// The order of two by their bytes. A search goes on while the left one is greater, so this is decided first, mostly
/// from the first words alone.
#[inline(always)]
fn order(left: &[u8; HELD], right: &[u8; HELD]) -> Ordering
    ensures { result ≡ ordering_then (nat_cmp (word_at 0 left.now) (word_at 0 right.now)) (nat_cmp (word_at 8 left.now) (word_at 8 right.now)) }
{
    let (left_high, right_high) = (word(left, 0), word(right, 0));
    if left_high > right_high {
        return Ordering::Greater;
    }
    if left_high < right_high {
        return Ordering::Less;
    }
    word(left, WORD).cmp(&word(right, WORD))
}

/// The bytes of a word from an index on, as a number.
#[inline(always)]
fn word(bytes: &[u8; HELD], from: usize) -> u64
    requires { from + WORD ≤ HELD }
    ensures { result ≡ word_at from bytes.now }
{
    let Some((word, _)) = bytes[from..].split_first_chunk::<WORD>() else {
        unreachable!();
    };
    u64::from_be_bytes(*word)
}

impl PartialEq for ShortName {
    ghost use Rattle.std.specs.Prelude.{nat_eq};
    ghost use Rattle.std.specs.Cmp.{partial_equiv_from_equiv};
    ghost use Rattle.std.specs.Cmp.Lexicographic.{nat_list_eq_equiv, pointwise};

    ghost eq = { pointwise nat_eq };

    ghost laws = { partial_equiv_from_equiv nat_list_eq_equiv };

    fn eq(&self, other: &ShortName) -> bool {
        self.as_bytes() == other.as_bytes()
    }
}

impl Eq for ShortName {
    ghost use Rattle.std.specs.Cmp.Lexicographic.{nat_list_eq_equiv};

    ghost laws = { nat_list_eq_equiv };
}

impl PartialOrd for ShortName {
    ghost use Rattle.std.specs.Prelude.{Some};
    ghost use Rattle.std.specs.Ordering.{nat_cmp};
    ghost use Rattle.std.specs.Cmp.Lexicographic.{slice_cmp, texts_po};

    ghost partial_cmp = { λ s t. Some (slice_cmp nat_cmp s t) };

    ghost laws = { texts_po };

    fn partial_cmp(&self, other: &ShortName) -> Option<Ordering> {
        Some(self.cmp(other))
    }
}

/// In the order of their bytes.
impl Ord for ShortName {
    ghost use Rattle.std.specs.Prelude.{refl};
    ghost use Rattle.std.specs.Ordering.{nat_cmp};
    ghost use Rattle.std.specs.Cmp.Lexicographic.{nat_list_cmp_total, slice_cmp, texts_ties};

    ghost cmp = { slice_cmp nat_cmp };

    ghost total = { nat_list_cmp_total };

    ghost matches_partial_cmp = { λ s t. refl };

    ghost matches_eq = { texts_ties };

    #[inline(always)]
    fn cmp(&self, other: &ShortName) -> Ordering {
        order(&self.bytes, &other.bytes)
    }
}
