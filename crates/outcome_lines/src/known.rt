// What is known of the objects that ends show.
ghost use Rattle.std.specs.Prelude.{◌≡◌};
ghost use Rattle.outcome_lines.specs.ObjectWords.{differs, is_above, is_anew, known_of};

use crate::numbers::{Numbers, number_of, times_of};

/// Of how many objects each text is true; and the first UID of each name, at the beginning and in one end.
#[derive(Clone, Copy, Drop)]
pub(crate) struct KnownNumbers<'a> {
    pub(crate) counts: &'a Numbers,
    pub(crate) begun: &'a Numbers,
    pub(crate) here: &'a Numbers,
}

/// Whether an object of the name was there before the one with this UID.
pub(crate) fn is_anew(known: KnownNumbers<'_>, name: &[u8], uid: u64) -> bool
    ensures { result ≡ is_anew (known_of known.entry) name.now uid }
{
    is_above(uid, number_of(known.begun, name)) || is_above(uid, number_of(known.here, name))
}

fn is_above(uid: u64, first: Option<u64>) -> bool
    ensures { result ≡ is_above uid first }
{
    match first {
        Some(first) => first < uid,
        None => false,
    }
}

/// Whether some objects of which the one text is true lack the other.
pub(crate) fn differs(known: KnownNumbers<'_>, base: &[u8], text: &[u8]) -> bool
    ensures { result ≡ differs (known_of known.entry) base.now text.now }
{
    times_of(known.counts, base) != times_of(known.counts, text)
}
