// The members of a map: their lengths, and how they are written.
ghost use Rattle.std.specs.Prelude.{◌≡◌, ◌≢◌, ◌<◌, ◌≤◌, nat_lt, ◌++◌, ◌∷◌, [], List, length, false, ◌+◌, ℕ, IfSome, MatchOption, option_map};
ghost use Rattle.std.specs.List.{All};
ghost use Rattle.compact.specs.declared.table.Entry.{Entry as Lengths};
ghost use Rattle.serde_json.specs.Data.{Members, no_members, object};
ghost use Rattle.serde_json.specs.Find.{get_member};
ghost use Rattle.serde_json.specs.Written.{compact_text};
ghost use Rattle.compact.specs.Notes.{AreEntries};
ghost use Rattle.compact.specs.Fields.{IsLeft, IsFirst};

use std::marker::Model;

/// A member of a map by its lengths: that of its key with the quotes, and that of the whole member with the comma or the brace
/// that ends it.
#[derive(Clone, Copy, Drop)]
pub struct Entry {
    pub key: u32,
    pub size: u32,
}

impl Entry {
    /// The entry of those two lengths, if they are below 4 GiB.
    #[inline(always)]
    pub(crate) fn of(key: usize, size: usize) -> Option<Entry>
        ensures { IfSome result (λ entry. (entry.key ≡ key) × (entry.size ≡ size)) }
    {
        let key = u32::try_from(key).ok()?;
        let size = u32::try_from(size).ok()?;
        Some(Entry { key, size })
    }
}

/// The most members that a map may have.
const MOST: usize = 16;

/// The members of a map, in the order of its text.
#[derive(Drop)]
pub struct Table {
    entries: [Entry; MOST],
    count: usize,
    // The lengths of the shortest and of the longest key.
    shortest: u32,
    longest: u32,
}

impl Model for Table {
    ghost use Rattle.std.specs.Prelude.{◌≡◌, ◌≤◌, List, length, take};
    ghost use Rattle.std.specs.List.{All};
    ghost use Rattle.compact.specs.declared.table.Entry.{Entry as Lengths};

    ghost Value = { List Lengths };

    ghost view = { λ t. take t.count t.entries };

    ghost invariant = { λ t. (t.count ≤ 16) × (length t.entries ≡ 16)
        × All (λ e. (t.shortest ≤ e.key) × (e.key ≤ t.longest)) (take t.count t.entries) };
}

impl Table {
    /// A table of no members.
    #[inline(always)]
    pub(crate) fn new() -> Table
        ensures { result ≡ [] }
    {
        Table {
            entries: [Entry { key: 0, size: 0 }; MOST],
            count: 0,
            shortest: u32::MAX,
            longest: 0,
        }
    }

    /// The members.
    #[inline(always)]
    pub fn as_slice(&self) -> &[Entry]
        ensures { result.now ≡ self.now }
    {
        &self.entries[..self.count]
    }

    /// Whether there is room for another.
    #[inline(always)]
    pub(crate) fn has_room(&self) -> bool
        ensures { result ≡ nat_lt (length self.now) 16 }
    {
        self.count < MOST
    }

    /// Whether a member may have a key of that length, with its quotes.
    #[inline(always)]
    pub(crate) fn may_have(&self, size: usize) -> bool
        ensures { result ≡ false → All (λ e. e.key ≢ size) self.now }
    {
        self.shortest as usize <= size && size <= self.longest as usize
    }

    /// Inserts a member at an index; those after it move up.
    #[inline(always)]
    pub(crate) fn insert(&mut self, index: usize, entry: Entry)
        requires below { index ≤ length self.old }
        requires few { length self.old < 16 }
        ensures { (front back : List Lengths) → self.old ≡ front ++ back → length front ≡ index → self.new ≡ front ++ entry ∷ back }
    {
        self.entries.copy_within(index..self.count, index + 1);
        self.entries[index] = entry;
        self.count += 1;
        self.shortest = self.shortest.min(entry.key);
        self.longest = self.longest.max(entry.key);
    }
}

/// A member: its key without the quotes, and its value, as they are written.
#[derive(Clone, Copy, Drop)]
pub struct Field<'t> {
    pub key: &'t [u8],
    pub value: &'t [u8],
}

/// Members that are still to come: their text up to the end of the map, and their lengths.
#[derive(Clone, Copy, Drop)]
pub struct Fields<'t, 'e> {
    pub left: &'t [u8],
    pub entries: &'e [Entry],
}

impl<'t, 'e> Fields<'t, 'e> {
    /// The first member, and those after it.
    #[inline(always)]
    pub fn split_first(self) -> Option<(Field<'t>, Fields<'t, 'e>)>
        ensures first { (ms : Members) → IsLeft ms self.entry.left.now → AreEntries self.entry.entries.now ms
            → MatchOption result (ms ≡ no_members) (λ p. IsFirst ms p.0.key.now p.0.value.now p.1.left.now p.1.entries.now) }
        ensures fewer { IfSome result (λ p. length p.1.entries.now < length self.entry.entries.now) }
    {
        let (entry, entries) = self.entries.split_first()?;
        let key = entry.key as usize;
        let size = entry.size as usize;
        let name = part(self.left, 1, key.saturating_sub(1));
        let behind = rest_from(self.left, key);
        let value = part(behind, 1, size.saturating_sub(key).saturating_sub(1));
        let left = rest_from(self.left, size);
        Some((Field { key: name, value }, Fields { left, entries }))
    }
}

impl Table {
    /// The members of a map of that text, whose table this is.
    #[inline(always)]
    pub fn fields<'t>(&self, text: &'t [u8]) -> Fields<'t, '_>
        ensures { (ms : Members) → text.now ≡ compact_text (object ms) → AreEntries self.now ms
            → IsLeft ms result.left.now × AreEntries result.entries.now ms }
    {
        Fields {
            left: rest_from(text, 1),
            entries: self.as_slice(),
        }
    }

    /// The value of the member of that name, as it is written, of a map of that text, whose table this is.
    #[inline(always)]
    pub fn find<'t>(&self, text: &'t [u8], name: &[u8]) -> Option<&'t [u8]>
        ensures { (ms : Members) → text.now ≡ compact_text (object ms) → AreEntries self.now ms
            → option_map (λ v. v.now) result ≡ option_map compact_text (get_member name.now ms) }
    {
        let size = name.len() + 2;
        if !self.may_have(size) {
            return None;
        }
        // The members still to come, and where the first of them begins.
        let mut entries = self.as_slice();
        let mut at: usize = 1;
        'members: while let Some((entry, others)) = entries.split_first() {
            // Most other members have a key of another length; lengths in the table include the quotes.
            if entry.key as usize == size {
                let left = rest_from(text, at);
                let (field, _others) = Fields { left, entries }.split_first()?;
                if field.key == name {
                    return Some(field.value);
                }
            }
            at = at.wrapping_add(entry.size as usize);
            entries = others;
        }
        None
    }
}

// The bytes between two offsets.
#[inline(always)]
fn part(text: &[u8], start: usize, end: usize) -> &[u8]
    ensures { (front middle back : List ℕ) → text.now ≡ front ++ (middle ++ back) → length front ≡ start → length front + length middle ≡ end → result.now ≡ middle }
{
    if start <= end && end <= text.len() {
        &text[start..end]
    } else {
        &[]
    }
}

// The bytes from an offset on.
#[inline(always)]
fn rest_from(text: &[u8], start: usize) -> &[u8]
    ensures { (front back : List ℕ) → text.now ≡ front ++ back → length front ≡ start → result.now ≡ back }
{
    if start <= text.len() {
        &text[start..]
    } else {
        &[]
    }
}
