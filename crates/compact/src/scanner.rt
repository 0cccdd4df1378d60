// Lines, one after another.
ghost use Rattle.std.specs.Prelude.{◌≡◌, IsTrue, ◌≤◌, length, IfSome};
ghost use Rattle.compact.specs.Notes.{with_table, IsNoted, Told};
ghost use Rattle.compact.specs.Reads.{IsSorted};
ghost use Rattle.compact.specs.Levels.{below};
ghost use Rattle.compact.specs.Ordered.{IsOrdered, AreOrderedItems, AreOrderedMembers, IsOrderedMember};
ghost use Rattle.compact.specs.declared.scanner.Level.TheVariants.{Other};

use crate::place::{key_at, move_back, place_of};
use crate::scalars::scalar_rest;
use crate::table::{Entry, Table};
use crate::texts::plain_text_end;
use std::alloc::Global;

/// The members of a line, of its member `object`, and of that one's member `metadata`. If there is no such map, the
/// table may be that of an earlier line.
#[derive(Drop)]
pub struct Tables {
    pub line: Table,
    pub object: Table,
    pub metadata: Table,
}

/// Where a value is: the line, its member `object`, that one's member `metadata`, or elsewhere.
#[derive(Clone, Copy, Drop)]
enum Level {
    Line,
    Object,
    Metadata,
    Other,
}

impl Level {
    /// Where the member of that key is.
    #[inline(always)]
    fn below(self, key: &[u8]) -> Level
        ensures { result ≡ below self key.now }
    {
        match self {
            Level::Line if key == b"object".as_slice() => Level::Object,
            Level::Object if key == b"metadata".as_slice() => Level::Metadata,
            _ => Level::Other,
        }
    }
}

/// How deep the lists and maps of a line may nest.
const MAX_DEPTH: usize = 16;

/// Puts lines into order, one after another, in memory that it keeps from line to line.
#[derive(Drop)]
pub struct Scanner {
    tables: Tables,
    moved: Vec<u8>,
}

impl Scanner {
    /// A scanner that has seen no line.
    pub fn new(alloc: Global) -> Scanner {
        Scanner {
            tables: Tables {
                line: Table::new(),
                object: Table::new(),
                metadata: Table::new(),
            },
            moved: Vec::new(alloc),
        }
    }

    /// Where the members of the last accepted line are: those of its map, of the map `object` in it, and of `metadata`
    /// in that one.
    pub fn tables(&self) -> &Tables
        ensures { result.now ≡ self.now.tables }
    {
        &self.tables
    }

    /// Puts the members of a line's maps into byte order, if it is JSON with no space in it, in which each text and
    /// number is written as it is printed, no key has an escape or comes twice in a map, no map has more than 16
    /// members, and lists and maps nest at most 16 deep. Returns whether it did: then the line was JSON of whole
    /// numbers, and is now the compact text of its value, with tables of its members. If not, its bytes may no longer
    /// be a text. No clause says which lines it accepts, or what is left of others: tests do.
    pub fn scan(&mut self, line: &mut [u8]) -> bool
        ensures { IsTrue result → IsSorted line.old line.new self.new.tables }
    {
        match put_in_order(line, MAX_DEPTH, Level::Line, self) {
            Some(size) => size == line.len(),
            None => false,
        }
    }

    /// Keeps the table of a map of that level.
    fn keep(&mut self, level: Level, table: Table)
        ensures { self.new.tables ≡ with_table level self.old.tables table }
    {
        match level {
            Level::Line => self.tables.line = table,
            Level::Object => self.tables.object = table,
            Level::Metadata => self.tables.metadata = table,
            Level::Other => {}
        }
    }
}

/// Puts the members of the maps of the value that begins here into byte order, and returns how many bytes it takes, if
/// it is compact and nests at most so deep. What comes after it stays. With `None` the bytes may no longer be a text.
#[cycle(order)]
#[inline(always)]
fn put_in_order(text: &mut [u8], depth: usize, level: Level, scanner: &mut Scanner) -> Option<usize>
    ensures ordered { IfSome result (λ n. IsOrdered depth (IsNoted level scanner.old.tables scanner.new.tables) text.old text.new n) }
    ensures within { IfSome result (λ n. n ≤ length text.old) }
{
    if let Some(size) = plain_text_end(text) {
        return Some(size);
    }
    let (first, _behind) = text.split_first()?;
    let first = *first;
    if first == b'{' || first == b'[' {
        return nested_end(text, depth, level, scanner);
    }
    let rest = scalar_rest(text)?;
    Some(text.len() - rest.len())
}

// The same for a map or a list. Most values are plain texts, and need no call.
#[cycle(order)]
#[inline(never)]
fn nested_end(text: &mut [u8], depth: usize, level: Level, scanner: &mut Scanner) -> Option<usize>
    ensures ordered { IfSome result (λ n. IsOrdered depth (IsNoted level scanner.old.tables scanner.new.tables) text.old text.new n) }
    ensures within { IfSome result (λ n. n ≤ length text.old) }
{
    if depth == 0 {
        return None;
    }
    let (first, _behind) = text.split_first()?;
    let first = *first;
    if first == b'{' {
        let size = members_end(&mut text[1..], depth - 1, level, scanner)?;
        return Some(size + 1);
    }
    if first != b'[' {
        return None;
    }
    let size = items_end(&mut text[1..], depth - 1, scanner)?;
    Some(size + 1)
}

// Where the bracket that closes a list ends, given what follows the one that opens it.
#[cycle(order)]
fn items_end(text: &mut [u8], depth: usize, scanner: &mut Scanner) -> Option<usize>
    ensures ordered { IfSome result (λ n. AreOrderedItems depth text.old text.new n) }
    ensures within { IfSome result (λ n. n ≤ length text.old) }
    ensures kept { IfSome result (λ _. scanner.new.tables ≡ scanner.old.tables) }
{
    let (first, _behind) = text.split_first()?;
    let first = *first;
    if first == b']' {
        return Some(1);
    }
    let mut at: usize = 0;
    'items: loop {
        let end = at + put_in_order(&mut text[at..], depth, Level::Other, scanner)?;
        let (byte, _behind) = text[end..].split_first()?;
        let byte = *byte;
        if byte == b']' {
            return Some(end + 1);
        }
        if byte != b',' {
            return None;
        }
        at = end + 1;
    }
}

// Where the brace that closes a map ends, given what follows the one that opens it.
#[cycle(order)]
fn members_end(text: &mut [u8], depth: usize, level: Level, scanner: &mut Scanner) -> Option<usize>
    ensures ordered { IfSome result (λ n. AreOrderedMembers depth (λ ms. Told level scanner.new.tables ms × (level ≡ Other → scanner.new.tables ≡ scanner.old.tables)) text.old text.new n) }
    ensures within { IfSome result (λ n. n ≤ length text.old) }
{
    let (first, _behind) = text.split_first()?;
    let first = *first;
    let mut table = Table::new();
    if first == b'}' {
        scanner.keep(level, table);
        return Some(1);
    }
    let mut at: usize = 0;
    'members: loop {
        if !table.has_room() {
            return None;
        }
        let (key, size) = member_end(&mut text[at..], depth, level, scanner)?;
        let end = at + size;
        let (byte, _behind) = text[end..].split_first()?;
        let byte = *byte;
        // The comma moves with its member, and the last one becomes the brace.
        text[end] = b',';
        let (index, start) = place_of(text, table.as_slice(), at, key)?;
        if index > table.as_slice().len() || start > at {
            return None;
        }
        let Ok(()) = move_back(text, start, end + 1, size + 1, &mut scanner.moved) else {
            return None;
        };
        let entry = Entry::of(key, size + 1)?;
        table.insert(index, entry);
        at = end + 1;
        if byte == b'}' {
            text[end] = b'}';
            scanner.keep(level, table);
            return Some(at);
        }
        if byte != b',' {
            return None;
        }
    }
}

// How many bytes the key takes of the member that begins here, with its quotes, and how many the member.
#[cycle(order)]
fn member_end(
    text: &mut [u8],
    depth: usize,
    level: Level,
    scanner: &mut Scanner,
) -> Option<(usize, usize)>
    ensures ordered { IfSome result (λ n. IsOrderedMember depth (λ k d. IsNoted (below level k) scanner.old.tables scanner.new.tables d) text.old text.new n.0 n.1) }
    ensures within { IfSome result (λ n. n.1 ≤ length text.old) }
{
    let key = plain_text_end(text)?;
    let (colon, _behind) = text[key..].split_first()?;
    if *colon != b':' {
        return None;
    }
    let name = key_at(text, 0, key)?;
    let inner = level.below(name);
    let size = put_in_order(&mut text[key + 1..], depth, inner, scanner)?;
    Some((key, key + 1 + size))
}
