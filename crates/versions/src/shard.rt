ghost use Rattle.std.specs.Prelude.{◌≡◌, ◌++◌, ◌∷◌, [], ◌<◌, ◌≤◌, ℕ, true, Some, IfOk, IfSome, OnOk, OnErr, option_map, if◌then◌else◌};
ghost use Rattle.std.specs.Option.{option_copied};
ghost use Rattle.std.specs.VecDeque.{deque_capacity, deque_len};
ghost use Rattle.std.specs.FinMap as map;
ghost use Rattle.objects.specs.declared.key.Key.{Key};
ghost use Rattle.requests.specs.Keys.{key_named};
ghost use Rattle.version_map.specs.Keyed.{collection};
ghost use Rattle.requests.specs.Verdict.{is_write, verdict};
ghost use Rattle.versions.specs.Records.{IsAbove, current, newest, state_at, value};
ghost use Rattle.versions.specs.Shard.{opening, pushed, raised, with_room};

use objects::{Key, Kind, Memory, Object, Text};
use requests::{Request, Verdict, Version, decide};
use std::alloc::Global;
use std::collections::VecDeque;
use std::marker::Model;
use version_map::VersionMap;

/// A key and the number of a removal of it, which waits for a compaction.
#[derive(Drop)]
struct Removal {
    number: u64,
    key: Key,
}

/// One shard of a multiversion store: for each of its keys, what it was at each number from the floor on.
///
/// A record is what a key is from its number on: an object, or none after a removal. A read at a number finds the
/// record with the largest number up to that one. Numbers below the floor are no longer read, so that records which
/// only they need can be dropped.
///
/// A key that was created at 3, updated at 5, removed at 8 and created again at 9:
///
/// | Read at | 1, 2 | 3, 4 | 5, 6, 7 | 8 | 9 and on |
/// |---|---|---|---|---|---|
/// | answer | none | the first object | the updated one | none | the new object |
///
/// A compaction to 6 drops the record 3, which was superseded at 5; reads at 6 and 7 still need 5. One to 8 drops 5 too,
/// and one to 9 the removal. The newest record of a key stays, also if it is a removal: it says when the key was last
/// written.
#[derive(Drop)]
pub struct Shard {
    versions: VersionMap<Object>,
    // In the order of their numbers, with room for one more whenever the versions have room for a push.
    removed: VecDeque<Removal>,
    alloc: Global,
}

impl Model for Shard {
    ghost use Rattle.std.specs.Prelude.{◌<◌, IsSome};
    ghost use Rattle.std.specs.VecDeque.{deque_capacity, deque_len};
    ghost use Rattle.versions.specs.Held.{AreRows, records_of, shard_of};
    ghost use Rattle.versions.specs.Shard.{Shard, shard_coded};

    ghost Value = { Shard };

    ghost coded = { shard_coded };

    ghost view = { λ s. shard_of s.versions };

    ghost invariant = { λ s. AreRows s.versions.rows (records_of s.versions.rows)
        × (IsSome s.versions.room → deque_len s.removed < deque_capacity s.removed) };
}

impl Shard {
    /// A shard with no records, whose floor is 0.
    pub fn new(alloc: Global) -> Shard
        ensures { result ≡ opening }
    {
        Shard {
            versions: VersionMap::new(alloc),
            removed: VecDeque::new(alloc),
            alloc,
        }
    }

    /// The number of the key's newest record, and the object; a removal has none. It is the record with the largest
    /// number.
    pub fn newest(&self, key: &Key) -> Option<(u64, Option<&Object>)>
        ensures { option_map (λ p. (p.0, option_copied p.1)) result ≡ newest self.now.records key.now }
    {
        self.versions.newest(key)
    }

    /// What the key was at a number, from the floor on.
    pub fn at(&self, key: &Key, number: u64) -> Option<&Object>
        requires { self.now.floor ≤ number }
        ensures { option_copied result ≡ value self.now.records number key.now }
    {
        self.versions.at(key, number)
    }

    /// The objects of a kind in a namespace at a number, from the floor on, each once, in byte order of their names.
    pub fn list_at(&self, kind: Kind, namespace: &Text, number: u64) -> Result<Vec<Object>, Memory>
        requires { self.now.floor ≤ number }
        ensures { IfOk result (λ objects. objects.items ≡ collection (state_at self.now.records number) kind namespace.now) }
    {
        let listed = self.versions.list_at(kind, namespace, number)?;
        let mut found = Vec::new(self.alloc);
        for object in listed {
            found.push(object.clone()?)?;
        }
        Ok(found)
    }

    /// What a write request does, given the key's newest record (`requests::decide`).
    pub fn verdict(&self, request: &Request) -> Result<Verdict, Memory>
        requires { is_write request.now ≡ true }
        ensures { IfOk result (λ decided. IfSome (key_named request.now) (λ key. decided ≡ verdict request.now (current self.now.records key))) }
    {
        let Some(key) = request.key() else {
            unreachable!();
        };
        decide(self.current(key), request)
    }

    /// What the key is now.
    fn current(&self, key: &Key) -> Option<&Object>
        ensures { option_copied result ≡ current self.now.records key.now }
    {
        match self.newest(key) {
            Some((_, object)) => object,
            None => None,
        }
    }

    /// Makes room for one push of that key, instead of any room that was made before. All readings stay. If memory runs
    /// out, the room that was made before stays too.
    pub fn make_room(&mut self, key: &Key) -> Result<(), Memory>
        ensures made { OnOk result (self.new ≡ with_room self.old key.now) }
        ensures memory { OnErr result (self.new ≡ self.old) }
    {
        // For the case that the push is a removal.
        self.removed.reserve(1)?;
        self.versions.make_room(key)
    }

    /// Adds a record of the key that room was made for, at a number above all others, and uses the room up. All else
    /// stays. It allocates nothing.
    pub fn push(&mut self, number: u64, version: Version)
        requires room { self.old.room ≡ Some version.key }
        requires above { IsAbove self.old.records number }
        ensures { self.new ≡ pushed self.old number version }
    {
        let Version { key, state } = version;
        enqueue(&mut self.removed, state.is_none(), Removal { number, key });
        self.versions.push(number, state);
    }

    /// Raises the floor to a number, and drops what is no longer read: of each key's records up to it, all but the
    /// last. A number below the floor changes nothing. What each key is now stays, and so do all readings from the
    /// floor on, and room that was made. Its time is that of the records dropped and of those that the floor has
    /// reached, each of which is looked at once. Lists no longer walk over keys of which only a removal is left. That
    /// alone takes memory, and where it is refused, lists walk over the key as before.
    pub fn compact(&mut self, number: u64)
        ensures raised { self.new ≡ raised self.old number }
        ensures newest { (key : Key) → newest self.new.records key ≡ newest self.old.records key }
        ensures readings { (m : ℕ) → self.new.floor ≤ m → state_at self.new.records m ≡ state_at self.old.records m }
        ensures values { (m : ℕ) (key : Key) → self.new.floor ≤ m → value self.new.records m key ≡ value self.old.records m key }
    {
        self.versions.compact(number);
        hide_removed(&mut self.removed, &mut self.versions);
    }

    /// The number from which on the shard can be read.
    pub fn floor(&self) -> u64
        ensures { result ≡ self.now.floor }
    {
        self.versions.floor()
    }

    /// How many records there are.
    pub fn records(&self) -> usize
        ensures { result ≡ map.len self.now.records }
    {
        self.versions.records()
    }
}

/// Puts a write of a key into the queue, if it is a removal.
fn enqueue(removed: &mut VecDeque<Removal>, is_removal: bool, next: Removal)
    requires { deque_len removed.old < deque_capacity removed.old }
    ensures { removed.new.items ≡ (if is_removal then removed.old.items ++ next ∷ [] else removed.old.items) }
{
    if is_removal {
        removed.push_back_reserved(next);
    }
}

/// Keeps lists from walking over the keys of which only a removal up to the floor is left, and takes those out of the
/// queue.
fn hide_removed(removed: &mut VecDeque<Removal>, versions: &mut VersionMap<Object>)
    ensures same { versions.new ≡ versions.old }
    ensures room { deque_len removed.old < deque_capacity removed.old → deque_len removed.new < deque_capacity removed.new }
{
    let floor = versions.floor();
    for _ in 0..removed.len() {
        let Some(next) = next_removal(removed, floor) else {
            break;
        };
        note_newest(versions, &next);
    }
    versions.hide_removed();
}

/// Takes the first removal from the queue, if its number is at most the floor.
fn next_removal(removed: &mut VecDeque<Removal>, floor: u64) -> Option<Removal>
    ensures { deque_len removed.old < deque_capacity removed.old → deque_len removed.new < deque_capacity removed.new }
{
    if floor < removed.front()?.number {
        return None;
    }
    removed.pop_front()
}

/// Notes a removal to be hidden, unless its key was written since.
fn note_newest(versions: &mut VersionMap<Object>, removal: &Removal)
    ensures { versions.new ≡ versions.old }
{
    if let Some((number, _)) = versions.newest(&removal.key) {
        if number == removal.number {
            versions.note_removal(&removal.key);
        }
    }
}
