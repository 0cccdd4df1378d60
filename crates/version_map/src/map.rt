ghost use Rattle.std.specs.Prelude.{◌≡◌, ◌≢◌, ◌≤◌, ◌<◌, ◌+◌, ◌++◌, ◌∷◌, [], ℕ, is_some, length, option_and_then, true, false, None, Some, IsTrue, IfOk, IfSome, IsSome, OnOk, OnErr, option_map, map, if◌then◌else◌};
ghost use Rattle.std.specs.Option.{option_copied};
ghost use Rattle.std.specs.VecDeque.{deque_capacity, deque_len};
ghost use Rattle.std.specs.FinMap as finite;
ghost use Rattle.objects.specs.declared.key.Key.{Key};
ghost use Rattle.version_map.specs.Forgotten.{AreForgotten, AreFree};
ghost use Rattle.version_map.specs.Index.{AreKept};
ghost use Rattle.version_map.specs.Rows.{state_to};
ghost use Rattle.version_map.specs.Consistent.{HaveSlots, AreStill, is_roomy, rows_there, values_in};
ghost use Rattle.version_map.specs.Keyed.{collection, put_at};
ghost use Rattle.version_map.specs.Versions.{IsAbove, compacted, count, newest, opening, pushed, raised, state_at, value, with_room};

use crate::chain::Chain;
use crate::index::Index;
use objects::{Key, Kind, Memory, Text};
use std::alloc::{AllocError, Global};
use std::collections::VecDeque;
use std::marker::Model;

/// A version that follows another one of its key; that one can be dropped once nothing below the number is read.
#[derive(Drop)]
struct Superseding {
    number: u64,
    slot: usize,
}

/// A key that got a tombstone, and the number of its newest version then. The key is forgotten once the floor has
/// reached that number, if nothing was written since.
#[derive(Drop)]
struct Removal {
    number: u64,
    key: Key,
}

/// For each of its keys, what it was at each number from the floor on.
///
/// A version is what a key is from its number on: a value, or none after a removal. A read at a number finds the
/// version with the largest number up to that one. Numbers below the floor are no longer read, so that versions which
/// only they need can be dropped.
#[derive(Drop)]
pub struct VersionMap<V> {
    index: Index,
    chains: Vec<Chain<V>>,
    superseding: VecDeque<Superseding>,
    // In the order of their numbers, as far as the caller keeps it.
    removed: VecDeque<Removal>,
    // The slots of chains that no key has.
    free: VecDeque<usize>,
    count: usize,
    floor: u64,
    // The slot of the key that a push has room for.
    room: Option<usize>,
    // From this number on no key with a tombstone has a value.
    gone_since: u64,
    alloc: Global,
}

impl<V> Model for VersionMap<V> {
    ghost use Rattle.std.specs.Prelude.{◌<◌, ◌+◌, ◌^◌, IfSome, IsSome, length, option_and_then};
    ghost use Rattle.std.specs.VecDeque.{deque_capacity, deque_len};
    ghost use Rattle.version_map.specs.Forgotten.{AreFree};
    ghost use Rattle.version_map.specs.Versions.{Versions, versions_coded};
    ghost use Rattle.version_map.specs.Consistent.{AreListed, HasRoom, IsListed, IsConsistent, by_key, key_at};

    ghost Value = { Versions V };

    ghost coded = { versions_coded V.code };

    ghost view = { λ s. record { rows = by_key s.index.all s.chains.items; floor = s.floor; room = option_and_then (key_at s.index.all) s.room } };

    ghost invariant = { λ s. IsConsistent s.index.all s.chains.items s.superseding.items s.count
        × IfSome s.room (HasRoom s.index.all s.chains.items)
        × AreListed s.gone_since s.index s.chains.items × IfSome s.room (IsListed s.index)
        × (IsSome s.room → (deque_len s.superseding < deque_capacity s.superseding) × (s.count + 1 < 2 ^ 64))
        × AreFree s.index.all (length s.chains.items) s.free.items };
}

impl<V: Drop> VersionMap<V> {
    /// No versions, and the floor 0.
    pub fn new(alloc: Global) -> VersionMap<V>
        ensures { result ≡ opening }
    {
        VersionMap {
            index: Index::new(alloc),
            chains: Vec::new(alloc),
            superseding: VecDeque::new(alloc),
            removed: VecDeque::new(alloc),
            free: VecDeque::new(alloc),
            count: 0,
            floor: 0,
            room: None,
            gone_since: 0,
            alloc,
        }
    }

    /// Looks the key up, so that the next call for it need not search: until another key is looked up, a new one is put
    /// in, or one gets or loses a tombstone.
    pub fn look_up(&mut self, key: &Key)
        ensures { self.new ≡ self.old }
    {
        self.index.look_up(key);
    }

    /// The number of the key's newest version, and the value; a removal has none. It is the version with the largest
    /// number.
    pub fn newest(&self, key: &Key) -> Option<(u64, Option<&V>)>
        ensures { option_map (λ p. (p.0, option_copied p.1)) result ≡ newest self.now.rows key.now }
    {
        let slot = self.index.get(key)?;
        self.chains[slot].newest()
    }

    /// What the key was at a number, from the floor on.
    pub fn at(&self, key: &Key, number: u64) -> Option<&V>
        requires { self.now.floor ≤ number }
        ensures { option_copied result ≡ value self.now.rows number key.now }
    {
        let slot = self.index.get(key)?;
        self.chains[slot].at(number)
    }

    /// The values of a kind in a namespace at a number, from the floor on, each once, in byte order of their names. It
    /// walks over tombstones only below the newest removal that `set_tombstone` was called for.
    pub fn list_at(&self, kind: Kind, namespace: &Text, number: u64) -> Result<Vec<&V>, Memory>
        requires { self.now.floor ≤ number }
        ensures { IfOk result (λ values. map (λ v. v.now) values.items ≡ collection (state_at self.now.rows number) kind namespace.now) }
    {
        if self.gone_since <= number {
            let listed = self.index.of_listed(self.alloc, kind, namespace)?;
            return Ok(values_at(self.alloc, &self.chains, listed, number)?);
        }
        let slots = self.index.of(self.alloc, kind, namespace)?;
        Ok(values_at(self.alloc, &self.chains, slots, number)?)
    }

    /// Gives a key that has no value a tombstone, until room is made for it again. All readings stay. The key stays
    /// listed if it has a value, if memory runs out, or if room is made for a push.
    pub fn set_tombstone(&mut self, key: &Key)
        ensures { self.new ≡ self.old }
    {
        let Some(number) = self.removed_at(key) else {
            return;
        };
        self.note_removal(key);
        match self.room {
            Some(_) => {}
            None => {
                self.index.set_tombstone(self.alloc, key);
                self.gone_since = self.gone_since.max(number);
            }
        }
    }

    /// From which number on the key has no value; nothing if it has one now.
    fn removed_at(&self, key: &Key) -> Option<u64>
        ensures { IfSome result (λ since. (n : ℕ) → since ≤ n → value self.now.rows n key.now ≡ None) }
    {
        match self.index.get(key) {
            Some(slot) => self.chains[slot].removed_at(),
            None => Some(0),
        }
    }

    /// Notes a key that was removed, so that it can be hidden or forgotten once the floor has reached the removal. If
    /// memory runs out it is not noted, which changes no reading.
    pub fn note_removal(&mut self, key: &Key)
        ensures { self.new ≡ self.old }
    {
        if let Some((number, None)) = self.newest(key) {
            let _ = self.enqueue_removal(number, key);
        }
    }

    /// Puts a removal into the queue.
    fn enqueue_removal(&mut self, number: u64, key: &Key) -> Result<(), AllocError>
        ensures { self.new ≡ self.old }
    {
        self.removed.reserve(1)?;
        // Each key in the queue leaves a slot when it is forgotten, and then no memory may be needed.
        self.free.reserve(self.removed.len().saturating_add(1))?;
        let key = key.clone()?;
        self.removed.push_back_reserved(Removal { number, key });
        Ok(())
    }

    /// Makes room for one push of that key, instead of any room that was made before. All readings stay. If memory runs
    /// out, the room that was made before stays too.
    pub fn make_room(&mut self, key: &Key) -> Result<(), Memory>
        ensures made { OnOk result (self.new ≡ with_room self.old key.now) }
        ensures memory { OnErr result (self.new ≡ self.old) }
    {
        // The push will add one to the count, and has no way to refuse.
        if self.count == usize::MAX {
            return Err(Memory);
        }
        self.superseding.reserve(1)?;
        let slot = reserve_for(
            self.alloc,
            &mut self.index,
            &mut self.chains,
            &mut self.free,
            key,
        )?;
        self.room = Some(slot);
        Ok(())
    }

    /// Adds a version of the key that room was made for, at a number above all others, and uses the room up. All else
    /// stays. It allocates nothing.
    pub fn push(&mut self, number: u64, state: Option<V>)
        requires room { IsSome self.old.room }
        requires above { IsAbove self.old.rows number }
        ensures pushed { IfSome self.old.room (λ key. self.new ≡ pushed self.old number key state) }
        ensures written { IfSome self.old.room (λ key. state_at self.new.rows number ≡ put_at (state_at self.old.rows number) key state) }
    {
        let Some(slot) = self.room.take() else {
            unreachable!();
        };
        let chain = &mut self.chains[slot];
        let is_first = chain.is_empty();
        chain.push(number, state);
        enqueue(
            &mut self.superseding,
            is_first,
            Superseding { number, slot },
        );
        self.count += 1;
    }

    /// Raises the floor to a number, and drops what is no longer read: of each key's versions up to it, all but the
    /// last. A number below the floor changes nothing. What each key is now stays, and so do all readings from the
    /// floor on, and room that was made. It allocates nothing, and its time is that of the versions dropped and of
    /// those that the floor has reached, each of which is looked at once.
    pub fn compact(&mut self, number: u64)
        ensures raised { self.new ≡ raised self.old number }
        ensures newest { (key : Key) → newest self.new.rows key ≡ newest self.old.rows key }
        ensures readings { (m : ℕ) → self.new.floor ≤ m → state_at self.new.rows m ≡ state_at self.old.rows m }
        ensures values { (m : ℕ) (key : Key) → self.new.floor ≤ m → value self.new.rows m key ≡ value self.old.rows m key }
    {
        if number < self.floor {
            return;
        }
        while self.drop_next(number) {}
        self.floor = number;
    }

    /// Takes the first version from the queue, if its number is at most this one, and drops the version of its key
    /// before it. Returns whether it did.
    fn drop_next(&mut self, number: u64) -> bool
        ensures left { compacted self.new.rows number ≡ compacted self.old.rows number }
        ensures others { (self.new.floor ≡ self.old.floor) × (self.new.room ≡ self.old.room) }
        ensures fewer { IsTrue result → count self.new.rows < count self.old.rows }
        ensures none { result ≡ false → (self.new ≡ self.old) × (compacted self.old.rows number ≡ self.old.rows) }
    {
        let Some(next) = self.superseding.front() else {
            return false;
        };
        if number < next.number {
            return false;
        }
        let Some(next) = self.superseding.pop_front() else {
            unreachable!();
        };
        let chain = &mut self.chains[next.slot];
        chain.drop_first();
        self.count -= 1;
        true
    }

    /// Forgets the keys with a tombstone that have nothing but a removal that is not above the floor. While room is
    /// made for a push nothing is forgotten. All readings stay. It allocates nothing, and its time is that of the keys
    /// with a tombstone that the floor has reached, each of which is looked at once.
    pub fn forget_removed(&mut self)
        ensures forgotten { AreForgotten self.old self.new }
        ensures readings { (m : ℕ) → state_at self.new.rows m ≡ state_at self.old.rows m }
    {
        for _ in 0..self.removed.len() {
            if !self.forget_next() {
                return;
            }
        }
    }

    /// Forgets the next key that was noted, if its removal is not above the floor. Returns whether it was.
    fn forget_next(&mut self) -> bool
        ensures { AreForgotten self.old self.new }
    {
        let Some(next) = self.next_removal() else {
            return false;
        };
        self.forget(&next.key);
        true
    }

    /// Takes the first removal from the queue, if its number is at most the floor.
    fn next_removal(&mut self) -> Option<Removal>
        ensures { self.new ≡ self.old }
    {
        if self.floor < self.removed.front()?.number {
            return None;
        }
        self.removed.pop_front()
    }

    /// Gives a tombstone to the keys that were noted and have nothing but a removal that is not above the floor, so
    /// that no list walks over them. The key that room is made for stays listed, and so does one that finds no memory
    /// for its tombstone. Its time is that of the noted keys that the floor has reached, each of which is looked at
    /// once.
    pub fn hide_removed(&mut self)
        ensures { self.new ≡ self.old }
    {
        for _ in 0..self.removed.len() {
            let Some(next) = self.next_removal() else {
                return;
            };
            self.hide(&next.key);
        }
    }

    /// Gives the key a tombstone if it has a removal and nothing else, unless room is made for its push.
    fn hide(&mut self, key: &Key)
        ensures { self.new ≡ self.old }
    {
        let Some(slot) = self.index.get(key) else {
            return;
        };
        if has_room(self.room, slot) {
            return;
        }
        if !self.chains[slot].is_removal() {
            return;
        }
        self.index.set_tombstone(self.alloc, key);
    }

    /// Forgets the key if it has a removal and nothing else, unless room is made for a push.
    fn forget(&mut self, key: &Key)
        ensures { AreForgotten self.old self.new }
    {
        // The key may be the one with room, whose slot no other key may get.
        if self.room.is_some() {
            return;
        }
        // The room was made when the key was noted, so nothing is refused here.
        let Ok(()) = self.free.reserve(1) else {
            return;
        };
        let Some(slot) = self.index.get(key) else {
            return;
        };
        if !self.chains[slot].is_removal() {
            return;
        }
        self.index.forget(key);
        let chain = &mut self.chains[slot];
        *chain = Chain::new(self.alloc);
        self.free.push_back_reserved(slot);
        self.count -= 1;
    }

    /// The number from which on the versions can be read.
    pub fn floor(&self) -> u64
        ensures { result ≡ self.now.floor }
    {
        self.floor
    }

    /// How many versions there are.
    pub fn records(&self) -> usize
        ensures { result ≡ count self.now.rows }
    {
        self.count
    }
}

/// What the chains at the slots say at a number; nothing if nothing was there.
fn values_at<V: Drop>(
    alloc: Global,
    chains: &[Chain<V>],
    slots: Vec<usize>,
    number: u64,
) -> Result<Vec<&V>, AllocError>
    ensures { IfOk result (λ values. map (λ v. v.now) values.items ≡ values_in number chains.now slots.items) }
{
    let mut found = Vec::new(alloc);
    for slot in slots {
        if let Some(value) = version_at(chains, slot, number) {
            found.push(value)?;
        }
    }
    Ok(found)
}

/// What the chain at the slot says at a number.
fn version_at<V: Drop>(chains: &[Chain<V>], slot: usize, number: u64) -> Option<&V>
    ensures { option_copied result ≡ state_to number (rows_there chains.now slot) }
{
    chains.get(slot)?.at(number)
}

/// Whether the room for a push is in that slot.
fn has_room(room: Option<usize>, slot: usize) -> bool
    ensures { result ≡ false → IfSome room (λ p. p ≢ slot) }
{
    match room {
        Some(room) => room == slot,
        None => false,
    }
}

/// Puts a version into the queue, unless it is the first of its key.
fn enqueue(superseding: &mut VecDeque<Superseding>, is_first: bool, next: Superseding)
    requires { deque_len superseding.old < deque_capacity superseding.old }
    ensures { superseding.new.items ≡ (if is_first then superseding.old.items else superseding.old.items ++ next ∷ []) }
{
    if !is_first {
        superseding.push_back_reserved(next);
    }
}

/// Makes room for one more version of the key, and returns its slot. A new key is put in with no versions.
fn reserve_for<V: Drop>(
    alloc: Global,
    index: &mut Index,
    chains: &mut Vec<Chain<V>>,
    free: &mut VecDeque<usize>,
    key: &Key,
) -> Result<usize, AllocError>
    requires slotted { HaveSlots index.old.all chains.old.items }
    requires free { AreFree index.old.all (length chains.old.items) free.old.items }
    ensures slotted { HaveSlots index.new.all chains.new.items }
    ensures free { AreFree index.new.all (length chains.new.items) free.new.items }
    ensures still { AreStill index.old.all chains.old.items index.new.all chains.new.items }
    ensures kept { AreKept index.old.listed index.new.listed }
    ensures listed { IfOk result (λ slot. finite.get index.new.listed key.now ≡ Some slot) }
    ensures room { IfOk result (λ slot. (finite.get index.new.all key.now ≡ Some slot) × (is_roomy chains.new.items slot ≡ true)) }
{
    let slot = slot_of(alloc, index, chains, free, key)?;
    let chain = &mut chains[slot];
    chain.reserve()?;
    Ok(slot)
}

/// The slot of the key, which is put in with no versions if it is new.
fn slot_of<V: Drop>(
    alloc: Global,
    index: &mut Index,
    chains: &mut Vec<Chain<V>>,
    free: &mut VecDeque<usize>,
    key: &Key,
) -> Result<usize, AllocError>
    requires slotted { HaveSlots index.old.all chains.old.items }
    requires free { AreFree index.old.all (length chains.old.items) free.old.items }
    ensures slotted { HaveSlots index.new.all chains.new.items }
    ensures free { AreFree index.new.all (length chains.new.items) free.new.items }
    ensures still { AreStill index.old.all chains.old.items index.new.all chains.new.items }
    ensures kept { AreKept index.old.listed index.new.listed }
    ensures listed { IfOk result (λ slot. finite.get index.new.listed key.now ≡ Some slot) }
    ensures slot { IfOk result (λ slot. finite.get index.new.all key.now ≡ Some slot) }
{
    let found = index.lift_tombstone(alloc, key)?;
    match found {
        Some(slot) => Ok(slot),
        None => match free.front().copied() {
            Some(slot) => {
                // The slot is taken off the free ones once the index has it, so that none is lost if memory runs out.
                index.insert(alloc, key, slot)?;
                free.pop_front();
                Ok(slot)
            }
            None => add_slot(alloc, index, chains, key),
        },
    }
}

/// Gives a new key a slot after all others.
fn add_slot<V: Drop>(
    alloc: Global,
    index: &mut Index,
    chains: &mut Vec<Chain<V>>,
    key: &Key,
) -> Result<usize, AllocError>
    requires slotted { HaveSlots index.old.all chains.old.items }
    requires new { (finite.get index.old.all key.now ≡ None) × (finite.get index.old.listed key.now ≡ None) }
    ensures slotted { HaveSlots index.new.all chains.new.items }
    ensures still { AreStill index.old.all chains.old.items index.new.all chains.new.items }
    ensures kept { AreKept index.old.listed index.new.listed }
    ensures listed { IfOk result (λ slot. finite.get index.new.listed key.now ≡ Some slot) }
    ensures slot { IfOk result (λ slot. finite.get index.new.all key.now ≡ Some slot) }
{
    // Before the index knows of the slot, so that there is none without a chain.
    chains.reserve(1)?;
    let slot = chains.len();
    index.insert(alloc, key, slot)?;
    chains.push_reserved(Chain::new(alloc));
    Ok(slot)
}
