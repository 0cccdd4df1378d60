ghost use Rattle.std.specs.Prelude.{◌≡◌, ◌≢◌, IfOk, OnOk, OnErr, true};
ghost use Rattle.std.specs.FinMap as map;
ghost use Rattle.objects.specs.declared.key.Key.{Key};
ghost use Rattle.version_map.specs.Index.{AreKept, AreWithin, IsPlaceOf, no_keys, with_key};
ghost use Rattle.version_map.specs.Keyed.{collection};

use crate::key_slots::KeySlots;
use objects::{Key, Kind, Text};
use std::alloc::{AllocError, Global};
use std::marker::Model;

/// The slot of a key among those that are listed, and among all; none if the key has none there.
#[derive(Clone, Copy)]
pub(crate) struct Place {
    pub(crate) listed: Option<usize>,
    pub(crate) slot: Option<usize>,
}

/// A key and its place.
#[derive(Drop)]
pub(crate) struct Found {
    pub(crate) key: Key,
    pub(crate) place: Place,
}

impl Found {
    /// Whether it is that key which was found. Names are compared first: most keys differ in them.
    pub(crate) fn is_of(&self, key: &Key) -> bool
        ensures { result ≡ true → self.now.key ≡ key.now }
    {
        self.key.name == key.name
            && self.key.namespace == key.namespace
            && self.key.kind == key.kind
    }
}

/// The slot of each key. Those of keys without a value can be kept apart, as tombstones, so that a list of what is
/// there does not walk over them.
#[derive(Drop)]
pub(crate) struct Index {
    listed: KeySlots,
    tombstones: KeySlots,
    // The key that was looked up last. Each change of a slot forgets it.
    found: Option<Found>,
}

impl Model for Index {
    ghost use Rattle.std.specs.Prelude.{IfSome};
    ghost use Rattle.version_map.specs.Index.{Index, index_coded, index_with, IsFoundIn};

    ghost Value = { Index };

    ghost coded = { index_coded };

    ghost view = { λ i. index_with i.listed i.tombstones };

    ghost invariant = { λ i. IfSome i.found (IsFoundIn (index_with i.listed i.tombstones)) };
}

impl Index {
    pub(crate) fn new(alloc: Global) -> Index
        ensures { result ≡ no_keys }
    {
        Index {
            listed: KeySlots::new(alloc),
            tombstones: KeySlots::new(alloc),
            found: None,
        }
    }

    pub(crate) fn get(&self, key: &Key) -> Option<usize>
        ensures { result ≡ map.get self.now.all key.now }
    {
        self.place(key).slot
    }

    /// Looks the key up, so that it is not searched for again until a slot changes or another key is looked up.
    pub(crate) fn look_up(&mut self, key: &Key)
        ensures { self.new ≡ self.old }
    {
        let place = self.place(key);
        // If there is no memory for the key, it is searched for again.
        self.found = match key.clone() {
            Ok(key) => Some(Found { key, place }),
            Err(_) => None,
        };
    }

    fn place(&self, key: &Key) -> Place
        ensures { IsPlaceOf self.now key.now result }
    {
        match &self.found {
            Some(found) => {
                if found.is_of(key) {
                    found.place
                } else {
                    self.search(key)
                }
            }
            None => self.search(key),
        }
    }

    fn search(&self, key: &Key) -> Place
        ensures { IsPlaceOf self.now key.now result }
    {
        match self.listed.get(key) {
            Some(slot) => Place {
                listed: Some(slot),
                slot: Some(slot),
            },
            None => Place {
                listed: None,
                slot: self.tombstones.get(key),
            },
        }
    }

    /// The slot of the key, which is listed from now on.
    pub(crate) fn lift_tombstone(
        &mut self,
        alloc: Global,
        key: &Key,
    ) -> Result<Option<usize>, AllocError>
        ensures slot { IfOk result (λ slot. slot ≡ map.get self.old.all key.now) }
        ensures all { self.new.all ≡ self.old.all }
        ensures listed { IfOk result (λ slot. map.get self.new.listed key.now ≡ slot) }
        ensures kept { AreKept self.old.listed self.new.listed }
    {
        let place = self.place(key);
        if let Some(slot) = place.listed {
            return Ok(Some(slot));
        }
        let Some(slot) = place.slot else {
            return Ok(None);
        };
        self.found = None;
        // Listed before it leaves the others: if memory runs out, it still has its slot.
        self.listed.insert(alloc, key, slot)?;
        self.tombstones.remove(key);
        Ok(Some(slot))
    }

    /// Gives a key that slot, and lists it.
    pub(crate) fn insert(&mut self, alloc: Global, key: &Key, slot: usize) -> Result<(), AllocError>
        ensures ok { OnOk result (self.new ≡ with_key self.old key.now slot) }
        ensures err { OnErr result (self.new ≡ self.old) }
    {
        self.found = None;
        self.listed.insert(alloc, key, slot)
    }

    /// Gives a key a tombstone. If memory runs out it stays listed.
    pub(crate) fn set_tombstone(&mut self, alloc: Global, key: &Key)
        ensures all { self.new.all ≡ self.old.all }
        ensures others { (k : Key) → k ≢ key.now → map.get self.new.listed k ≡ map.get self.old.listed k }
    {
        let Some(slot) = self.place(key).listed else {
            return;
        };
        self.found = None;
        if let Ok(()) = self.tombstones.insert(alloc, key, slot) {
            self.listed.remove(key);
        }
    }

    /// Removes the slot of a key.
    pub(crate) fn forget(&mut self, key: &Key)
        ensures all { self.new.all ≡ map.remove self.old.all key.now }
        ensures others { (k : Key) → k ≢ key.now → map.get self.new.listed k ≡ map.get self.old.listed k }
    {
        self.found = None;
        self.listed.remove(key);
        self.tombstones.remove(key);
    }

    /// The slots of the keys of a kind in a namespace, in the order of the keys.
    pub(crate) fn of(
        &self,
        alloc: Global,
        kind: Kind,
        namespace: &Text,
    ) -> Result<Vec<usize>, AllocError>
        ensures { IfOk result (λ slots. slots.items ≡ collection self.now.all kind namespace.now) }
    {
        self.listed
            .of_both(&self.tombstones, alloc, kind, namespace)
    }

    /// The same of the keys that are listed.
    pub(crate) fn of_listed(
        &self,
        alloc: Global,
        kind: Kind,
        namespace: &Text,
    ) -> Result<Vec<usize>, AllocError>
        ensures slots { IfOk result (λ slots. slots.items ≡ collection self.now.listed kind namespace.now) }
        ensures within { AreWithin self.now }
    {
        self.listed.of(alloc, kind, namespace)
    }
}
