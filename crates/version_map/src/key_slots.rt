ghost use Rattle.std.specs.Prelude.{◌≡◌, ◌<◌, Some, None, IfOk, OnOk, OnErr};
ghost use Rattle.std.specs.Option.{option_copied};
ghost use Rattle.std.specs.FinMap as map;
ghost use Rattle.objects.specs.Key.{kind_index};
ghost use Rattle.version_map.specs.Keyed.{collection};
ghost use Rattle.version_map.specs.Named.{AreAsBefore, AreNames, HasNow, both};

use crate::names::Names;
use objects::{Key, Kind, Text};
use std::alloc::{AllocError, Global};
use std::collections::BTreeMap;
use std::marker::Model;

/// The names of each namespace.
type Namespaces = BTreeMap<Text, Names>;

/// How many kinds of objects there are.
const KINDS: usize = 4;

/// The slot of each key. The names of a kind in a namespace have a map of their own, so that a look-up compares names
/// alone, a list walks over its own names, and no name is stored with a copy of its namespace.
#[derive(Drop)]
pub(crate) struct KeySlots {
    kinds: [Namespaces; KINDS],
}

impl Model for KeySlots {
    ghost use Rattle.std.specs.Prelude.{◌≡◌, ℕ, length};
    ghost use Rattle.std.specs.Coded.{coded_ℕ};
    ghost use Rattle.std.specs.FinMap as map;
    ghost use Rattle.std.specs.FinMap.{FinMap};
    ghost use Rattle.objects.specs.Key.{key_cmp, key_coded};
    ghost use Rattle.version_map.specs.Named.{slotted};

    ghost Value = { FinMap key_cmp ℕ };

    ghost coded = { map.code key_coded coded_ℕ };

    ghost view = { λ p. slotted p.kinds };

    ghost invariant = { λ p. length p.kinds ≡ 4 };
}

impl KeySlots {
    pub(crate) fn new(alloc: Global) -> KeySlots
        ensures { result ≡ map.empty }
    {
        KeySlots {
            kinds: [
                BTreeMap::new(alloc),
                BTreeMap::new(alloc),
                BTreeMap::new(alloc),
                BTreeMap::new(alloc),
            ],
        }
    }

    pub(crate) fn get(&self, key: &Key) -> Option<usize>
        ensures { result ≡ map.get self.now key.now }
    {
        let names = self.kinds[index_of(key.kind)].get(&key.namespace)?;
        names.get(&key.name)
    }

    pub(crate) fn insert(&mut self, alloc: Global, key: &Key, slot: usize) -> Result<(), AllocError>
        ensures ok { OnOk result (self.new ≡ map.insert self.old key.now slot) }
        ensures err { OnErr result (self.new ≡ self.old) }
    {
        let namespaces = &mut self.kinds[index_of(key.kind)];
        insert_name(alloc, namespaces, &key.namespace, &key.name, slot)
    }

    pub(crate) fn remove(&mut self, key: &Key)
        ensures { self.new ≡ map.remove self.old key.now }
    {
        let namespaces = &mut self.kinds[index_of(key.kind)];
        remove_name(namespaces, &key.namespace, &key.name);
    }

    /// The slots of the keys of a kind in a namespace, in the order of the keys.
    pub(crate) fn of(
        &self,
        alloc: Global,
        kind: Kind,
        namespace: &Text,
    ) -> Result<Vec<usize>, AllocError>
        ensures { IfOk result (λ slots. slots.items ≡ collection self.now kind namespace.now) }
    {
        match self.names(kind, namespace) {
            Some(names) => names.slots(alloc),
            None => Ok(Vec::new(alloc)),
        }
    }

    /// The same of the keys of these slots and of others.
    pub(crate) fn of_both(
        &self,
        others: &KeySlots,
        alloc: Global,
        kind: Kind,
        namespace: &Text,
    ) -> Result<Vec<usize>, AllocError>
        ensures { IfOk result (λ slots. slots.items ≡ collection (both self.now others.now) kind namespace.now) }
    {
        let Some(more) = others.names(kind, namespace) else {
            return self.of(alloc, kind, namespace);
        };
        match self.names(kind, namespace) {
            Some(names) => names.slots_with(more, alloc),
            None => more.slots(alloc),
        }
    }

    /// The names of a kind in a namespace, if there is one.
    fn names(&self, kind: Kind, namespace: &Text) -> Option<&Names>
        ensures { AreNames self.now kind namespace.now (option_copied result) }
    {
        self.kinds[index_of(kind)].get(namespace)
    }
}

/// The index of a kind among all.
fn index_of(kind: Kind) -> usize
    ensures index { result ≡ kind_index kind }
    ensures within { result < 4 }
{
    kind as usize
}

/// Gives a name of a namespace that slot.
fn insert_name(
    alloc: Global,
    namespaces: &mut Namespaces,
    namespace: &Text,
    name: &Text,
    slot: usize,
) -> Result<(), AllocError>
    ensures ok { OnOk result (HasNow namespaces.old namespaces.new namespace.now name.now (Some slot)) }
    ensures err { OnErr result (AreAsBefore namespaces.old namespaces.new) }
{
    match namespaces.get_mut(namespace) {
        Some(names) => names.insert(name, slot)?,
        None => {
            let mut names = Names::new(alloc);
            names.insert(name, slot)?;
            namespaces.insert(namespace.clone()?, names)?;
        }
    }
    Ok(())
}

/// Removes the slot of a name of a namespace, and with the last name all that the namespace takes. It allocates
/// nothing.
fn remove_name(namespaces: &mut Namespaces, namespace: &Text, name: &Text)
    ensures { HasNow namespaces.old namespaces.new namespace.now name.now None }
{
    let Some(names) = namespaces.get_mut(namespace) else {
        return;
    };
    names.remove(name);
    if names.is_empty() {
        namespaces.remove(namespace);
    }
}
