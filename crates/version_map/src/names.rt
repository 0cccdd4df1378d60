// The names of a kind in a namespace.
ghost use Rattle.std.specs.Prelude.{◌≡◌, ◌==◌, [], ℕ, length, List, Some, None, bytes_eq, cond, IfOk, OnOk, OnErr};
ghost use Rattle.std.specs.BTreeMap.{IsOrdered, values};
ghost use Rattle.std.specs.Option.{option_or};
ghost use Rattle.version_map.specs.Named.{at_name, at_text, AreValues, slot_at_text};

use crate::short_name::ShortName;
use objects::Text;
use std::alloc::{AllocError, Global};
use std::collections::BTreeMap;
use std::marker::Model;

/// The slot of each name. Short names are in a map of their own that compares numbers, with keys of half the size.
#[derive(Drop)]
pub(crate) struct Names {
    short: BTreeMap<ShortName, usize>,
    long: BTreeMap<Text, usize>,
}

impl Model for Names {
    ghost use Rattle.std.specs.Prelude.{◌++◌, ℕ, List};
    ghost use Rattle.version_map.specs.Named.{AreApart};

    ghost Value = { List (List ℕ × ℕ) };

    ghost view = { λ n. n.short.entries ++ n.long.entries };

    ghost invariant = { λ n. AreApart n.short n.long };
}

impl Names {
    pub(crate) fn new(alloc: Global) -> Names
        ensures { result ≡ [] }
    {
        Names {
            short: BTreeMap::new(alloc),
            long: BTreeMap::new(alloc),
        }
    }

    pub(crate) fn is_empty(&self) -> bool
        ensures { result ≡ (length self.now == 0) }
    {
        self.short.is_empty() && self.long.is_empty()
    }

    pub(crate) fn get(&self, name: &Text) -> Option<usize>
        ensures { result ≡ at_name self.now name.now }
    {
        match ShortName::of(name.as_str()) {
            Some(short) => self.short.get(&short).copied(),
            None => self.long.get(name).copied(),
        }
    }

    /// Gives a name that slot.
    pub(crate) fn insert(&mut self, name: &Text, slot: usize) -> Result<(), AllocError>
        ensures ok { OnOk result ((word : List ℕ) → at_name self.new word ≡ cond (bytes_eq name.now word) (Some slot) (at_name self.old word)) }
        ensures err { OnErr result (self.new ≡ self.old) }
    {
        match ShortName::of(name.as_str()) {
            Some(short) => {
                self.short.insert(short, slot)?;
            }
            None => {
                self.long.insert(name.clone()?, slot)?;
            }
        }
        Ok(())
    }

    /// Removes the slot of a name.
    pub(crate) fn remove(&mut self, name: &Text)
        ensures { (word : List ℕ) → at_name self.new word ≡ cond (bytes_eq name.now word) None (at_name self.old word) }
    {
        match ShortName::of(name.as_str()) {
            Some(short) => {
                self.short.remove(&short);
            }
            None => {
                self.long.remove(name);
            }
        }
    }

    /// The slots of all names, in byte order of the names.
    pub(crate) fn slots(&self, alloc: Global) -> Result<Vec<usize>, AllocError>
        ensures { IfOk result (λ slots. AreValues slots.items (at_name self.now)) }
    {
        if self.long.is_empty() {
            return slots_in(alloc, &self.short);
        }
        if self.short.is_empty() {
            return slots_in(alloc, &self.long);
        }
        let mut all = BTreeMap::new(alloc);
        self.add_to(&mut all)?;
        slots_in(alloc, &all)
    }

    /// The slots of the names of both, in byte order of the names; of a name of both, the one that it has here.
    pub(crate) fn slots_with(&self, more: &Names, alloc: Global) -> Result<Vec<usize>, AllocError>
        ensures { IfOk result (λ slots. AreValues slots.items (λ word. option_or (at_name self.now word) (at_name more.now word))) }
    {
        let mut all = BTreeMap::new(alloc);
        // Its own come last, as a later entry of a name replaces an earlier one.
        more.add_to(&mut all)?;
        self.add_to(&mut all)?;
        slots_in(alloc, &all)
    }

    /// Adds the names with their slots.
    fn add_to<'a>(&'a self, all: &mut BTreeMap<&'a [u8], usize>) -> Result<(), AllocError>
        ensures { OnOk result ((word : List ℕ) → slot_at_text all.new word ≡ option_or (at_name self.now word) (slot_at_text all.old word)) }
    {
        add_long(all, &self.long)?;
        add_short(all, &self.short)
    }
}

/// The slots of all names, in byte order of the names.
fn slots_in<N: Ord>(alloc: Global, names: &BTreeMap<N, usize>) -> Result<Vec<usize>, AllocError>
    ensures slots { IfOk result (λ slots. slots.items ≡ values names.now) }
    ensures ordered { IsOrdered N.cmp names.now }
{
    names.values().copied().collect(alloc)
}

fn add_long<'a>(
    all: &mut BTreeMap<&'a [u8], usize>,
    names: &'a BTreeMap<Text, usize>,
) -> Result<(), AllocError>
    ensures { OnOk result ((word : List ℕ) → slot_at_text all.new word ≡ option_or (at_text names.now word) (slot_at_text all.old word)) }
{
    for (name, slot) in names.iter() {
        all.insert(name.as_str().as_bytes(), *slot)?;
    }
    Ok(())
}

fn add_short<'a>(
    all: &mut BTreeMap<&'a [u8], usize>,
    names: &'a BTreeMap<ShortName, usize>,
) -> Result<(), AllocError>
    ensures { OnOk result ((word : List ℕ) → slot_at_text all.new word ≡ option_or (at_text names.now word) (slot_at_text all.old word)) }
{
    for (name, slot) in names.iter() {
        all.insert(name.as_bytes(), *slot)?;
    }
    Ok(())
}
