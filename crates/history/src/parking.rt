ghost use Rattle.std.specs.Prelude.{◌≡◌, ◌==◌, ◌++◌, ℕ, [], ◌∷◌, OnOk, OnErr, if◌then◌else◌};
ghost use Rattle.history.specs.Replayed.{lot_at};

use objects::Memory;
use std::alloc::Global;
use std::collections::BTreeMap;

/// A request that changes nothing and waits for the frontier: its caller, and the place of its call.
#[derive(Clone, Copy)]
pub(crate) struct Waiter {
    pub caller: u64,
    pub place: u64,
}

/// The requests that wait for the frontier, by the number that they saw, each list first to last.
#[derive(Drop)]
pub(crate) struct Parking {
    pub lots: BTreeMap<u64, Vec<Waiter>>,
    pub alloc: Global,
}

impl Parking {
    pub(crate) fn new(alloc: Global) -> Parking
        ensures { (n : ℕ) → lot_at result n ≡ [] }
    {
        Parking {
            lots: BTreeMap::new(alloc),
            alloc,
        }
    }

    /// Those that wait for a number.
    pub(crate) fn at(&self, number: u64) -> &[Waiter]
        ensures { result.now ≡ lot_at self.now number }
    {
        match self.lots.get(&number) {
            Some(lot) => lot.as_slice(),
            None => &[],
        }
    }

    /// Parks a request after those that wait for the same number.
    pub(crate) fn park(&mut self, number: u64, waiter: Waiter) -> Result<(), Memory>
        ensures parked { OnOk result ((n : ℕ) → lot_at self.new n ≡ lot_at self.old n ++ (if n == number then waiter ∷ [] else [])) }
        ensures memory { OnErr result ((n : ℕ) → lot_at self.new n ≡ lot_at self.old n) }
    {
        if let Some(lot) = self.lots.get_mut(&number) {
            lot.push(waiter)?;
            return Ok(());
        }
        let mut lot = Vec::new(self.alloc);
        lot.push(waiter)?;
        self.lots.insert(number, lot)?;
        Ok(())
    }

    /// Removes those that wait for a number.
    pub(crate) fn clear(&mut self, number: u64)
        ensures { (n : ℕ) → lot_at self.new n ≡ (if n == number then [] else lot_at self.old n) }
    {
        drop(self.lots.remove(&number));
    }
}
