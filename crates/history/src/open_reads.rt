ghost use Rattle.std.specs.Prelude.{◌≡◌, ◌==◌, ◌&&◌, ℕ, true, false, OnOk, OnErr, if◌then◌else◌};
ghost use Rattle.history.specs.Begun.{IsLeastOf, is_open};
ghost use Rattle.history.specs.Replayed.{reads_at};

use crate::phase::Phase;
use objects::Memory;
use std::alloc::Global;
use std::collections::BTreeSet;

/// The reads that have begun and are not over: of each the number at which it reads, and its caller.
#[derive(Drop)]
pub(crate) struct OpenReads {
    pub reads: BTreeSet<(u64, u64)>,
}

impl OpenReads {
    pub(crate) fn new(alloc: Global) -> OpenReads
        ensures { (n c : ℕ) → is_open result n c ≡ false }
    {
        OpenReads {
            reads: BTreeSet::new(alloc),
        }
    }

    /// A caller begins to read at a number.
    pub(crate) fn begin(&mut self, caller: u64, number: u64) -> Result<(), Memory>
        ensures begun { OnOk result ((n c : ℕ) → is_open self.new n c ≡ (if caller == c && number == n then true else is_open self.old n c)) }
        ensures memory { OnErr result ((n c : ℕ) → is_open self.new n c ≡ is_open self.old n c) }
    {
        self.reads.insert((number, caller))?;
        Ok(())
    }

    /// A caller leaves a phase. If it was reading there, that is over.
    pub(crate) fn leave(&mut self, caller: u64, phase: &Phase)
        ensures { (n c : ℕ) → is_open self.new n c ≡ (if caller == c && reads_at n phase.now then false else is_open self.old n c) }
    {
        if let Phase::Reading {
            number,
            place: _,
            request: _,
            left: _,
        } = phase
        {
            self.reads.remove(&(*number, caller));
        }
    }

    /// The least of a floor and of the numbers at which any caller reads.
    pub(crate) fn least(&self, floor: u64) -> u64
        ensures { IsLeastOf self.now floor result }
    {
        match self.reads.first() {
            Some(read) if read.0 < floor => read.0,
            _ => floor,
        }
    }
}
