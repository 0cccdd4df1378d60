ghost use Rattle.std.specs.Prelude.{◌≡◌, length};
ghost use Rattle.plain_store.specs.Store.{denied};
ghost use Rattle.store.specs.Floors.{floor_after};
ghost use Rattle.store.specs.Callers.{IsLine};
ghost use Rattle.store.specs.Views.{HasLoaded};

use crate::caller::Caller;
use crate::naming::{Naming, Sharding};
use crate::writing::{ByShards, Writing};
use line::Line;
use requests::Reason;
use std::marker::Model;

/// The number below which nothing is read any more. A caller that compacts the store or reads its past holds it locked.
#[derive(Drop)]
pub(crate) struct Floor {
    number: u64,
}

impl Model for Floor {
    ghost use Rattle.std.specs.Prelude.{ℕ};

    ghost Value = { ℕ };

    ghost view = { λ f. f.number };
}

impl Floor {
    pub(crate) fn lowest() -> Floor
        ensures { result ≡ 0 }
    {
        Floor { number: 0 }
    }

    /// Why a number can't be read: it is above the frontier, which the caller loads here, or else it is below the
    /// floor.
    pub(crate) fn denied<H: Sharding, N: Naming>(
        &self,
        line: &Line<Writing, ByShards<H>>,
        caller: &mut Caller<H, N>,
        number: u64,
    ) -> Option<Reason>
        requires { IsLine N.line N.capacity line.now }
        ensures loaded { HasLoaded H.shards N.capacity caller.old (length caller.new.seen) caller.new }
        ensures denied { result ≡ denied self.now (length caller.new.seen) number }
    {
        let frontier = caller.frontier(line);
        self.refusal(frontier, number)
    }

    /// Raises the floor to a number, or gives the reason why it can't be raised to it, by the frontier that the caller
    /// loads here.
    pub(crate) fn raise<H: Sharding, N: Naming>(
        &mut self,
        line: &Line<Writing, ByShards<H>>,
        caller: &mut Caller<H, N>,
        number: u64,
    ) -> Option<Reason>
        requires { IsLine N.line N.capacity line.now }
        ensures loaded { HasLoaded H.shards N.capacity caller.old (length caller.new.seen) caller.new }
        ensures denied { result ≡ denied self.old (length caller.new.seen) number }
        ensures raised { self.new ≡ floor_after self.old number result }
    {
        let refusal = self.denied(line, caller, number);
        if refusal.is_none() {
            self.number = number;
        }
        refusal
    }

    #[tactic(auto, unfolding(plain_store::specs::Store::denied))]
    fn refusal(&self, frontier: u64, number: u64) -> Option<Reason>
        ensures { result ≡ denied self.now frontier number }
    {
        if frontier < number {
            Some(Reason::TooLarge)
        } else if number < self.number {
            Some(Reason::Expired)
        } else {
            None
        }
    }
}
