ghost use Rattle.std.specs.Prelude.{◌≡◌, ◌+◌, ◌<◌, [], None, length};
ghost use mathlib.Core.List.{IsPrefix};
ghost use Rattle.store.specs.Callers.{HasRead, IsLine};
ghost use Rattle.store.specs.Views.{HasLoaded};

use crate::naming::{Naming, Sharding};
use crate::writing::{ByShards, Writing};
use line::{CallerSeat, Line};
use std::marker::{Model, PhantomData};

/// A caller of a store. It has seen a history of accepted writes, which none of its calls makes shorter. Its calls are
/// made one after another; those of different callers run at once.
#[derive(Drop)]
pub struct Caller<H: Sharding, N: Naming> {
    // None only within a call, while the seat visits a shard's.
    pub(crate) seat: Option<CallerSeat<Writing>>,
    pub(crate) of: PhantomData<(H, N)>,
}

impl<H: Sharding, N: Naming> Model for Caller<H, N> {
    ghost use Rattle.store.specs.Callers.{Caller};
    ghost use Rattle.store.specs.Views.{IsCaller, caller_by, view_or};
    ghost use Rattle.store.specs.Codes.{caller_coded};

    ghost Value = { Caller };

    ghost coded = { caller_coded };

    ghost view = { λ c. caller_by (view_or c.seat) };

    ghost invariant = { λ c. IsCaller N.line H.shards c.seat };
}

impl<H: Sharding, N: Naming> Caller<H, N> {
    /// A new caller, which has seen what the seat has.
    pub(crate) fn new(line: &Line<Writing, ByShards<H>>, seat: CallerSeat<Writing>) -> Caller<H, N>
        requires line { IsLine N.line N.capacity line.now }
        requires seat { (seat.line ≡ N.line) × (seat.view.caller ≡ None) }
        ensures { (result.seen ≡ seat.view.seen) × (result.own_notes ≡ []) × (result.observations ≡ seat.view.observations) }
    {
        let mut seat = seat;
        line.name(&mut seat);
        Caller {
            seat: Some(seat),
            of: PhantomData,
        }
    }

    /// The last frontier that it loaded: how many writes it has seen. After a read, the revision that was read at.
    pub fn seen(&self) -> u64
        ensures { result ≡ length self.now.seen }
    {
        let Some(seat) = &self.seat else {
            unreachable!();
        };
        seat.seen()
    }

    /// Loads the frontier, once.
    pub(crate) fn frontier(&mut self, line: &Line<Writing, ByShards<H>>) -> u64
        requires { IsLine N.line N.capacity line.now }
        ensures loaded { HasLoaded H.shards N.capacity self.old result self.new }
        ensures reported { IsPrefix self.old.reported self.new.seen }
    {
        let Some(seat) = &mut self.seat else {
            unreachable!();
        };
        line.frontier(seat)
    }

    /// Learns what another caller has seen.
    fn learn_seen(&mut self, line: &Line<Writing, ByShards<H>>, other: &mut Caller<H, N>)
        requires { IsLine N.line N.capacity line.now }
        ensures other { other.new ≡ other.old }
        ensures reported { self.new ≡ record self.old { reported = other.old.seen } }
    {
        let Some(seat) = &mut self.seat else {
            unreachable!();
        };
        let Some(from) = &mut other.seat else {
            unreachable!();
        };
        line.tell(from, seat);
    }

    /// Raises the frontier by one, if the next number is filled, and loads it.
    pub(crate) fn try_raise(&mut self, line: &Line<Writing, ByShards<H>>) -> u64
        requires { IsLine N.line N.capacity line.now }
        ensures loaded { HasLoaded H.shards N.capacity self.old result self.new }
        ensures tried { (length self.old.seen < N.capacity → self.new.tries ≡ self.old.tries + 1)
            × (length self.old.seen ≡ N.capacity → self.new.tries ≡ self.old.tries) }
    {
        let Some(seat) = &mut self.seat else {
            unreachable!();
        };
        line.raise(seat);
        line.frontier(seat)
    }
}

/// Each of the two loads the frontier; then what the first has seen is a prefix of what the second has seen.
pub(crate) fn meet<H: Sharding, N: Naming>(
    line: &Line<Writing, ByShards<H>>,
    first: &mut Caller<H, N>,
    second: &mut Caller<H, N>,
)
    requires { IsLine N.line N.capacity line.now }
    ensures first { HasRead N.capacity first.old first.new }
    ensures second { HasRead N.capacity second.old second.new }
    ensures met { IsPrefix first.new.seen second.new.seen }
{
    // In this order: what the second learns bounds only the frontiers that it loads later.
    first.frontier(line);
    second.learn_seen(line, first);
    second.frontier(line);
}
