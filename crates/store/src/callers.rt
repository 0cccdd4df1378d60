ghost use Rattle.std.specs.Prelude.{◌≡◌, ◌+◌, ◌<◌, ◌≤◌, ◌↔◌, [], IfOk, OnOk, OnErr, IsErrOf};
ghost use Rattle.store.specs.Callers.{IsLine, most_callers};
ghost use Rattle.store.specs.declared.error.StoreError.TheVariants.{TooManyCallers};

use crate::caller::Caller;
use crate::error::StoreError;
use crate::naming::{Naming, Sharding};
use crate::writing::{ByShards, Writing};
use line::{CallerSeat, Line};
use std::marker::{Model, PhantomData};

/// The most callers that a store makes; those that were dropped count too.
pub(crate) const MAX_CALLERS: u64 = 4096;

/// How many callers were made, and the seat from which the next one's is split off.
#[derive(Drop)]
pub(crate) struct Callers<H: Sharding, N: Naming> {
    seat: CallerSeat<Writing>,
    count: u64,
    of: PhantomData<(H, N)>,
}

impl<H: Sharding, N: Naming> Model for Callers<H, N> {
    ghost use Rattle.std.specs.Prelude.{◌≡◌, ◌≤◌, ℕ};
    ghost use Rattle.store.specs.Callers.{most_callers};

    ghost Value = { ℕ };

    ghost view = { λ c. c.count };

    ghost invariant = { λ c. (c.seat.line ≡ N.line) × (c.count ≤ most_callers) };
}

impl<H: Sharding, N: Naming> Callers<H, N> {
    pub(crate) fn none(seat: CallerSeat<Writing>) -> Callers<H, N>
        requires { seat.line ≡ N.line }
        ensures { result ≡ 0 }
    {
        Callers {
            seat,
            count: 0,
            of: PhantomData,
        }
    }

    /// One more caller, or TooManyCallers if there are 4,096.
    pub(crate) fn next(
        &mut self,
        line: &Line<Writing, ByShards<H>>,
    ) -> Result<Caller<H, N>, StoreError>
        requires { IsLine N.line N.capacity line.now }
        ensures counted { OnOk result (self.new ≡ self.old + 1) }
        ensures refused { OnErr result (self.new ≡ self.old) }
        ensures too_many { IsErrOf result TooManyCallers ↔ (self.old ≡ most_callers) }
        ensures new { IfOk result (λ c. (c.own_notes ≡ []) × (c.observations ≡ [])) }
    {
        if self.count == MAX_CALLERS {
            return Err(StoreError::TooManyCallers);
        }
        let seat = line.split(&mut self.seat)?;
        self.count += 1;
        Ok(Caller::new(line, seat))
    }
}
