// Races over the running store.
ghost use Rattle.std.specs.Prelude.{◌≡◌, ◌↔◌, ◌<◌, false, true, IfOk, IsErrOf, IsTrue, vec_len};
ghost use Rattle.line.specs.Seat.{AreShards};
ghost use Rattle.store.specs.Callers.{IsLine};
ghost use Rattle.race_log.specs.Limits.{is_race};
ghost use Rattle.race_log.specs.declared.judge.RaceHistory.{RaceHistory};
ghost use Rattle.racing.specs.Parts.{IsRace, IsRaceOf};

use crate::judging::race_over;
use crate::shared::SharedStore;
use line::{Ends, Line, LineError};
use objects::{Key, Kind, Memory, Text};
use race_log::{CAPACITY, RaceFault, RaceHistory, RaceReport, RaceSpec};
use requests::{Reply, Request};
use std::alloc::Global;
use std::marker::Brand;
use std::sync::Wait;
use std::thread::Threads;
use store::{ByShards, Caller, Gate, Naming, Sharding, Store, StoreError, Ticket, Writing};

impl<H: Sharding, N: Naming> SharedStore for Store<H, N> {
    ghost use Rattle.store.specs.Tickets.{IsTicketOf};

    type Caller = Caller<H, N>;

    type Ticket = Ticket<H, N>;

    ghost shards = { H.shards };

    ghost capacity = { N.capacity };

    ghost known = { λ caller. caller };

    ghost asked = { λ ticket. ticket.request };

    ghost since_of = { λ ticket. ticket.since };

    ghost place_of = { λ ticket. ticket.place };

    ghost is_of = { λ ticket caller. IsTicketOf H.shards N.capacity ticket caller };

    fn caller<R: Wait>(&self, rt: &R) -> Result<Caller<H, N>, StoreError> {
        Store::caller(self, rt)
    }

    fn submit<R: Wait, G: Gate>(
        &self,
        rt: &R,
        caller: &mut Caller<H, N>,
        request: Request,
        gate: &G,
    ) -> Result<Ticket<H, N>, Memory> {
        Store::submit(self, rt, caller, request, gate)
    }

    fn try_reply(&self, ticket: &mut Ticket<H, N>, caller: &mut Caller<H, N>) -> Option<Reply> {
        ticket.try_reply(self, caller)
    }

    fn place(&self, ticket: &Ticket<H, N>) -> u64 {
        ticket.place()
    }

    fn get<R: Wait>(&self, rt: &R, caller: &mut Caller<H, N>, key: &Key) -> Result<Reply, Memory> {
        Store::get(self, rt, caller, key)
    }

    fn list<R: Wait>(
        &self,
        rt: &R,
        caller: &mut Caller<H, N>,
        kind: Kind,
        namespace: &Text,
    ) -> Result<Reply, Memory> {
        Store::list(self, rt, caller, kind, namespace)
    }

    fn list_at<R: Wait>(
        &self,
        rt: &R,
        caller: &mut Caller<H, N>,
        kind: Kind,
        namespace: &Text,
        exact: u64,
    ) -> Result<Reply, Memory> {
        Store::list_at(self, rt, caller, kind, namespace, exact)
    }

    fn compact<R: Wait>(&self, rt: &R, caller: &mut Caller<H, N>, to: u64) -> Reply {
        Store::compact(self, rt, caller, to)
    }

    fn seen(&self, caller: &Caller<H, N>) -> u64 {
        caller.seen()
    }
}

/// Races over a store that is new.
fn race_over_new<S: SharedStore + Sync, R: Threads + Wait + Sync, G: Gate + Sync>(
    rt: &R,
    alloc: Global,
    store: &S,
    spec: &RaceSpec,
    gate: &G,
) -> Result<RaceHistory, RaceFault>
where
    S::Caller: Send,
    S::Ticket: Send,
    ensures refused { IsErrOf result RaceFault.BadRace ↔ (is_race spec.now ≡ false) }
    ensures callers { IsErrOf result RaceFault.TooManyCallers → ⊥ }
    ensures race { IfOk result (IsRaceOf S.shards S.capacity CAPACITY spec.now) }
    ensures once { IfOk result (λ history. IsTrue history.report.legal → history.report.twice ≡ 0) }
{
    match race_over(rt, alloc, store, spec, gate) {
        // A new store has callers enough for any race, but they are counted under a lock, so no clause can say so.
        Err(RaceFault::TooManyCallers) => {
            for _ in rt.forever() {}
            unreachable!()
        }
        ended => ended,
    }
}

/// Races over the store of this line.
fn race_over_line<
    H: Sharding + Send + Sync,
    N: Naming + Send + Sync,
    R: Threads + Wait + Sync,
    G: Gate + Sync,
>(
    rt: &R,
    alloc: Global,
    ends: Ends<Writing, ByShards<H>>,
    spec: &RaceSpec,
    gate: &G,
) -> Result<RaceHistory, RaceFault>
    requires line { IsLine N.line N.capacity ends.line }
    requires caller { ends.caller.line ≡ N.line }
    requires capacity { N.capacity ≡ CAPACITY }
    requires shards { AreShards N.line N.capacity ends.shards.items }
    requires some { (vec_len ends.shards ≡ H.shards) × (0 < H.shards) }
    requires many { H.shards ≡ spec.now.shards }
    requires allowed { is_race spec.now ≡ true }
    ensures allowed { IsErrOf result RaceFault.BadRace → ⊥ }
    ensures callers { IsErrOf result RaceFault.TooManyCallers → ⊥ }
    ensures race { IfOk result (IsRace spec.now) }
    ensures once { IfOk result (λ history. IsTrue history.report.legal → history.report.twice ≡ 0) }
{
    match Store::<H, N>::new(alloc, ends) {
        Ok(store) => race_over_new(rt, alloc, &store, spec, gate),
        Err(_) => Err(RaceFault::Memory),
    }
}

/// Races over a new store of so many shards.
fn race_over_shards<H: Sharding + Send + Sync, R: Threads + Wait + Sync, G: Gate + Sync>(
    rt: &R,
    alloc: Global,
    spec: &RaceSpec,
    gate: &G,
) -> Result<RaceHistory, RaceFault>
    requires shards { H.shards ≡ spec.now.shards }
    requires allowed { is_race spec.now ≡ true }
    ensures allowed { IsErrOf result RaceFault.BadRace → ⊥ }
    ensures callers { IsErrOf result RaceFault.TooManyCallers → ⊥ }
    ensures race { IfOk result (IsRace spec.now) }
    ensures once { IfOk result (λ history. IsTrue history.report.legal → history.report.twice ≡ 0) }
{
    match Line::<Writing, ByShards<H>>::new(alloc, CAPACITY, spec.shards as usize) {
        Ok(ends) => race_over_line::<H, Brand, R, G>(rt, alloc, ends, spec, gate),
        Err(LineError::Memory) => Err(RaceFault::Memory),
        // A race that is allowed has a valid number of shards.
        Err(_) => unreachable!(),
    }
}

/// Races over a new store, and judges the race by the requests and replies of its callers: see `race_over`. If it is
/// legal, no pod was created while another one of that name lived.
///
/// # Errors
///
/// `BadRace` if a size is out of range; `Memory`, also if a thread cannot be made; never `TooManyCallers`.
pub fn race_history<R: Threads + Wait + Sync, G: Gate + Sync>(
    rt: &R,
    alloc: Global,
    spec: &RaceSpec,
    gate: &G,
) -> Result<RaceHistory, RaceFault>
    ensures refused { IsErrOf result RaceFault.BadRace ↔ (is_race spec.now ≡ false) }
    ensures callers { IsErrOf result RaceFault.TooManyCallers → ⊥ }
    ensures race { IfOk result (IsRace spec.now) }
    ensures once { IfOk result (λ history. IsTrue history.report.legal → history.report.twice ≡ 0) }
{
    if !spec.is_allowed() {
        return Err(RaceFault::BadRace);
    }
    race_over_shards::<Brand, R, G>(rt, alloc, spec, gate)
}

/// As `race_history`, but keeps only the report.
///
/// # Errors
///
/// Those of `race_history`.
pub fn race<R: Threads + Wait + Sync, G: Gate + Sync>(
    rt: &R,
    alloc: Global,
    spec: &RaceSpec,
    gate: &G,
) -> Result<RaceReport, RaceFault>
    ensures refused { IsErrOf result RaceFault.BadRace ↔ (is_race spec.now ≡ false) }
    ensures callers { IsErrOf result RaceFault.TooManyCallers → ⊥ }
    ensures race { IfOk result (λ report. (history : RaceHistory) × IsRace spec.now history × (report ≡ history.report)) }
    ensures once { IfOk result (λ report. IsTrue report.legal → report.twice ≡ 0) }
{
    let history = race_history(rt, alloc, spec, gate)?;
    let report = history.report;
    drop(history);
    Ok(report)
}
