ghost use Rattle.std.specs.Prelude.{◌≡◌, ℕ, ◌+◌, ◌-◌, ◌≤◌, ◌<◌, [], true, length, take, Some, None, IsSome, IfOk, OnErr};
ghost use mathlib.Core.List.{IsPrefix};
ghost use Rattle.std.specs.Option.{option_copied};
ghost use Rattle.objects.specs.declared.key.Key.{Key};
ghost use Rattle.objects.specs.ShardOf.{shard_of};
ghost use Rattle.requests.specs.Keys.{key_named};
ghost use Rattle.requests.specs.Verdict.{is_write, verdict};
ghost use Rattle.requests.specs.declared.request.Request.TheVariants.{Get};
ghost use Rattle.plain_store.specs.Store.{collection, found, step};
ghost use Rattle.store.specs.Parts.{part_of};
ghost use Rattle.versions.specs.Records.{current, newest};
ghost use Rattle.versions.specs.Shard.{opening, raised};
ghost use Rattle.store.specs.History.{store_after};
ghost use Rattle.store.specs.Rule.{AgreesWith};
ghost use Rattle.store.specs.Callers.{GoesOn, IsLine};
ghost use Rattle.store.specs.Tickets.{IsTicketOf, WritesOwn};
ghost use Rattle.store.specs.Views.{HasObserved, IsOutcome, WritesNotes, number_in};

use crate::caller::Caller;
use crate::gate::Gate;
use crate::naming::{Naming, Sharding};
use crate::ticket::Ticket;
use crate::write_steps::write_locked;
use crate::writing::{ByShards, Writing};
use line::{Line, ShardSeat};
use objects::{Key, Kind, Memory, Object, Text};
use requests::{Reason, Reply, Request};
use std::alloc::Global;
use std::marker::{Model, PhantomData};
use std::sync::Wait;
use versions::Shard;

/// What the lock of a shard keeps: its versions, its seat at the line, and which of the shards it is.
///
/// Whenever the lock is free, the seat has no open number, and its notes are the writes of the numbers that it filled.
/// Each number above the floor has its record; from the floor on the records read as the notes say, and so does each
/// key's newest record.
#[derive(Drop)]
pub(crate) struct Locked<H: Sharding, N: Naming> {
    seat: ShardSeat<Writing>,
    shard: Shard,
    index: u64,
    of: PhantomData<(H, N)>,
}

impl<H: Sharding, N: Naming> Model for Locked<H, N> {
    ghost use Rattle.std.specs.Prelude.{◌≡◌, Some, None};
    ghost use Rattle.store.specs.Rule.{AgreesWith, Locked};
    ghost use Rattle.store.specs.Codes.{locked_coded};

    ghost Value = { Locked };

    ghost coded = { locked_coded };

    ghost view = { λ l. record { index = l.index; notes = l.seat.view.notes; shard = l.shard } };

    ghost invariant = { λ l. (l.seat.line ≡ N.line) × (l.seat.view.shard ≡ Some l.index) × (l.seat.view.caller ≡ None) × (l.seat.view.plain.pending ≡ None)
        × AgreesWith l.shard l.seat.view };
}

impl<H: Sharding, N: Naming> Locked<H, N> {
    /// A shard with no writes, over a seat that has drawn no number.
    pub(crate) fn new(alloc: Global, seat: ShardSeat<Writing>, index: u64) -> Locked<H, N>
        requires { (seat.line ≡ N.line) × (seat.view.shard ≡ Some index) × (seat.view.caller ≡ None)
            × (seat.view.plain.pending ≡ None) × (seat.view.notes ≡ []) × (seat.view.plain.filled ≡ []) }
        ensures { (result.index ≡ index) × (result.notes ≡ []) × (result.shard ≡ opening) }
    {
        Locked {
            seat,
            shard: Shard::new(alloc),
            index,
            of: PhantomData,
        }
    }

    /// Which of the shards it is.
    pub(crate) fn index(&self) -> u64
        ensures { result ≡ self.now.index }
    {
        self.index
    }

    /// The number from which on the shard can be read.
    pub(crate) fn floor(&self) -> u64
        ensures { result ≡ self.now.shard.floor }
    {
        self.shard.floor()
    }

    /// Raises the floor of the shard to a number that the frontier has reached, as the caller has seen. The caller
    /// notes what the shard has, with the floor that it then has.
    pub(crate) fn compact(
        &mut self,
        line: &Line<Writing, ByShards<H>>,
        caller: &mut Caller<H, N>,
        number: u64,
    )
        requires line { IsLine N.line N.capacity line.now }
        requires floor { self.old.shard.floor ≤ number }
        requires seen { number ≤ length caller.old.seen }
        ensures raised { self.new ≡ record self.old { shard = raised self.old.shard number } }
        ensures noted { (d : ℕ) × HasObserved H.shards N.capacity self.old.index self.old.notes number caller.old d caller.new }
    {
        let Some(seat) = caller.seat.take() else {
            unreachable!();
        };
        self.shard.compact(number);
        // By this visit the shard's seat knows a frontier not below the floor: a number drawn later is above it.
        let seen = line.enter(&mut self.seat, seat);
        // So that contracts see that the lock was held, and the floor that was raised.
        line.observe(&mut self.seat, self.shard.floor());
        caller.seat = Some(line.leave(&mut self.seat, seen));
    }

    /// The caller notes what the shard has, and its floor.
    pub(crate) fn note(&mut self, line: &Line<Writing, ByShards<H>>, caller: &mut Caller<H, N>)
        requires line { IsLine N.line N.capacity line.now }
        requires floor { self.old.shard.floor ≤ length caller.old.seen }
        ensures same { self.new ≡ self.old }
        ensures noted { (d : ℕ) × HasObserved H.shards N.capacity self.old.index self.old.notes self.old.shard.floor caller.old d caller.new }
    {
        let Some(seat) = caller.seat.take() else {
            unreachable!();
        };
        let seen = line.enter(&mut self.seat, seat);
        // Any later frontier of the caller has to agree with what is noted here.
        line.observe(&mut self.seat, self.shard.floor());
        caller.seat = Some(line.leave(&mut self.seat, seen));
    }

    /// The reply to a get at the frontier that the caller has seen, which the floor must not be above. It is the plain
    /// store's there, and the shard is unchanged.
    ///
    /// # Errors
    ///
    /// Memory.
    pub(crate) fn get(
        &mut self,
        line: &Line<Writing, ByShards<H>>,
        caller: &mut Caller<H, N>,
        key: &Key,
    ) -> Result<Reply, Memory>
        requires line { IsLine N.line N.capacity line.now }
        requires key { shard_of key.now H.shards ≡ self.old.index }
        requires floor { self.old.shard.floor ≤ length caller.old.seen }
        ensures same { self.new ≡ self.old }
        ensures noted { (d : ℕ) × HasObserved H.shards N.capacity self.old.index self.old.notes self.old.shard.floor caller.old d caller.new }
        ensures reply { IfOk result (λ reply. reply ≡ (step (store_after N.capacity caller.new.seen) (Get key.now)).1) }
    {
        let number = caller.seen();
        self.note(line, caller);
        found_reply(self.shard.at(key, number))
    }

    /// The objects of a kind in a namespace that the shard has at a number up to which the caller has seen all.
    pub(crate) fn list(
        &mut self,
        line: &Line<Writing, ByShards<H>>,
        caller: &mut Caller<H, N>,
        kind: Kind,
        namespace: &Text,
        number: u64,
    ) -> Result<Vec<Object>, Memory>
        requires line { IsLine N.line N.capacity line.now }
        requires number { (self.old.shard.floor ≤ number) × (number ≤ length caller.old.seen) }
        ensures same { self.new ≡ self.old }
        ensures noted { (d : ℕ) × HasObserved H.shards N.capacity self.old.index self.old.notes self.old.shard.floor caller.old d caller.new }
        ensures part { IfOk result (λ objects. objects.items
            ≡ collection (part_of (store_after N.capacity (take number caller.new.seen)).objects H.shards self.old.index) kind namespace.now) }
    {
        self.note(line, caller);
        self.shard.list_at(kind, namespace, number)
    }

    /// Handles a create, an update, a status request or a delete of a key of this shard, and calls the gate between the
    /// draw of a number and its fill. It loads the frontier once, before it looks at the key. The verdict is over the
    /// key's newest record here. An accepted write pushes one record and adds its note, at its number; any other adds
    /// nothing. The floor stays.
    ///
    /// # Errors
    ///
    /// Memory. It is refused before a number is drawn: so none was drawn, and the shard is unchanged.
    pub(crate) fn write<G: Gate>(
        &mut self,
        // Not used: it is here because the calls around it have one.
        _rt: &impl Wait,
        line: &Line<Writing, ByShards<H>>,
        caller: &mut Caller<H, N>,
        request: Request,
        gate: &G,
    ) -> Result<Ticket<H, N>, Memory>
        requires line { IsLine N.line N.capacity line.now }
        requires write { is_write request ≡ true }
        requires key { (k : Key) → key_named request ≡ Some k → shard_of k H.shards ≡ self.old.index }
        ensures begins { IsPrefix caller.old.seen caller.new.seen }
        ensures loaded { caller.new.loads ≡ caller.old.loads + 1 }
        ensures ticket { IfOk result (λ t. IsTicketOf H.shards N.capacity t caller.new
            × (t.request ≡ request) × (t.since ≡ length caller.old.seen) × IsSome t.reply) }
        ensures own { IfOk result (λ t. WritesOwn caller.old t caller.new) }
        ensures wrote { IfOk result (λ t. WritesNotes self.old.notes t self.new.notes) }
        ensures outcome { IfOk result (λ t. (k : Key) → key_named request ≡ Some k
            → IsOutcome N.capacity self.old.shard.records (number_in (newest self.old.shard.records k))
            (verdict request (current self.old.shard.records k)) t self.new.shard.records) }
        ensures floor { self.new.shard.floor ≡ self.old.shard.floor }
        ensures memory { OnErr result ((self.new ≡ self.old) × GoesOn caller.old caller.new) }
    {
        let since = caller.seen();
        let Some(seat) = caller.seat.take() else {
            unreachable!();
        };
        line.enter(&mut self.seat, seat);
        // By the seat of both, and before the verdict: so the number that is drawn is above the shard's floor.
        let loaded = line.look(&mut self.seat);
        let handed = write_locked::<H, N, G>(
            line,
            &mut self.seat,
            &mut self.shard,
            request,
            since,
            loaded,
            gate,
        );
        caller.seat = Some(line.leave(&mut self.seat, loaded));
        handed
    }
}

/// The reply to a get.
fn found_reply(object: Option<&Object>) -> Result<Reply, Memory>
    ensures { IfOk result (λ reply. reply ≡ found (option_copied object.entry)) }
{
    match object {
        Some(found) => Ok(Reply::Found(found.clone()?)),
        None => Ok(Reply::Refused(Reason::NotFound)),
    }
}
