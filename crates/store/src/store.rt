ghost use Rattle.std.specs.Prelude.{◌≡◌, ◌+◌, ℕ, ◌≤◌, ◌<◌, [], None, Some, true, length, IfOk, IsErrOf, OnErr, IsSome, vec_len};
ghost use mathlib.Core.List.{IsPrefix};
ghost use Rattle.line.specs.Seat.{AreShards};
ghost use Rattle.objects.specs.declared.key.Key.{Key};
ghost use Rattle.objects.specs.ShardOf.{shard_of};
ghost use Rattle.plain_store.specs.Store.{step};
ghost use Rattle.requests.specs.Keys.{key_named};
ghost use Rattle.requests.specs.Verdict.{is_write};
ghost use Rattle.requests.specs.declared.request.Request.TheVariants as request;
ghost use Rattle.requests.specs.declared.request.Request.TheVariants.{Get};
ghost use Rattle.requests.specs.declared.reply.Reason.TheVariants.{Expired};
ghost use Rattle.requests.specs.declared.reply.Reply.TheVariants.{Refused};
ghost use Rattle.store.specs.Floors.{floor_after};
ghost use Rattle.store.specs.History.{store_after};
ghost use Rattle.store.specs.Floors.{compacted_reply, is_compacted, list_reply};
ghost use Rattle.plain_store.specs.Store.{denied};
ghost use Rattle.store.specs.Callers.{FoundAbove, GoesOn, HasRead, HeldInTurn, IsLine};
ghost use Rattle.store.specs.Tickets.{IsTicketOf, WritesOwn};
ghost use Rattle.store.specs.Views.{Stays};
ghost use Rattle.store.specs.declared.error.StoreError.TheVariants.{TooManyCallers};

use crate::caller::{self, Caller};
use crate::callers::Callers;
use crate::calls;
use crate::error::StoreError;
use crate::floor::Floor;
use crate::gate::Gate;
use crate::locked::Locked;
use crate::naming::{Naming, Sharding};
use crate::ticket::Ticket;
use crate::writing::{ByShards, Writing};
use line::{Ends, Line, ShardSeat};
use objects::{Key, Kind, Memory, Text, shard_of};
use requests::{Reason, Reply, Request};
use std::alloc::{AllocError, Global};
use std::marker::Model;
use std::sync::{Mutex, Wait};

/// A store of Kubernetes objects that threads share by `&`, each with a caller of its own. Each of its shards has a
/// lock of its own; the numbers of writes, which are the revisions of the store, come from a line.
///
/// No call takes the locks of two shards at once.
///
/// In a running history the n-th accepted write has the number n in the plain store's run. Each reply of a ticket, of
/// `get` and of `list` is the plain store's after some running history, which begins with all that its caller had seen
/// before, and contains of the caller's own writes exactly the accepted ones up to its length, each at its number and
/// once. The caller has then seen that history.
#[derive(Drop)]
pub struct Store<H: Sharding, N: Naming> {
    numbers: Line<Writing, ByShards<H>>,
    shards: Vec<Mutex<Locked<H, N>>>,
    callers: Mutex<Callers<H, N>>,
    floor: Mutex<Floor>,
    alloc: Global,
}

impl<H: Sharding, N: Naming> Model for Store<H, N> {
    ghost use Rattle.std.specs.Prelude.{◌≡◌, ◌<◌, ℕ, vec_len};
    ghost use Rattle.store.specs.Callers.{IsLine};

    ghost Value = { ℕ };

    ghost view = { λ s. vec_len s.shards };

    ghost invariant = { λ s. IsLine N.line N.capacity s.numbers × (vec_len s.shards ≡ H.shards) × (0 < vec_len s.shards) };
}

impl<H: Sharding, N: Naming> Store<H, N> {
    /// An empty store, over a new line. H says how many shards the line has; N names it, and says how many numbers it
    /// has.
    ///
    /// # Errors
    ///
    /// Memory.
    pub fn new(alloc: Global, ends: Ends<Writing, ByShards<H>>) -> Result<Store<H, N>, StoreError>
        requires line { IsLine N.line N.capacity ends.line }
        requires caller { ends.caller.line ≡ N.line }
        requires shards { AreShards N.line N.capacity ends.shards.items }
        requires some { (vec_len ends.shards ≡ H.shards) × (0 < H.shards) }
        ensures memory { IsErrOf result TooManyCallers → ⊥ }
    {
        let Ends {
            line,
            shards: seats,
            caller,
        } = ends;
        let shards = locked_shards(alloc, seats)?;
        Ok(Store {
            numbers: line,
            shards,
            callers: Mutex::new(Callers::none(caller)),
            floor: Mutex::new(Floor::lowest()),
            alloc,
        })
    }

    pub(crate) fn line(&self) -> &Line<Writing, ByShards<H>>
        ensures { IsLine N.line N.capacity result.now }
    {
        &self.numbers
    }

    /// One more caller, which has no writes yet. It counts for as long as the store lives, also once it is dropped: a
    /// server whose clients come and go passes callers from one client to the next.
    ///
    /// # Errors
    ///
    /// TooManyCallers if the store has made 4,096 already, and only then. A caller takes no memory.
    pub fn caller(&self, rt: &impl Wait) -> Result<Caller<H, N>, StoreError>
        ensures { IfOk result (λ c. (c.own_notes ≡ []) × (c.observations ≡ [])) }
    {
        self.callers.lock(rt).next(&self.numbers)
    }

    /// Submits a create, an update, a status request or a delete: locks the key's shard, loads the frontier once,
    /// decides, and if the write is accepted draws a number, calls the gate, and fills it. An accepted write joins the
    /// caller's own writes at the number that it got, which none had; any other adds nothing. The reply comes from the
    /// ticket, which keeps the request and how much its caller had seen.
    ///
    /// # Errors
    ///
    /// Memory. It is refused before a number is drawn, so none was; the caller keeps its name and its own writes, and
    /// has seen no less.
    pub fn submit<G: Gate>(
        &self,
        rt: &impl Wait,
        caller: &mut Caller<H, N>,
        request: Request,
        gate: &G,
    ) -> Result<Ticket<H, N>, Memory>
        requires { is_write request ≡ true }
        ensures begins { IsPrefix caller.old.seen caller.new.seen }
        ensures loaded { caller.new.loads ≡ caller.old.loads + 1 }
        ensures ticket { IfOk result (λ t. IsTicketOf H.shards N.capacity t caller.new
            × (t.request ≡ request) × (t.since ≡ length caller.old.seen) × IsSome t.reply) }
        ensures own { IfOk result (λ t. WritesOwn caller.old t caller.new) }
        ensures memory { OnErr result (GoesOn caller.old caller.new) }
    {
        let index = self.shard_of_request(&request);
        calls::submit(
            rt,
            &self.numbers,
            &self.shards[index],
            index as u64,
            caller,
            request,
            gate,
        )
    }

    fn shard_of_request(&self, request: &Request) -> usize
        requires { is_write request.now ≡ true }
        ensures below { result < self.now }
        ensures home { (k : Key) → key_named request.now ≡ Some k → shard_of k H.shards ≡ result }
    {
        let Some(key) = request.key() else {
            unreachable!();
        };
        shard_of(key, self.shards.len())
    }

    /// The object of a key at the frontier: Found, or NotFound. The frontier is loaded once more if a compaction keeps
    /// the key's shard from being read there. The reply is the plain store's after all that the caller has then seen.
    ///
    /// # Errors
    ///
    /// Memory. What the caller has seen may have grown.
    pub fn get<W: Wait>(
        &self,
        rt: &W,
        caller: &mut Caller<H, N>,
        key: &Key,
    ) -> Result<Reply, Memory>
        ensures read { HasRead N.capacity caller.old caller.new }
        ensures reply { IfOk result (λ reply. reply ≡ (step (store_after N.capacity caller.new.seen) (Get key.now)).1) }
    {
        let index = shard_of(key, self.shards.len());
        calls::get(
            rt,
            &self.numbers,
            &self.shards[index],
            index as u64,
            caller,
            key,
        )
    }

    /// The objects of a kind in a namespace at one frontier, in byte order of their names, with that frontier as the
    /// list's revision. The frontier is loaded once more if a compaction keeps a shard from being read there. The reply
    /// is the plain store's after all that the caller has then seen, over any number of shards.
    ///
    /// # Errors
    ///
    /// Memory. What the caller has seen may have grown.
    pub fn list<W: Wait>(
        &self,
        rt: &W,
        caller: &mut Caller<H, N>,
        kind: Kind,
        namespace: &Text,
    ) -> Result<Reply, Memory>
        ensures read { HasRead N.capacity caller.old caller.new }
        ensures reply { IfOk result (λ reply. reply ≡ (step (store_after N.capacity caller.new.seen) (request.List kind namespace.now 0)).1) }
    {
        calls::list(
            rt,
            self.alloc,
            &self.numbers,
            self.shards.as_slice(),
            caller,
            kind,
            namespace,
        )
    }

    /// The second caller learns what the first one has seen: each of the two loads the frontier, the first one first.
    /// It takes no memory, and waits for no other caller. What the first has seen is then a prefix of what the second
    /// has seen, and both have seen no less than before.
    pub fn meet(&self, first: &mut Caller<H, N>, second: &mut Caller<H, N>)
        ensures first { HasRead N.capacity first.old first.new }
        ensures second { HasRead N.capacity second.old second.new }
        ensures met { IsPrefix first.new.seen second.new.seen }
    {
        caller::meet(&self.numbers, first, second);
    }

    /// Drops what was before a revision: Compacted, or TooLarge if the number is above the frontier, else Expired if
    /// the past was dropped beyond it. The floor's lock is held to the end, and each shard's in turn. The frontier is
    /// the one that the caller has then seen. It has noted each shard with the number as its floor, or for Expired one
    /// shard with a higher floor.
    pub fn compact<W: Wait>(&self, rt: &W, caller: &mut Caller<H, N>, number: u64) -> Reply
        ensures read { HasRead N.capacity caller.old caller.new }
        ensures reply { (floor : ℕ) × (result ≡ compacted_reply (denied floor (length caller.new.seen) number) number) }
        ensures held { is_compacted result ≡ true → HeldInTurn self.now number caller.old caller.new }
        ensures expired { result ≡ Refused Expired → FoundAbove number caller.old caller.new }
    {
        // Taken before any shard's lock, and never by a thread that holds one, so that no two wait for each other.
        let mut floor = self.floor.lock(rt);
        self.compact_from(rt, &mut floor, caller, number)
    }

    /// The same, with the floor lent by its lock. TooLarge if the number is above the frontier loaded here, else
    /// Expired if it is below the floor.
    fn compact_from<W: Wait>(
        &self,
        rt: &W,
        floor: &mut Floor,
        caller: &mut Caller<H, N>,
        number: u64,
    ) -> Reply
        ensures read { HasRead N.capacity caller.old caller.new }
        ensures reply { result ≡ compacted_reply (denied floor.old (length caller.new.seen) number) number }
        ensures held { is_compacted result ≡ true → HeldInTurn self.now number caller.old caller.new }
        ensures expired { result ≡ Refused Expired → FoundAbove number caller.old caller.new }
        ensures floor { floor.new ≡ floor_after floor.old number (denied floor.old (length caller.new.seen) number) }
    {
        if let Some(reason) = floor.raise(&self.numbers, caller, number) {
            return self.refuse(rt, caller, number, reason);
        }
        self.compact_all(rt, caller, number);
        Reply::Compacted { revision: number }
    }

    /// The refusal of a number. If it is below the floor, the caller notes a shard that can't be read there.
    fn refuse<W: Wait>(
        &self,
        rt: &W,
        caller: &mut Caller<H, N>,
        number: u64,
        reason: Reason,
    ) -> Reply
        ensures stays { Stays caller.old caller.new }
        ensures reply { result ≡ Refused reason }
        ensures expired { result ≡ Refused Expired → FoundAbove number caller.old caller.new }
    {
        if let Reason::Expired = reason {
            calls::find_above(rt, &self.numbers, &self.shards[0], caller, number);
            return Reply::Refused(Reason::Expired);
        }
        Reply::Refused(reason)
    }

    fn compact_all<W: Wait>(&self, rt: &W, caller: &mut Caller<H, N>, number: u64)
        requires { number ≤ length caller.old.seen }
        ensures stays { Stays caller.old caller.new }
        ensures held { HeldInTurn self.now number caller.old caller.new }
    {
        for shard in 0..self.shards.len() {
            calls::compact(
                rt,
                &self.numbers,
                &self.shards[shard],
                shard,
                caller,
                number,
            );
        }
    }

    /// The objects of a kind in a namespace exactly as they were at a revision, in byte order of their names, or
    /// TooLarge or Expired as for a compaction. The floor's lock is held to the end, and each shard's in turn. The
    /// objects are those of the plain store after that many of the writes that the caller has seen. For Expired the
    /// caller has noted a shard with a higher floor.
    ///
    /// # Errors
    ///
    /// Memory. What the caller has seen may have grown.
    pub fn list_at<W: Wait>(
        &self,
        rt: &W,
        caller: &mut Caller<H, N>,
        kind: Kind,
        namespace: &Text,
        number: u64,
    ) -> Result<Reply, Memory>
        ensures read { HasRead N.capacity caller.old caller.new }
        ensures reply { IfOk result (λ reply. (floor : ℕ) × (reply
            ≡ list_reply (denied floor (length caller.new.seen) number) N.capacity caller.new.seen kind namespace.now number)) }
        ensures expired { IfOk result (λ reply. reply ≡ Refused Expired → FoundAbove number caller.old caller.new) }
    {
        // It is held while the shards are read, so that no compaction passes the number meanwhile.
        let floor = self.floor.lock(rt);
        self.list_from(rt, &floor, caller, kind, namespace, number)
    }

    /// The same, with the floor lent by its lock. TooLarge if the number is above the frontier loaded here, else
    /// Expired if it is below the floor.
    fn list_from<W: Wait>(
        &self,
        rt: &W,
        floor: &Floor,
        caller: &mut Caller<H, N>,
        kind: Kind,
        namespace: &Text,
        number: u64,
    ) -> Result<Reply, Memory>
        ensures read { HasRead N.capacity caller.old caller.new }
        ensures reply { IfOk result (λ reply. reply
            ≡ list_reply (denied floor.now (length caller.new.seen) number) N.capacity caller.new.seen kind namespace.now number) }
        ensures expired { IfOk result (λ reply. reply ≡ Refused Expired → FoundAbove number caller.old caller.new) }
    {
        if let Some(reason) = floor.denied(&self.numbers, caller, number) {
            return Ok(self.refuse(rt, caller, number, reason));
        }
        self.list_past(rt, caller, kind, namespace, number)
    }

    /// The same at a number up to which the caller has seen all. The walk begins again if it finds a shard that can't
    /// be read there any more.
    fn list_past<W: Wait>(
        &self,
        rt: &W,
        caller: &mut Caller<H, N>,
        kind: Kind,
        namespace: &Text,
        number: u64,
    ) -> Result<Reply, Memory>
        requires { number ≤ length caller.old.seen }
        ensures stays { Stays caller.old caller.new }
        ensures reply { IfOk result (λ reply. reply ≡ list_reply None N.capacity caller.new.seen kind namespace.now number) }
    {
        for _ in rt.forever() {
            match calls::gather(
                rt,
                self.alloc,
                &self.numbers,
                self.shards.as_slice(),
                caller,
                kind,
                namespace,
                number,
            ) {
                Ok(None) => {}
                Ok(Some(objects)) => return Ok(calls::listed(objects, number)),
                Err(error) => return Err(error),
            }
        }
        unreachable!()
    }
}

/// The shards with their locks, one for each seat.
fn locked_shards<H: Sharding, N: Naming>(
    alloc: Global,
    seats: Vec<ShardSeat<Writing>>,
) -> Result<Vec<Mutex<Locked<H, N>>>, AllocError>
    requires { AreShards N.line N.capacity seats.items }
    ensures { IfOk result (λ shards. vec_len shards ≡ vec_len seats) }
{
    let mut shards = Vec::with_capacity(alloc, seats.len())?;
    for seat in seats {
        let index = shards.len() as u64;
        shards.push(Mutex::new(Locked::new(alloc, seat, index)))?;
    }
    Ok(shards)
}
