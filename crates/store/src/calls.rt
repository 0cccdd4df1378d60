// Requests to shards, under their locks.
ghost use Rattle.std.specs.Prelude.{◌≡◌, ℕ, List, ◌+◌, ◌<◌, ◌≤◌, true, length, take, Some, IfOk, OnErr, IfSome, IsSome};
ghost use mathlib.Core.List.{IsPrefix};
ghost use Rattle.objects.specs.declared.key.Key.{Key};
ghost use Rattle.objects.specs.ShardOf.{shard_of};
ghost use Rattle.requests.specs.Keys.{key_named};
ghost use Rattle.requests.specs.Verdict.{is_write};
ghost use Rattle.requests.specs.declared.request.Request.TheVariants as request;
ghost use Rattle.requests.specs.declared.request.Request.TheVariants.{Get};
ghost use Rattle.requests.specs.declared.reply.Reply.TheVariants.{Listed};
ghost use Rattle.plain_store.specs.Store.{collection, step};
ghost use Rattle.store.specs.History.{store_after};
ghost use Rattle.store.specs.Parts.{part_of};
ghost use Rattle.store.specs.Callers.{FoundAbove, GoesOn, HasRead, IsLine};
ghost use Rattle.store.specs.Tickets.{IsTicketOf, WritesOwn};
ghost use Rattle.store.specs.Views.{HasObserved, Stays};
ghost use Rattle.store.specs.declared.writing.Writing.{Writing};

use crate::caller::Caller;
use crate::gate::Gate;
use crate::locked::Locked;
use crate::naming::{Naming, Sharding};
use crate::ticket::Ticket;
use crate::writing::{ByShards, Writing};
use line::Line;
use objects::{Key, Kind, Memory, Object, Text};
use requests::{Listing, Reply, Request};
use std::alloc::Global;
use std::sync::{Mutex, Wait};
use versions::Gathered;

/// Submits a create, an update, a status request or a delete. It does not return if the lock has another shard.
pub(crate) fn submit<H: Sharding, N: Naming, G: Gate>(
    rt: &impl Wait,
    line: &Line<Writing, ByShards<H>>,
    shard: &Mutex<Locked<H, N>>,
    index: u64,
    caller: &mut Caller<H, N>,
    request: Request,
    gate: &G,
) -> Result<Ticket<H, N>, Memory>
    requires line { IsLine N.line N.capacity line.now }
    requires write { is_write request ≡ true }
    requires key { (k : Key) → key_named request ≡ Some k → shard_of k H.shards ≡ index }
    ensures begins { IsPrefix caller.old.seen caller.new.seen }
    ensures loaded { caller.new.loads ≡ caller.old.loads + 1 }
    ensures ticket { IfOk result (λ t. IsTicketOf H.shards N.capacity t caller.new
        × (t.request ≡ request) × (t.since ≡ length caller.old.seen) × IsSome t.reply) }
    ensures own { IfOk result (λ t. WritesOwn caller.old t caller.new) }
    ensures memory { OnErr result (GoesOn caller.old caller.new) }
{
    let mut locked = shard.lock(rt);
    // No run meets another shard here, but no clause can say so; an error would have to be handled by each caller.
    if locked.index() != index {
        for _ in rt.forever() {}
        unreachable!()
    }
    locked.write(rt, line, caller, request, gate)
}

/// The reply to a get, at a frontier that the caller has then seen. If the shard can't be read there any more, the
/// frontier is loaded once more.
pub(crate) fn get<H: Sharding, N: Naming, W: Wait>(
    rt: &W,
    line: &Line<Writing, ByShards<H>>,
    shard: &Mutex<Locked<H, N>>,
    index: u64,
    caller: &mut Caller<H, N>,
    key: &Key,
) -> Result<Reply, Memory>
    requires line { IsLine N.line N.capacity line.now }
    requires key { shard_of key.now H.shards ≡ index }
    ensures read { HasRead N.capacity caller.old caller.new }
    ensures reply { IfOk result (λ reply. reply ≡ (step (store_after N.capacity caller.new.seen) (Get key.now)).1) }
{
    // A compaction may be faster. To hold the floor's lock instead would make all reads wait for compactions.
    for _ in rt.forever() {
        caller.frontier(line);
        let mut locked = shard.lock(rt);
        if locked.index() != index {
            for _ in rt.forever() {}
            unreachable!()
        }
        if locked.floor() <= caller.seen() {
            return locked.get(line, caller, key);
        }
    }
    unreachable!()
}

/// Raises the floor of a shard. It does not return if the lock has another shard, or one whose floor is higher.
pub(crate) fn compact<H: Sharding, N: Naming, W: Wait>(
    rt: &W,
    line: &Line<Writing, ByShards<H>>,
    shard: &Mutex<Locked<H, N>>,
    index: usize,
    caller: &mut Caller<H, N>,
    number: u64,
)
    requires line { IsLine N.line N.capacity line.now }
    requires number { number ≤ length caller.old.seen }
    ensures stays { Stays caller.old caller.new }
    ensures held { (n : ℕ) × (notes : List (ℕ × Writing)) × HasObserved H.shards N.capacity index notes number caller.old n caller.new }
{
    let mut locked = shard.lock(rt);
    // No run meets another shard here, nor a higher floor, since every caller that raises one holds the store's. But no
    // clause can say so.
    if locked.index() != index as u64 || number < locked.floor() {
        for _ in rt.forever() {}
        unreachable!()
    }
    locked.compact(line, caller, number);
}

/// Notes a shard that can't be read at a number any more. It does not return if the shard can be read there, nor if its
/// floor is above what the caller has seen.
pub(crate) fn find_above<H: Sharding, N: Naming, W: Wait>(
    rt: &W,
    line: &Line<Writing, ByShards<H>>,
    shard: &Mutex<Locked<H, N>>,
    caller: &mut Caller<H, N>,
    number: u64,
)
    requires { IsLine N.line N.capacity line.now }
    ensures stays { Stays caller.old caller.new }
    ensures found { FoundAbove number caller.old caller.new }
{
    let mut locked = shard.lock(rt);
    let floor = locked.floor();
    // No run meets such a floor here: the caller holds the store's, which the shard's is, and has loaded the frontier
    // since. But no clause can say so.
    if floor <= number || caller.seen() < floor {
        for _ in rt.forever() {}
        unreachable!()
    }
    locked.note(line, caller);
}

/// The reply to a list, at one frontier, which the caller has then seen. If a shard can't be read there any more, the
/// frontier is loaded once more.
pub(crate) fn list<H: Sharding, N: Naming, W: Wait>(
    rt: &W,
    alloc: Global,
    line: &Line<Writing, ByShards<H>>,
    shards: &[Mutex<Locked<H, N>>],
    caller: &mut Caller<H, N>,
    kind: Kind,
    namespace: &Text,
) -> Result<Reply, Memory>
    requires line { IsLine N.line N.capacity line.now }
    requires shards { (length shards.now ≡ H.shards) × (0 < H.shards) }
    ensures read { HasRead N.capacity caller.old caller.new }
    ensures reply { IfOk result (λ reply. reply ≡ (step (store_after N.capacity caller.new.seen) (request.List kind namespace.now 0)).1) }
{
    for _ in rt.forever() {
        let number = caller.frontier(line);
        match gather(rt, alloc, line, shards, caller, kind, namespace, number) {
            Ok(None) => {}
            Ok(Some(objects)) => return Ok(listed(objects, number)),
            Err(error) => return Err(error),
        }
    }
    unreachable!()
}

pub(crate) fn listed(objects: Vec<Object>, number: u64) -> Reply
    ensures { result ≡ Listed objects.items number }
{
    Reply::Listed {
        objects: Listing::from(objects),
        revision: number,
    }
}

/// What all shards have of a kind in a namespace at a number up to which the caller has seen all, in the order of the
/// keys; nothing if a shard can't be read there any more.
pub(crate) fn gather<H: Sharding, N: Naming, W: Wait>(
    rt: &W,
    alloc: Global,
    line: &Line<Writing, ByShards<H>>,
    shards: &[Mutex<Locked<H, N>>],
    caller: &mut Caller<H, N>,
    kind: Kind,
    namespace: &Text,
    number: u64,
) -> Result<Option<Vec<Object>>, Memory>
    requires line { IsLine N.line N.capacity line.now }
    requires shards { (length shards.now ≡ H.shards) × (0 < H.shards) }
    requires number { number ≤ length caller.old.seen }
    ensures stays { Stays caller.old caller.new }
    ensures objects { IfOk result (λ found. IfSome found
        (λ objects. objects.items ≡ collection (store_after N.capacity (take number caller.new.seen)).objects kind namespace.now)) }
{
    let mut found = Gathered::new(alloc);
    for index in 0..shards.len() {
        match part(
            rt,
            line,
            &shards[index],
            index,
            caller,
            kind,
            namespace,
            number,
        ) {
            Ok(Some(objects)) => found.put_all(objects)?,
            Ok(None) => return Ok(None),
            Err(error) => return Err(error),
        }
    }
    Ok(Some(found.into_objects()?))
}

/// The part of one shard, or nothing if it can't be read there any more. It does not return if the lock has another
/// shard.
fn part<H: Sharding, N: Naming, W: Wait>(
    rt: &W,
    line: &Line<Writing, ByShards<H>>,
    shard: &Mutex<Locked<H, N>>,
    index: usize,
    caller: &mut Caller<H, N>,
    kind: Kind,
    namespace: &Text,
    number: u64,
) -> Result<Option<Vec<Object>>, Memory>
    requires line { IsLine N.line N.capacity line.now }
    requires number { number ≤ length caller.old.seen }
    ensures stays { Stays caller.old caller.new }
    ensures part { IfOk result (λ found. IfSome found (λ objects. objects.items
        ≡ collection (part_of (store_after N.capacity (take number caller.new.seen)).objects H.shards index) kind namespace.now)) }
{
    let mut locked = shard.lock(rt);
    if locked.index() != index as u64 {
        for _ in rt.forever() {}
        unreachable!()
    }
    if number < locked.floor() {
        return Ok(None);
    }
    match locked.list(line, caller, kind, namespace, number) {
        Ok(objects) => Ok(Some(objects)),
        Err(error) => Err(error),
    }
}
