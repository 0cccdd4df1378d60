// A write while its shard is locked, and its caller's seat is in the shard's.
ghost use Rattle.std.specs.Prelude.{◌≡◌, ◌-◌, ◌≤◌, ◌<◌, max, true, length, Some, None, IsSome, All, IfOk, IfSome, IfNone, OnOk, OnErr};
ghost use Rattle.objects.specs.declared.key.Key.{Key};
ghost use Rattle.objects.specs.ShardOf.{shard_of};
ghost use Rattle.requests.specs.Change.{accepted, change_object, stamp, version_of};
ghost use Rattle.requests.specs.Keys.{key_named};
ghost use Rattle.requests.specs.Verdict.{is_write, verdict};
ghost use Rattle.requests.specs.declared.verdict.Verdict.TheVariants.{Write};
ghost use Rattle.versions.specs.Records.{current, newest};
ghost use Rattle.versions.specs.Shard.{pushed};
ghost use Rattle.line.specs.Notes.{notes_up_to};
ghost use Rattle.line.specs.NotedSteps.{MayDraw};
ghost use Rattle.line.specs.NotedView.{drew_noted, with_plain, drew_for};
ghost use Rattle.line.specs.View.{used_up};
ghost use Rattle.store.specs.History.{Accepts, by_of, home_of};
ghost use Rattle.store.specs.Callers.{IsLine};
ghost use Rattle.store.specs.Rule.{AgreesWith};
ghost use Rattle.store.specs.Tickets.{IsTicketOf, WritesOwn};
ghost use Rattle.store.specs.Views.{Holds, IsOutcome, IsPublished, Unwritten, WritesNotes, caller_by, number_in, ticket_by, writing_by};

use crate::gate::Gate;
use crate::naming::{Naming, Sharding};
use crate::ticket::Ticket;
use crate::writing::{ByShards, Writing};
use line::{Drawn, Line, Noting, ShardSeat};
use objects::Memory;
use requests::{Change, Reason, Reply, Request, Verdict, decide_whole};
use std::marker::{Brand, PhantomData};
use std::snapshot::Snapshot;
use versions::Shard;

/// Decides the write over the newest record of its key, and carries it out.
pub(crate) fn write_locked<H: Sharding, N: Naming, G: Gate>(
    line: &Line<Writing, ByShards<H>>,
    seat: &mut ShardSeat<Writing>,
    shard: &mut Shard,
    request: Request,
    since: u64,
    loaded: u64,
    gate: &G,
) -> Result<Ticket<H, N>, Memory>
    requires line { (seat.old.line ≡ line.now.name) × IsLine N.line N.capacity line.now }
    requires holds { Holds H.shards seat.old.view shard.old seat.old.view }
    requires write { is_write request ≡ true }
    requires key { (k : Key) → key_named request ≡ Some k → seat.old.view.shard ≡ Some (shard_of k H.shards) }
    requires seen { (loaded ≡ length seat.old.view.seen) × (since ≤ loaded) × (loaded ≤ N.capacity) }
    ensures line { seat.new.line ≡ seat.old.line }
    ensures holds { Holds H.shards seat.old.view shard.new seat.new.view }
    ensures ticket { IfOk result (λ t. IsTicketOf H.shards N.capacity t (caller_by seat.new.view)
        × (t.request ≡ request) × (t.since ≡ since) × IsSome t.reply) }
    ensures own { IfOk result (λ t. WritesOwn (caller_by seat.old.view) t (caller_by seat.new.view)) }
    ensures wrote { IfOk result (λ t. WritesNotes seat.old.view.notes t seat.new.view.notes) }
    ensures outcome { IfOk result (λ t. (k : Key) → key_named request ≡ Some k
        → IsOutcome N.capacity shard.old.records (number_in (newest shard.old.records k))
        (verdict request (current shard.old.records k)) t shard.new.records) }
    ensures floor { shard.new.floor ≡ shard.old.floor }
    ensures memory { OnErr result ((seat.new.view ≡ seat.old.view) × (shard.new ≡ shard.old)) }
{
    // What contracts see of the request; the request itself is used up by the verdict.
    let asked = Snapshot::of(&request);
    let (saw, verdict) = decide(shard, request)?;
    match verdict {
        Verdict::Refuse(reason) => Ok(answer_unwritten(
            line,
            seat,
            shard,
            asked,
            since,
            loaded,
            saw,
            Reply::Refused(reason),
        )),
        Verdict::Same(object) => Ok(answer_unwritten(
            line,
            seat,
            shard,
            asked,
            since,
            loaded,
            saw,
            Reply::Unchanged(object),
        )),
        Verdict::Write(change) => carry_out(line, seat, shard, asked, since, change, gate),
    }
}

/// The number of the newest record of the request's key, and what the request does to it.
fn decide(shard: &Shard, request: Request) -> Result<(u64, Verdict), Memory>
    requires { is_write request ≡ true }
    ensures { IfOk result (λ d. (k : Key) → key_named request ≡ Some k
        → (d.0 ≡ number_in (newest shard.now.records k)) × (d.1 ≡ verdict request (current shard.now.records k))) }
{
    let Some(key) = request.key() else {
        unreachable!();
    };
    let (saw, current) = match shard.newest(key) {
        Some((number, object)) => (number, object),
        // 0 means no version of the key.
        None => (0, None),
    };
    Ok((saw, decide_whole(current, request)?))
}

/// A write that changes nothing.
fn answer_unwritten<H: Sharding, N: Naming>(
    line: &Line<Writing, ByShards<H>>,
    seat: &mut ShardSeat<Writing>,
    shard: &Shard,
    request: Snapshot<Request>,
    since: u64,
    loaded: u64,
    saw: u64,
    reply: Reply,
) -> Ticket<H, N>
    requires line { (seat.old.line ≡ line.now.name) × IsLine N.line N.capacity line.now }
    requires holds { Holds H.shards seat.old.view shard.now seat.old.view }
    requires write { is_write request.value ≡ true }
    requires key { (k : Key) → key_named request.value ≡ Some k → (seat.old.view.shard ≡ Some (shard_of k H.shards))
        × (saw ≡ number_in (newest shard.now.records k)) × Unwritten (verdict request.value (current shard.now.records k)) reply }
    requires seen { (loaded ≡ length seat.old.view.seen) × (since ≤ loaded) }
    ensures line { seat.new.line ≡ seat.old.line }
    ensures holds { Holds H.shards seat.old.view shard.now seat.new.view }
    ensures ticket { IsTicketOf H.shards N.capacity result (caller_by seat.new.view) }
    ensures own { WritesOwn (caller_by seat.old.view) result (caller_by seat.new.view) }
    ensures wrote { WritesNotes seat.old.view.notes result seat.new.view.notes }
    ensures outcome { (k : Key) → key_named request.value ≡ Some k
        → IsOutcome N.capacity shard.now.records (number_in (newest shard.now.records k))
        (verdict request.value (current shard.now.records k)) result shard.now.records }
    ensures is { result ≡ record { request = request.value; since = since; saw = saw; place = max saw loaded; reply = Some reply } }
{
    line.observe(seat, shard.floor());
    Ticket {
        request,
        since,
        saw,
        place: saw.max(loaded),
        reply: Some(reply),
        of: PhantomData,
    }
}

/// A write that changes something, if numbers are left.
fn carry_out<H: Sharding, N: Naming, G: Gate>(
    line: &Line<Writing, ByShards<H>>,
    seat: &mut ShardSeat<Writing>,
    shard: &mut Shard,
    request: Snapshot<Request>,
    since: u64,
    change: Change,
    gate: &G,
) -> Result<Ticket<H, N>, Memory>
    requires line { (seat.old.line ≡ line.now.name) × IsLine N.line N.capacity line.now }
    requires holds { Holds H.shards seat.old.view shard.old seat.old.view }
    requires write { is_write request.value ≡ true }
    requires key { (k : Key) → key_named request.value ≡ Some k
        → (seat.old.view.shard ≡ Some (shard_of k H.shards)) × (verdict request.value (current shard.old.records k) ≡ Write change) }
    requires seen { (since ≤ length seat.old.view.seen) × (length seat.old.view.seen ≤ N.capacity) }
    ensures line { seat.new.line ≡ seat.old.line }
    ensures holds { Holds H.shards seat.old.view shard.new seat.new.view }
    ensures ticket { IfOk result (λ t. IsTicketOf H.shards N.capacity t (caller_by seat.new.view)
        × (t.request ≡ request.value) × (t.since ≡ since) × IsSome t.reply) }
    ensures own { IfOk result (λ t. WritesOwn (caller_by seat.old.view) t (caller_by seat.new.view)) }
    ensures wrote { IfOk result (λ t. WritesNotes seat.old.view.notes t seat.new.view.notes) }
    ensures outcome { IfOk result (λ t. (k : Key) → key_named request.value ≡ Some k
        → IsOutcome N.capacity shard.old.records (number_in (newest shard.old.records k))
        (verdict request.value (current shard.old.records k)) t shard.new.records) }
    ensures floor { shard.new.floor ≡ shard.old.floor }
    ensures memory { OnErr result ((seat.new.view ≡ seat.old.view) × (shard.new ≡ shard.old)) }
{
    // Before the draw: a number that was drawn has to be filled, and from then on nothing may need memory.
    let Ok(()) = shard.make_room(change.key()) else {
        drop(change);
        return Err(Memory);
    };
    Ok(publish(line, seat, shard, request, since, change, gate))
}

/// The same, with room for the record.
fn publish<H: Sharding, N: Naming, G: Gate>(
    line: &Line<Writing, ByShards<H>>,
    seat: &mut ShardSeat<Writing>,
    shard: &mut Shard,
    request: Snapshot<Request>,
    since: u64,
    change: Change,
    gate: &G,
) -> Ticket<H, N>
    requires line { (seat.old.line ≡ line.now.name) × IsLine N.line N.capacity line.now }
    requires holds { Holds H.shards seat.old.view shard.old seat.old.view }
    requires write { is_write request.value ≡ true }
    requires key { (k : Key) → key_named request.value ≡ Some k → (seat.old.view.shard ≡ Some (shard_of k H.shards))
        × (verdict request.value (current shard.old.records k) ≡ Write change) × (shard.old.room ≡ Some k) }
    requires seen { (since ≤ length seat.old.view.seen) × (length seat.old.view.seen ≤ N.capacity) }
    ensures line { seat.new.line ≡ seat.old.line }
    ensures holds { Holds H.shards seat.old.view shard.new seat.new.view }
    ensures ticket { IsTicketOf H.shards N.capacity result (caller_by seat.new.view) }
    ensures own { WritesOwn (caller_by seat.old.view) result (caller_by seat.new.view) }
    ensures wrote { WritesNotes seat.old.view.notes result seat.new.view.notes }
    ensures outcome { IsOutcome N.capacity shard.old.records 0 (Write change) result shard.new.records }
    ensures floor { shard.new.floor ≡ shard.old.floor }
    ensures is { (result.request ≡ request.value) × (result.since ≡ since) × IsSome result.reply }
{
    let published = push_drawn::<H, N, G>(line, seat, shard, &request, change, gate);
    line.observe(seat, shard.floor());
    ticket_of(line, request, since, published)
}

/// The ticket of a write that was published at a number, with its reply, or found all numbers drawn.
fn ticket_of<H: Sharding, N: Naming>(
    line: &Line<Writing, ByShards<H>>,
    request: Snapshot<Request>,
    since: u64,
    published: Option<(u64, Reply)>,
) -> Ticket<H, N>
    requires { line.now.capacity ≡ N.capacity }
    ensures { result ≡ ticket_by N.capacity request.value since published }
{
    match published {
        Some((number, reply)) => Ticket {
            request,
            since,
            saw: number,
            place: number,
            reply: Some(reply),
            of: PhantomData,
        },
        None => Ticket {
            request,
            since,
            saw: line.capacity(),
            place: line.capacity(),
            reply: Some(Reply::Refused(Reason::StoreFull)),
            of: PhantomData,
        },
    }
}

/// Draws a number for the write, pushes its record, and fills it; or finds all numbers drawn.
fn push_drawn<H: Sharding, N: Naming, G: Gate>(
    line: &Line<Writing, ByShards<H>>,
    seat: &mut ShardSeat<Writing>,
    shard: &mut Shard,
    request: &Snapshot<Request>,
    change: Change,
    gate: &G,
) -> Option<(u64, Reply)>
    requires line { (seat.old.line ≡ line.now.name) × (line.now.capacity ≡ N.capacity) }
    requires pending { seat.old.view.plain.pending ≡ None }
    requires note { MayDraw (home_of H.shards) by_of Accepts (Some (writing_by seat.old.view request.now.value change)) seat.old.view }
    requires room { shard.old.room ≡ Some (change_object change).key }
    requires agrees { AgreesWith shard.old seat.old.view }
    requires long { length seat.old.view.seen ≡ seat.old.view.plain.seen }
    ensures line { seat.new.line ≡ seat.old.line }
    ensures agrees { AgreesWith shard.new seat.new.view }
    ensures some { IfSome result (λ p. IsPublished seat.old.view p.0 (writing_by seat.old.view request.now.value change) seat.new.view
        × (p.1 ≡ accepted change (stamp change p.0)) × (0 < p.0) × (p.0 ≤ N.capacity)
        × (notes_up_to (p.0 - 1) seat.old.view.notes ≡ seat.old.view.notes) × (seat.old.view.plain.seen < p.0)) }
    ensures pushed { IfSome result (λ p. shard.new ≡ pushed shard.old p.0 (version_of change p.0)) }
    ensures kept { IfNone result (shard.new ≡ shard.old) }
    ensures none { IfNone result (seat.new.view ≡ with_plain seat.old.view (used_up seat.old.view.plain)) }
{
    let Some(drawn) = draw::<H>(line, seat, request, &change) else {
        drop(change);
        return None;
    };
    let number = drawn.number();
    gate.between(number);
    let (version, reply) = change.stamp(number);
    shard.push(number, version);
    line.fill(seat, drawn);
    Some((number, reply))
}

/// Draws a number for the write of the caller in the seat.
fn draw<H: Sharding>(
    line: &Line<Writing, ByShards<H>>,
    seat: &mut ShardSeat<Writing>,
    request: &Snapshot<Request>,
    change: &Change,
) -> Option<Drawn>
    requires line { seat.old.line ≡ line.now.name }
    requires pending { seat.old.view.plain.pending ≡ None }
    requires note { MayDraw (home_of H.shards) by_of Accepts (Some (writing_by seat.old.view request.now.value change.now)) seat.old.view }
    ensures line { seat.new.line ≡ seat.old.line }
    ensures some { IfSome result (λ n. seat.new.view ≡ drew_noted seat.old.view n (writing_by seat.old.view request.now.value change.now)) }
    ensures next { IfSome result (λ n. (0 < n)
        × (n ≤ line.now.capacity) × (n ≤ 1048576) × (notes_up_to (n - 1) seat.old.view.notes ≡ seat.old.view.notes)
        × (seat.old.view.plain.seen < n) × All (λ x. x < n) seat.old.view.plain.filled) }
    ensures none { IfNone result (seat.new.view ≡ with_plain seat.old.view (used_up seat.old.view.plain)) }
{
    draw_as::<H, Brand>(line, seat, request, change)
}

fn draw_as<H: Sharding, J: Noting<Writing>>(
    line: &Line<Writing, ByShards<H>>,
    seat: &mut ShardSeat<Writing>,
    request: &Snapshot<Request>,
    change: &Change,
) -> Option<Drawn>
    requires line { seat.old.line ≡ line.now.name }
    requires pending { seat.old.view.plain.pending ≡ None }
    requires picked { J.note ≡ Some (writing_by seat.old.view request.now.value change.now) }
    requires note { MayDraw (home_of H.shards) by_of Accepts J.note seat.old.view }
    ensures line { seat.new.line ≡ seat.old.line }
    ensures some { IfSome result (λ n. seat.new.view ≡ drew_for J.note seat.old.view n) }
    ensures next { IfSome result (λ n. (0 < n)
        × (n ≤ line.now.capacity) × (n ≤ 1048576) × (notes_up_to (n - 1) seat.old.view.notes ≡ seat.old.view.notes)
        × (seat.old.view.plain.seen < n) × All (λ x. x < n) seat.old.view.plain.filled) }
    ensures none { IfNone result (seat.new.view ≡ with_plain seat.old.view (used_up seat.old.view.plain)) }
{
    // Both are for the contract alone; it costs nothing.
    let _ = request;
    let _ = change;
    line.draw_noted::<J>(seat)
}
