ghost use Rattle.std.specs.Prelude.{◌≡◌, ℕ, ◌+◌, ◌<◌, ◌≤◌, [], ◌↔◌, None, false, All, IfOk, IsSome, IsErrOf, vec_len};
ghost use Rattle.std.specs.Slots.{slots_items, slots_len, IsFull};
ghost use Rattle.line.specs.NotedView.{IsCut, cut_off, first_noted, shard_noted};
ghost use Rattle.line.specs.Rule.{KeepsRule, drawn_of, frontier_of};
ghost use Rattle.line.specs.Seat.{AreShards, IsOf, caller_seat, new_caller_seat, new_shard_seat, shard_seat};

use crate::error::LineError;
use crate::notes::Judging;
use crate::rule::{ForShard, Place, Words};
use crate::seat::{CallerSeat, ShardSeat};
use crate::steps::{COUNT, FRONTIER};
use std::alloc::{AllocError, Global};
use std::marker::Model;

/// The most numbers that a line may have.
pub const MAX_NUMBERS: u64 = 1_048_576;

/// The most shards that a line may serve.
pub const MAX_SHARDS: usize = 64;

/// The numbers from 1 to a capacity, which shards draw and fill in any order, and a frontier up to which all of them are
/// filled.
///
/// Threads share a line by `&`, each with a seat of its own. A call by a seat makes at most two atomic steps on the
/// line's words, takes no lock, allocates nothing, and never waits.
///
/// Each number that is drawn has a note of the type E, which says what it is drawn for, and K says what contracts know
/// of notes. Contracts alone see them: no note is in memory.
#[derive(Drop)]
pub struct Line<E, K: Judging<E>> {
    pub(crate) table: Words<E, K>,
    pub(crate) capacity: u64,
}

impl<E, K: Judging<E>> Model for Line<E, K> {
    ghost use Rattle.std.specs.Prelude.{◌≡◌, ◌+◌, ◌<◌, ◌≤◌};
    ghost use Rattle.line.specs.Seat.{Line};

    ghost Value = { Line };

    ghost view = { λ l. record { name = l.table.shared.table_id; capacity = l.capacity } };

    ghost invariant = { λ l. (l.table.shared.table_id.words ≡ l.capacity + 2) × (l.table.shared.table_id.slots ≡ 0)
        × (l.table.shared.key ≡ l.capacity) × (0 < l.capacity) × (l.capacity ≤ 1048576) };
}

/// A new line with its seats: one for each shard, and one for a first caller.
#[derive(Drop)]
pub struct Ends<E, K: Judging<E>> {
    pub line: Line<E, K>,
    pub shards: Vec<ShardSeat<E>>,
    pub caller: CallerSeat<E>,
}

/// The numbers of a closed line: those from 1 to `drawn` were drawn, and those up to `frontier` are known to be filled.
#[derive(Drop)]
pub struct Closed {
    pub drawn: u64,
    pub frontier: u64,
}

impl<E, K: Judging<E>> Line<E, K> {
    /// A line with the numbers from 1 to `capacity`, none of them drawn. Each shard has a fresh seat, in order, and
    /// there is one caller's. Only this call can run out of memory.
    ///
    /// # Errors
    ///
    /// The first that applies: BadCapacity if `capacity` is not from 1 to 1,048,576; BadShards if `shards` is not from
    /// 1 to 64.
    pub fn new(alloc: Global, capacity: u64, shards: usize) -> Result<Ends<E, K>, LineError>
        ensures line { IfOk result (λ e. e.line.capacity ≡ capacity) }
        ensures shards { IfOk result (λ e. (vec_len e.shards ≡ shards)
            × AreShards e.line.name capacity e.shards.items) }
        ensures fresh { IfOk result (λ e. All (λ s. (shard_seat s ≡ new_shard_seat e.line.name) × (s.view.caller ≡ None)) e.shards.items) }
        ensures caller { IfOk result (λ e. (caller_seat e.caller ≡ new_caller_seat e.line.name 0) × (e.caller.view.caller ≡ None) × (e.caller.view.seen ≡ [])) }
        ensures bad_capacity { IsErrOf result LineError.BadCapacity ↔ ((1 ≤ capacity → 1048576 < capacity)) }
        ensures bad_shards { IsErrOf result LineError.BadShards
            ↔ ((1 ≤ capacity) × (capacity ≤ 1048576) × (1 ≤ shards → 64 < shards)) }
    {
        if capacity == 0 || capacity > MAX_NUMBERS {
            return Err(LineError::BadCapacity);
        }
        if shards == 0 || shards > MAX_SHARDS {
            return Err(LineError::BadShards);
        }
        // Two more than there are numbers: the frontier and the count come before the marks.
        let words = vec![in alloc; 0; capacity as usize + 2]?;
        let (table, mut place) = Words::of_words(alloc, words.as_slice(), &capacity)?;
        let shards = shard_seats::<E, K>(alloc, &table, &mut place, shards)?;
        Ok(Ends {
            line: Line { table, capacity },
            shards,
            caller: CallerSeat { place, seen: 0 },
        })
    }

    /// How many numbers there are.
    pub fn capacity(&self) -> u64
        ensures { result ≡ self.now.capacity }
    {
        self.capacity
    }

    /// How many numbers were drawn, and the frontier. Both are of words that keep the line's rule: the frontier is at
    /// most the numbers drawn, and these at most the capacity.
    pub fn close(self) -> Closed
        ensures kept { KeepsRule self.capacity result.drawn result.frontier }
        ensures within { (result.frontier ≤ result.drawn) × (result.drawn ≤ self.capacity) }
    {
        let Line { table, capacity } = self;
        summed_up(table.close(), capacity)
    }

    /// The same, by a caller that gives up its seat: the frontier is at least what it has seen, so once it has seen the
    /// capacity, both are the capacity.
    pub fn close_with(self, seat: CallerSeat<E>) -> Closed
        requires { seat.line ≡ self.name }
        ensures within { (result.frontier ≤ result.drawn) × (result.drawn ≤ self.capacity) }
        ensures seen { seat.view.plain.seen ≤ result.frontier }
    {
        let Line { table, capacity } = self;
        let CallerSeat { place, seen: _ } = seat;
        summed_up(table.close_with(place), capacity)
    }
}

// What the words of a closed table say.
fn summed_up(words: atomic_table::Closed<(), Global>, capacity: u64) -> Closed
    requires { IsFull words.words × (slots_len words.words ≡ capacity + 2) × (slots_len words.slots ≡ 0) }
    ensures frontier { result.frontier ≡ frontier_of (slots_items words.words) }
    ensures drawn { result.drawn ≡ drawn_of capacity (slots_items words.words) }
{
    let frontier = words.word(FRONTIER);
    let count = words.word(COUNT);
    words.free();
    Closed {
        drawn: count.min(capacity),
        frontier,
    }
}

// The seats of so many shards, cut off the first seat.
fn shard_seats<E, K: Judging<E>>(
    alloc: Global,
    table: &Words<E, K>,
    first: &mut Place<E>,
    shards: usize,
) -> Result<Vec<ShardSeat<E>>, AllocError>
    requires table { IsOf table.now.shared.table_id first.old.table_id first.old.me.0.plain }
    requires shards { (first.old.me ≡ (first_noted first.old.me.0.plain.capacity, [])) × (shards ≤ 64) }
    ensures first { (first.new.table_id ≡ first.old.table_id) × (first.new.me.1 ≡ []) × ((n : ℕ) × IsCut n first.old.me.0 first.new.me.0) }
    ensures seats { IfOk result (λ v. (vec_len v ≡ shards) × AreShards first.old.table_id first.old.me.0.plain.capacity v.items) }
{
    let mut seats = Vec::new(alloc);
    for _ in 0..shards {
        seats.push(next_shard_seat::<E, K>(table, first))?;
    }
    Ok(seats)
}

// The seat of the next shard, cut off the first seat.
fn next_shard_seat<E, K: Judging<E>>(table: &Words<E, K>, first: &mut Place<E>) -> ShardSeat<E>
    requires table { IsOf table.now.shared.table_id first.old.table_id first.old.me.0.plain }
    requires left { (0 < first.old.me.0.plain.seats) × (first.old.me.0.plain.spent ≡ false) × IsSome first.old.me.0.made }
    ensures first { (first.new.table_id ≡ first.old.table_id) × (first.new.me ≡ (cut_off first.old.me.0, first.old.me.1)) }
    ensures seat { (result.line ≡ first.old.table_id) × (result.view ≡ shard_noted first.old.me.0) }
{
    ShardSeat {
        place: table.shared.split_seat::<ForShard>(first),
        spent: false,
    }
}
