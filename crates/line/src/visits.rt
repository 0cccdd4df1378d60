// A caller's visit to a shard: its seat enters the shard's, so that one step can be about both, and leaves it. A store
// does so for as long as it holds the shard's lock.
ghost use Rattle.std.specs.Prelude.{◌≡◌, ◌≤◌, None};
ghost use Rattle.line.specs.NotedSteps.{Matches, Observes};
ghost use Rattle.line.specs.NotedView.{entered, left_with, looked_noted, stayed};

use crate::line::Line;
use crate::notes::{Flooring, Judging};
use crate::rule::{Enters, Leaves};
use crate::seat::{CallerSeat, ShardSeat};
use std::marker::Brand;

impl<E, K: Judging<E>> Line<E, K> {
    /// A caller's seat enters a shard's, and what the shard's last caller had seen is reported to it. The result is
    /// what the caller has seen.
    pub fn enter(&self, seat: &mut ShardSeat<E>, caller: CallerSeat<E>) -> u64
        requires line { (seat.old.line ≡ self.now.name) × (caller.line ≡ self.now.name) }
        requires alone { seat.old.view.caller ≡ None }
        ensures line { seat.new.line ≡ seat.old.line }
        ensures both { seat.new.view ≡ entered seat.old.view caller.view }
        ensures seen { result ≡ caller.view.plain.seen }
    {
        let CallerSeat { place, seen } = caller;
        self.table
            .shared
            .join_seat::<Enters>(&mut seat.place, place);
        seen
    }

    /// The frontier, loaded once, which the caller in the shard's seat has then seen. All else is as of `frontier`.
    pub fn look(&self, seat: &mut ShardSeat<E>) -> u64
        requires { seat.old.line ≡ self.now.name }
        ensures line { seat.new.line ≡ seat.old.line }
        ensures risen { (seat.old.view.plain.seen ≤ result) × (result ≤ self.now.capacity) }
        ensures looked { seat.new.view ≡ looked_noted seat.old.view result seat.new.view.seen }
        ensures sees { Matches K.home K.by K.accepts seat.old.view result seat.new.view.seen }
    {
        self.load_frontier(&mut seat.place)
    }

    /// Notes for the caller in a shard's seat what the shard has, by a load of the frontier whose value is not used. It
    /// is noted that the shard's notes are just these if so many numbers are drawn, from those seen to the capacity,
    /// which a spent seat has. The floor, from which on the shard can be read, is noted with them.
    pub fn observe(&self, seat: &mut ShardSeat<E>, floor: u64)
        requires { seat.old.line ≡ self.now.name }
        ensures line { seat.new.line ≡ seat.old.line }
        ensures capacity { seat.old.view.plain.capacity ≡ self.now.capacity }
        ensures observed { Observes K.home K.by K.accepts floor seat.old.view seat.new.view }
    {
        self.observe_with::<Brand>(seat, floor);
    }

    fn observe_with<F: Flooring>(&self, seat: &mut ShardSeat<E>, floor: u64)
        requires line { seat.old.line ≡ self.now.name }
        requires floor { F.floor ≡ floor }
        ensures line { seat.new.line ≡ seat.old.line }
        ensures capacity { seat.old.view.plain.capacity ≡ self.now.capacity }
        ensures observed { Observes K.home K.by K.accepts F.floor seat.old.view seat.new.view }
    {
        // For the contract alone; it costs nothing.
        let _ = floor;
        self.load_to_observe::<F>(&mut seat.place);
    }

    /// The caller's seat, which has seen so much, leaves the shard's. It has all that it learned; the shard's seat
    /// keeps its notes and the caller's frontier.
    pub fn leave(&self, seat: &mut ShardSeat<E>, seen: u64) -> CallerSeat<E>
        requires line { seat.old.line ≡ self.now.name }
        requires seen { seen ≡ seat.old.view.plain.seen }
        ensures line { (seat.new.line ≡ seat.old.line) × (result.line ≡ seat.old.line) }
        ensures stayed { seat.new.view ≡ stayed seat.old.view }
        ensures left { result.view ≡ left_with seat.old.view }
    {
        CallerSeat {
            place: self.table.shared.split_seat::<Leaves>(&mut seat.place),
            seen,
        }
    }
}
