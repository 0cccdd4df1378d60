// The five kinds of atomic step, a function each. Besides them only the cutting and joining of seats touches a word, by
// a load of the frontier whose value is not used.
ghost use Rattle.std.specs.Prelude.{◌≡◌, ◌+◌, ◌<◌, ◌≤◌, Some, None, IsSome, false};
ghost use Rattle.line.specs.Seat.{IsOf};
ghost use Rattle.line.specs.View.{filled_in, tried};
ghost use Rattle.line.specs.NotedSteps.{Matches, Observes, IsNamed, MayDraw, DrawsNoted};
ghost use Rattle.line.specs.NotedView.{with_plain, saw_noted, looked_noted};

use crate::line::Line;
use crate::notes::{Flooring, Judging, Noting};
use crate::rule::{Draw, Fill, Lift, Look, Name, Observe, Place, Try};

// The table loads word 0 when it splits or joins seats: such a load shows nothing new of the frontier.
pub(crate) const FRONTIER: usize = 0;

pub(crate) const COUNT: usize = 1;

impl<E, K: Judging<E>> Line<E, K> {
    /// Adds one to the count, and returns what it was.
    pub(crate) fn add_to_count<J: Noting<E>>(&self, place: &mut Place<E>) -> u64
        requires line { IsOf self.now.name place.old.table_id place.old.me.0.plain }
        requires seat { (place.old.me.0.plain.pending ≡ None) × (place.old.me.0.plain.spent ≡ false) × (place.old.me.0.plain.seats ≡ 1) }
        requires note { MayDraw K.home K.by K.accepts J.note place.old.me.0 }
        ensures line { (place.new.table_id ≡ place.old.table_id) × (place.new.me.1 ≡ place.old.me.1) }
        ensures drawn { DrawsNoted J.note place.old.me.0 result place.new.me.0 }
    {
        self.table.shared.fetch_add::<Draw<J>>(place, COUNT, 1)
    }

    /// Sets the mark of a number.
    pub(crate) fn set_mark(&self, place: &mut Place<E>, number: u64)
        requires line { IsOf self.now.name place.old.table_id place.old.me.0.plain }
        requires number { (place.old.me.0.plain.pending ≡ Some number) × (0 < number) × (number ≤ place.old.me.0.plain.capacity) }
        ensures line { (place.new.table_id ≡ place.old.table_id) × (place.new.me.1 ≡ place.old.me.1) }
        ensures filled { place.new.me.0 ≡ with_plain place.old.me.0 (filled_in place.old.me.0.plain number) }
    {
        let words = &self.table.shared;
        words.store::<Fill>(place, number as usize + 1, 1);
    }

    /// Loads the mark of a number, and returns whether it is set.
    pub(crate) fn load_mark(&self, place: &mut Place<E>, number: u64) -> bool
        requires line { IsOf self.now.name place.old.table_id place.old.me.0.plain }
        requires number { (0 < number) × (number ≤ place.old.me.0.plain.capacity) }
        ensures line { (place.new.table_id ≡ place.old.table_id) × (place.new.me.1 ≡ place.old.me.1) }
        ensures tried { place.new.me.0 ≡ with_plain place.old.me.0 (tried place.old.me.0.plain number result) }
    {
        let words = &self.table.shared;
        // A mark is 0 until it is set.
        words.load::<Try>(place, number as usize + 1) != 0
    }

    /// Raises the frontier to a number, and returns the frontier after it, which is higher if it was so before.
    pub(crate) fn lift_frontier(&self, place: &mut Place<E>, number: u64) -> u64
        requires line { IsOf self.now.name place.old.table_id place.old.me.0.plain }
        requires next { (number ≡ place.old.me.0.plain.seen + 1) × (place.old.me.0.plain.found ≡ number) }
        ensures line { (place.new.table_id ≡ place.old.table_id) × (place.new.me.1 ≡ place.old.me.1) }
        ensures saw { place.new.me.0 ≡ saw_noted place.old.me.0 result place.new.me.0.seen }
        ensures sees { Matches K.home K.by K.accepts place.old.me.0 result place.new.me.0.seen }
        ensures raised { (number ≤ result) × (result ≤ place.old.me.0.plain.capacity) }
    {
        let found = self
            .table
            .shared
            .fetch_max::<Lift<K>>(place, FRONTIER, number);
        found.max(number)
    }

    /// Loads the frontier.
    pub(crate) fn load_frontier(&self, place: &mut Place<E>) -> u64
        requires line { IsOf self.now.name place.old.table_id place.old.me.0.plain }
        ensures line { (place.new.table_id ≡ place.old.table_id) × (place.new.me.1 ≡ place.old.me.1) }
        ensures looked { place.new.me.0 ≡ looked_noted place.old.me.0 result place.new.me.0.seen }
        ensures sees { Matches K.home K.by K.accepts place.old.me.0 result place.new.me.0.seen }
        ensures risen { (place.old.me.0.plain.seen ≤ result) × (result ≤ self.now.capacity) × (place.old.me.0.plain.capacity ≡ self.now.capacity) }
    {
        self.table.shared.load::<Look<K>>(place, FRONTIER)
    }

    /// Notes what a shard has and its floor, by a load of the frontier whose value is not used.
    pub(crate) fn load_to_observe<F: Flooring>(&self, place: &mut Place<E>)
        requires line { IsOf self.now.name place.old.table_id place.old.me.0.plain }
        requires shard { IsSome place.old.me.0.shard }
        ensures line { (place.new.table_id ≡ place.old.table_id) × (place.new.me.1 ≡ place.old.me.1) }
        ensures capacity { place.old.me.0.plain.capacity ≡ self.now.capacity }
        ensures observed { Observes K.home K.by K.accepts F.floor place.old.me.0 place.new.me.0 }
    {
        // What a seat knows changes by a step of the table alone, here and below; a load changes no word.
        let _ = self.table.shared.load::<Observe<K, F>>(place, FRONTIER);
    }

    /// Names a caller, by a load of the frontier whose value is not used.
    pub(crate) fn load_to_name(&self, place: &mut Place<E>)
        requires line { IsOf self.now.name place.old.table_id place.old.me.0.plain }
        requires caller { place.old.me.0.caller ≡ None }
        ensures line { (place.new.table_id ≡ place.old.table_id) × (place.new.me.1 ≡ place.old.me.1) }
        ensures named { IsNamed K.home K.by K.accepts place.old.me.0 place.new.me.0 }
    {
        let _ = self.table.shared.load::<Name<K>>(place, FRONTIER);
    }
}
