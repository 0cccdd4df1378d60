// What a line does for a caller's seat: it loads the frontier and raises it.
ghost use Rattle.std.specs.Prelude.{◌≡◌, ◌<◌, ◌≤◌, None, IfOk, IsOk};
ghost use mathlib.Core.List.{IsPrefix};
ghost use Rattle.line.specs.NotedSteps.{IsNamed, Matches};
ghost use Rattle.line.specs.NotedView.{KeepsNotes, caller_noted, looked_noted, told};
ghost use Rattle.line.specs.Seat.{after_load, after_try, caller_seat, new_caller_seat};

use crate::line::Line;
use crate::notes::Judging;
use crate::rule::{ForCaller, Tells};
use crate::seat::CallerSeat;
use memory::Memory;

impl<E, K: Judging<E>> Line<E, K> {
    /// Another caller's seat, which has seen what this one has, and has no name. This one stays. Nothing is allocated,
    /// so there always is one.
    pub fn split(&self, seat: &mut CallerSeat<E>) -> Result<CallerSeat<E>, Memory>
        requires line { seat.old.line ≡ self.now.name }
        ensures old { seat.new ≡ seat.old }
        ensures given { IsOk result }
        ensures new { IfOk result (λ s. (s.line ≡ seat.old.line) × (s.view ≡ caller_noted seat.old.view)) }
        ensures plain { IfOk result (λ s. caller_seat s ≡ new_caller_seat seat.old.line seat.old.view.plain.seen) }
    {
        // A `Result` all the same, so that code for callers also fits a line whose seats take memory.
        Ok(CallerSeat {
            place: self.table.shared.split_seat::<ForCaller>(&mut seat.place),
            seen: seat.seen,
        })
    }

    /// Gives a caller's seat a name of its own, which contracts alone see, by a load of the frontier whose value is not
    /// used. No note that was seen has it.
    pub fn name(&self, seat: &mut CallerSeat<E>)
        requires line { seat.old.line ≡ self.now.name }
        requires caller { seat.old.view.caller ≡ None }
        ensures line { seat.new.line ≡ seat.old.line }
        ensures named { IsNamed K.home K.by K.accepts seat.old.view seat.new.view }
    {
        self.load_to_name(&mut seat.place);
    }

    /// The frontier, loaded once, which the seat has then seen. It is at least what the seat had seen. The seat has
    /// then seen the notes up to it, those of a legal log: they begin with what it had seen and what was reported to
    /// it, and up to each number the shard's notes, the caller's own and what was observed are just those seen.
    pub fn frontier(&self, seat: &mut CallerSeat<E>) -> u64
        requires { seat.old.line ≡ self.now.name }
        ensures loaded { caller_seat seat.new ≡ after_load (caller_seat seat.old) result }
        ensures risen { (seat.old.view.plain.seen ≤ result) × (result ≤ self.now.capacity) }
        ensures looked { seat.new.view ≡ looked_noted seat.old.view result seat.new.view.seen }
        ensures sees { Matches K.home K.by K.accepts seat.old.view result seat.new.view.seen }
    {
        seat.seen = self.load_frontier(&mut seat.place);
        seat.seen
    }

    /// Raises the frontier by one, if the number after what the seat has seen is filled. If the frontier is higher
    /// already, the seat only learns it. So the result, which the seat has then seen, is higher exactly if that number
    /// was marked. At the capacity nothing is done. What was seen is a prefix of what is seen then, and all else that
    /// the seat knows stays.
    pub fn raise(&self, seat: &mut CallerSeat<E>) -> u64
        requires { seat.old.line ≡ self.now.name }
        ensures tried { seat.old.view.plain.seen < self.now.capacity → caller_seat seat.new ≡ after_try (caller_seat seat.old) result }
        ensures whole { seat.old.view.plain.seen ≡ self.now.capacity → seat.new ≡ seat.old }
        ensures risen { (seat.new.view.plain.seen ≡ result) × (seat.old.view.plain.seen ≤ result) × (result ≤ self.now.capacity) }
        ensures line { seat.new.line ≡ seat.old.line }
        ensures begins { IsPrefix seat.old.view.seen seat.new.view.seen }
        ensures kept { KeepsNotes seat.old.view seat.new.view }
    {
        if seat.seen == self.capacity {
            return seat.seen;
        }
        let next = seat.seen + 1;
        if self.load_mark(&mut seat.place, next) {
            seat.seen = self.lift_frontier(&mut seat.place, next);
        }
        seat.seen
    }

    /// Reports to a caller's seat what another caller has seen. The other one's seat stays. What it has seen is then a
    /// prefix of what the seat's next load of the frontier finds.
    pub fn tell(&self, from: &mut CallerSeat<E>, seat: &mut CallerSeat<E>)
        requires { (from.old.line ≡ self.now.name) × (seat.old.line ≡ self.now.name) }
        ensures from { from.new ≡ from.old }
        ensures line { seat.new.line ≡ seat.old.line }
        ensures told { seat.new.view ≡ told seat.old.view from.old.view }
    {
        let witness = self.table.shared.split_seat::<ForCaller>(&mut from.place);
        self.table
            .shared
            .join_seat::<Tells>(&mut seat.place, witness);
    }
}
