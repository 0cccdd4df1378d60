// What a line does for a shard's seat: it allocates numbers and marks them as filled.
ghost use Rattle.std.specs.Prelude.{◌≡◌, ◌-◌, ◌<◌, ◌≤◌, Some, None, true, All, IfSome, IfNone};
ghost use Rattle.line.specs.Notes.{notes_up_to};
ghost use Rattle.line.specs.NotedSteps.{MayDraw};
ghost use Rattle.line.specs.NotedView.{drew_for, with_plain};
ghost use Rattle.line.specs.Seat.{after_fill, shard_seat};
ghost use Rattle.line.specs.View.{filled_in, used_up};

use crate::line::Line;
use crate::notes::{Judging, Noting};
use crate::seat::{Drawn, ShardSeat};

impl<E, K: Judging<E>> Line<E, K> {
    /// The next number, for the note that J picks, or none if all are drawn. A seat that got none does not try again.
    /// The number is then the seat's open one: it is from 1 to the capacity, and above all that the seat has filled or
    /// its caller has seen. Its note joins those of the shard and of the caller.
    ///
    /// The note has to be of this shard and of the caller in the seat, and accepted over the shard's notes. The seat is
    /// the line's and has no open number.
    pub fn draw_noted<J: Noting<E>>(&self, seat: &mut ShardSeat<E>) -> Option<Drawn>
        requires line { seat.old.line ≡ self.now.name }
        requires pending { seat.old.view.plain.pending ≡ None }
        requires note { MayDraw K.home K.by K.accepts J.note seat.old.view }
        ensures line { seat.new.line ≡ seat.old.line }
        ensures some { IfSome result (λ n. seat.new.view ≡ drew_for J.note seat.old.view n) }
        ensures next { IfSome result (λ n. (0 < n) × (n ≤ self.now.capacity)
            × All (λ x. x < n) seat.old.view.plain.filled
            × (notes_up_to (n - 1) seat.old.view.notes ≡ seat.old.view.notes) × (seat.old.view.plain.seen < n)) }
        ensures limit { IfSome result (λ n. n ≤ 1048576) }
        ensures none { IfNone result (seat.new.view ≡ with_plain seat.old.view (used_up seat.old.view.plain)) }
        ensures spent { seat.old.view.plain.spent ≡ true → result ≡ None }
    {
        // So each seat adds to the count in vain at most once, and the count never wraps.
        if seat.spent {
            return None;
        }
        let before = self.add_to_count::<J>(&mut seat.place);
        if before < self.capacity {
            return Some(Drawn { number: before + 1 });
        }
        seat.spent = true;
        None
    }

    /// Marks the seat's open number as filled, after all that it filled before.
    pub fn fill(&self, seat: &mut ShardSeat<E>, drawn: Drawn)
        requires line { seat.old.line ≡ self.now.name }
        requires pending { seat.old.view.plain.pending ≡ Some drawn }
        ensures filled { seat.new.view ≡ with_plain seat.old.view (filled_in seat.old.view.plain drawn) }
        ensures plain { shard_seat seat.new ≡ after_fill (shard_seat seat.old) drawn }
    {
        let Drawn { number } = drawn;
        self.set_mark(&mut seat.place, number);
    }
}
