ghost use Rattle.std.specs.Prelude.{◌≡◌, ℕ, ◌<◌, ◌≤◌, Some, None, All, IfSome, IfNone, true};
ghost use Rattle.line.specs.Blanks.{blank_at};
ghost use Rattle.line.specs.Seat.{shard_seat};

use crate::line::Line;
use crate::notes::{Judging, Noting};
use crate::seat::{Drawn, ShardSeat};
use std::marker::Brand;

/// A note that says nothing but which shard it belongs to.
pub struct Blank {
    /// The number of the shard, from 0 on.
    pub home: u64,
}

/// Each blank note is accepted, and of no caller.
pub struct Blanks;

impl Judging<Blank> for Blanks {
    ghost use Rattle.std.specs.Prelude.{⊤};

    ghost home = { λ e. e.home };

    ghost by = { λ _. 0 };

    ghost accepts = { λ _ _. ⊤ };
}

impl Line<Blank, Blanks> {
    /// The next number, with a blank note, or none if all are drawn. A seat that got none does not try again. The
    /// number is then the seat's open one: it is from 1 to the capacity, and above all that the seat has filled.
    ///
    /// The seat is the line's, has no open number, and no caller is in it.
    pub fn draw(&self, seat: &mut ShardSeat<Blank>) -> Option<Drawn>
        requires line { seat.old.line ≡ self.now.name }
        requires pending { seat.old.view.plain.pending ≡ None }
        requires alone { seat.old.view.caller ≡ None }
        ensures some { IfSome result (λ n. shard_seat seat.new ≡ record (shard_seat seat.old) { pending = Some n }) }
        ensures next { IfSome result (λ n. (0 < n) × (n ≤ self.now.capacity) × All (λ x. x < n) (shard_seat seat.old).filled) }
        ensures none { IfNone result (shard_seat seat.new ≡ record (shard_seat seat.old) { spent = true }) }
        ensures spent { (shard_seat seat.old).spent ≡ true → result ≡ None }
        ensures alone { seat.new.view.caller ≡ None }
    {
        let _ = &seat.spent;
        draw_blank::<Brand>(self, seat)
    }
}

fn draw_blank<J: Noting<Blank>>(
    line: &Line<Blank, Blanks>,
    seat: &mut ShardSeat<Blank>,
) -> Option<Drawn>
    requires line { seat.old.line ≡ line.now.name }
    requires pending { seat.old.view.plain.pending ≡ None }
    requires alone { seat.old.view.caller ≡ None }
    requires note { J.note ≡ Some (blank_at seat.old.view.shard) }
    requires shard { (i : ℕ) × (seat.old.view.shard ≡ Some i) }
    ensures some { IfSome result (λ n. shard_seat seat.new ≡ record (shard_seat seat.old) { pending = Some n }) }
    ensures next { IfSome result (λ n. (0 < n) × (n ≤ line.now.capacity) × All (λ x. x < n) (shard_seat seat.old).filled) }
    ensures none { IfNone result (shard_seat seat.new ≡ record (shard_seat seat.old) { spent = true }) }
    ensures spent { (shard_seat seat.old).spent ≡ true → result ≡ None }
    ensures alone { seat.new.view.caller ≡ None }
{
    line.draw_noted::<J>(seat)
}
