ghost use Rattle.std.specs.Prelude.{◌≡◌};

use crate::rule::Place;
use std::marker::Model;

/// A shard's right to draw numbers of a line and to fill them, one at a time. A caller's seat may be in it, which a visit
/// puts there (`Line::enter`).
#[derive(Drop)]
pub struct ShardSeat<E> {
    pub(crate) place: Place<E>,
    pub(crate) spent: bool,
}

impl<E> Model for ShardSeat<E> {
    ghost use Rattle.std.specs.Prelude.{◌≡◌, ℕ, ◌<◌, ◌≤◌, [], Some, IsSome};
    ghost use Rattle.line.specs.Seat.{IsOf, Seat};

    ghost Value = { Seat E };

    ghost view = { λ s. record { line = s.place.table_id; view = s.place.me.0 } };

    ghost invariant = { λ s. IsOf s.place.table_id s.place.table_id s.place.me.0.plain
        × (s.place.me.1 ≡ [])
        × (s.place.me.0.plain.seats ≡ 1) × (s.place.me.0.plain.spent ≡ s.spent) × IsSome s.place.me.0.shard
        × (s.place.me.0.plain.seen ≤ s.place.me.0.plain.capacity)
        × ((n : ℕ) → s.place.me.0.plain.pending ≡ Some n → (0 < n) × (n ≤ s.place.me.0.plain.capacity)) };
}

/// A caller's right to raise a line's frontier, and what it has seen of it. It learns more only by its own calls.
#[derive(Drop)]
pub struct CallerSeat<E> {
    pub(crate) place: Place<E>,
    pub(crate) seen: u64,
}

impl<E> Model for CallerSeat<E> {
    ghost use Rattle.std.specs.Prelude.{◌≡◌, ◌≤◌, [], None, false};
    ghost use Rattle.line.specs.Seat.{IsOf, Seat};

    ghost Value = { Seat E };

    ghost view = { λ s. record { line = s.place.table_id; view = s.place.me.0 } };

    ghost invariant = { λ s. IsOf s.place.table_id s.place.table_id s.place.me.0.plain
        × (s.place.me.1 ≡ [])
        × (s.place.me.0.plain.seen ≡ s.seen) × (s.seen ≤ s.place.me.0.plain.capacity)
        × (s.place.me.0.shard ≡ None) × (s.place.me.0.plain.filled ≡ []) × (s.place.me.0.plain.pending ≡ None) × (s.place.me.0.plain.spent ≡ false) };
}

impl<E> CallerSeat<E> {
    /// The highest frontier that the seat knows of. It makes no step.
    pub fn seen(&self) -> u64
        ensures { result ≡ self.now.view.plain.seen }
    {
        self.seen
    }
}

/// A number that was drawn. It can't be dropped: `fill` uses it up. So a function that draws a number and neither
/// passes it on nor fills it is refused.
pub struct Drawn {
    pub(crate) number: u64,
}

impl Model for Drawn {
    ghost use Rattle.std.specs.Prelude.{ℕ};

    ghost Value = { ℕ };

    ghost view = { λ d. d.number };
}

impl Drawn {
    /// The number, from 1 to the line's capacity.
    pub fn number(&self) -> u64
        ensures { result ≡ self.now }
    {
        self.number
    }
}
