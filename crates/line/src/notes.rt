// What contracts say of notes.
use std::marker::Brand;

/// What contracts know of a note of the type E. It is apart from E, as more than E may decide it: which shard a key
/// belongs to, for one, depends on how many shards there are.
pub trait Judging<E> {
    ghost use Rattle.std.specs.Prelude.{ℕ, List};

    // the number of the shard that a note belongs to, from 0 on
    ghost home: { E → ℕ };

    // the name of the caller that a note is of, from 1 on, or 0 for none
    ghost by: { E → ℕ };

    // whether a shard accepts a note over the notes that it has, each with its number
    ghost accepts: { List (ℕ × E) → E → Type 0 };
}

/// The note that a number is drawn for, which a function picks by a call at `Brand`.
pub trait Noting<E> {
    ghost use Rattle.std.specs.Prelude.{Option};

    ghost note: { Option E };
}

impl<E> Noting<E> for Brand {
    ghost use Rattle.std.specs.Prelude.{None};

    ghost note = { None };
}

/// The floor that is noted of a shard, which a function picks by a call at `Brand`.
pub(crate) trait Flooring {
    ghost use Rattle.std.specs.Prelude.{ℕ};

    ghost floor: { ℕ };
}

impl Flooring for Brand {
    ghost floor = { 0 };
}
