use std::marker::Brand;

/// A marker of how many shards a store has, which says where a key is kept. It is chosen before the store's line is
/// made: a store is made in a function that is generic over it and is called with `Brand`.
pub trait Sharding {
    ghost use Rattle.std.specs.Prelude.{ℕ};

    // how many shards the line serves
    ghost shards: { ℕ };
}

impl Sharding for Brand {
    ghost shards = { 0 };
}

/// A marker of a store: by it a shard, a caller or a ticket is known to be of that store, also when it comes out of a
/// lock. It is chosen once the line is there: a store is used in a function that is generic over it, has it in no type
/// of its parameters, and is called with `Brand`.
pub trait Naming {
    ghost use Rattle.std.specs.Prelude.{ℕ};
    ghost use Rattle.line.specs.Seat.{LineName};

    // the name of its line
    ghost line: { LineName };

    // how many numbers the line has, which are all the revisions of the store
    ghost capacity: { ℕ };
}

impl Naming for Brand {
    ghost use Rattle.line.specs.Seat.{no_line};

    ghost line = { no_line };

    ghost capacity = { 0 };
}
