//! Short runs worked out by hand, which show that the definitions of a step and of the order mean what they should.
ghost use Rattle.std.specs.Prelude.{◌≡◌, [], ◌∷◌, codes};
ghost use Rattle.interleavings.specs.Examples.{answers, crash_after_reserve, crash_before, crash_in_holding, full_store, hole, list_beside_a_write, order_in, past_list, read_below_a_hole};

/// The replies that the callers of some short runs get, their places, and their resource versions.
pub fn short_runs()
    ensures hole { answers 100 hole ≡
        record { place = 17; name = codes "AlreadyExists"; version = 0 } ∷ record { place = 18; name = codes "Created"; version = 2 } ∷ [] }
    ensures full_store { answers 1 full_store ≡
        record { place = 9; name = codes "StoreFull"; version = 0 } ∷ record { place = 12; name = codes "AlreadyExists"; version = 0 } ∷ [] }
    ensures crash_after_reserve { answers 100 crash_after_reserve ≡ record { place = 9; name = codes "AlreadyExists"; version = 0 } ∷ [] }
    ensures crash_in_holding { answers 100 crash_in_holding ≡ record { place = 8; name = codes "Created"; version = 1 } ∷ [] }
    ensures past_list { answers 10 past_list ≡
        record { place = 7; name = codes "TooLarge"; version = 0 } ∷ record { place = 8; name = codes "Created"; version = 1 }
        ∷ record { place = 14; name = codes "Created"; version = 2 } ∷ record { place = 19; name = codes "Compacted"; version = 2 }
        ∷ record { place = 22; name = codes "Listed"; version = 1 } ∷ record { place = 25; name = codes "Expired"; version = 0 } ∷ [] }
{}

/// The orders of their requests, by the places of the calls.
pub fn short_orders()
    ensures hole { order_in 100 hole ≡ 0 ∷ 3 ∷ 7 ∷ [] }
    ensures full_store { order_in 1 full_store ≡ 0 ∷ 3 ∷ 10 ∷ [] }
    ensures crash_after_reserve { order_in 100 crash_after_reserve ≡ 0 ∷ 7 ∷ [] }
    ensures crash_in_holding { order_in 100 crash_in_holding ≡ 3 ∷ [] }
    ensures past_list { order_in 10 past_list ≡ 4 ∷ 0 ∷ 9 ∷ 15 ∷ 17 ∷ 23 ∷ [] }
    ensures read_below_a_hole { order_in 100 read_below_a_hole ≡ 8 ∷ 0 ∷ 3 ∷ 16 ∷ [] }
    ensures list_beside_a_write { order_in 10 list_beside_a_write ≡ 0 ∷ 6 ∷ 9 ∷ [] }
    ensures crash_before_reserve { order_in 10 (crash_before 2) ≡ 7 ∷ [] }
    ensures crash_before_publish { order_in 10 (crash_before 3) ≡ 0 ∷ 7 ∷ [] }
    ensures crash_before_raise { order_in 10 (crash_before 4) ≡ 0 ∷ 7 ∷ [] }
    ensures crash_before_reply { order_in 10 (crash_before 5) ≡ 0 ∷ 7 ∷ [] }
{}
