ghost use Rattle.std.specs.Prelude.{◌≡◌, ℕ};
ghost use mathlib.Core.List.{IsPrefix};
ghost use Rattle.store.specs.Callers.{Caller};
ghost use Rattle.store.specs.Tickets.{IsTicketOf, Ticket};

/// A ticket remains one of its caller, whatever the caller sees and notes after it.
pub fn tickets_stay_their_callers()
    ensures { (shards capacity : ℕ) (t : Ticket) (c d : Caller) → IsTicketOf shards capacity t c
        → d.name ≡ c.name → IsPrefix c.observations d.observations → IsPrefix c.seen d.seen → IsTicketOf shards capacity t d }
{}
