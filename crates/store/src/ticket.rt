ghost use Rattle.std.specs.Prelude.{◌≡◌, ◌+◌, ◌<◌, IfSome, length};
ghost use Rattle.store.specs.Callers.{HasRead};
ghost use Rattle.store.specs.Tickets.{IsReply, IsTicketOf, after_reply, due_reply};

use crate::caller::Caller;
use crate::naming::{Naming, Sharding};
use crate::store::Store;
use requests::{Reply, Request};
use std::marker::{Model, PhantomData};
use std::snapshot::Snapshot;

/// A write that was submitted, until its caller may learn the outcome. It keeps the reply, which was made under the
/// shard's lock, and how far the frontier has to be before that is given. It is used with the caller that made it.
#[derive(Drop)]
pub struct Ticket<H: Sharding, N: Naming> {
    pub(crate) request: Snapshot<Request>,
    pub(crate) since: u64,
    pub(crate) saw: u64,
    pub(crate) place: u64,
    pub(crate) reply: Option<Reply>,
    pub(crate) of: PhantomData<(H, N)>,
}

impl<H: Sharding, N: Naming> Model for Ticket<H, N> {
    ghost use Rattle.std.specs.Prelude.{⊤};
    ghost use Rattle.store.specs.Tickets.{Ticket};
    ghost use Rattle.store.specs.Codes.{ticket_coded};

    ghost Value = { Ticket };

    ghost coded = { ticket_coded };

    ghost view = { λ t. record { request = t.request.value; since = t.since; saw = t.saw; place = t.place; reply = t.reply } };

    ghost invariant = { λ t. ⊤ };
}

impl<H: Sharding, N: Naming> Ticket<H, N> {
    /// One try to raise the frontier, one load of it, and then the reply, if the frontier has reached what the write
    /// saw. It takes no memory, and waits for no other caller. A ticket that has given its reply gives none any more.
    /// It gives its reply exactly if the frontier that it loads has reached that number, and looks once whether the
    /// frontier can be raised, unless all numbers are seen.
    ///
    /// The reply's history has as many writes as `place` says, and is a prefix of what the caller has then seen. It
    /// begins with all that the caller had seen at `submit`. An accepted write is the last of it, by this caller and
    /// with this request, and the reply is the plain store's to it; any other reply is the plain store's after it. What
    /// a write saw is its own number if it was accepted, the capacity for StoreFull, and else the revision of its
    /// object, at least 1.
    pub fn try_reply(&mut self, store: &Store<H, N>, caller: &mut Caller<H, N>) -> Option<Reply>
        requires ticket { IsTicketOf H.shards N.capacity self.old caller.old }
        ensures read { HasRead N.capacity caller.old caller.new }
        ensures loaded { caller.new.loads ≡ caller.old.loads + 1 }
        ensures tried { (length caller.old.seen < N.capacity → caller.new.tries ≡ caller.old.tries + 1)
            × (length caller.old.seen ≡ N.capacity → caller.new.tries ≡ caller.old.tries) }
        ensures due { result ≡ due_reply self.old (length caller.new.seen) }
        ensures left { self.new ≡ after_reply self.old (length caller.new.seen) }
        ensures reply { IfSome result (λ reply. IsReply N.capacity self.old reply caller.new) }
        ensures ticket { IsTicketOf H.shards N.capacity self.new caller.new }
    {
        let frontier = caller.try_raise(store.line());
        if frontier < self.saw {
            return None;
        }
        self.reply.take()
    }

    /// The number of an accepted write, which is its revision; else the greater of what the write saw and the frontier
    /// that its caller loaded when it submitted it.
    pub fn place(&self) -> u64
        ensures { result ≡ self.now.place }
    {
        self.place
    }
}
