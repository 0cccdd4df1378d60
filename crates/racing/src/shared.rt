ghost use Rattle.std.specs.Prelude.{◌≡◌, ◌<◌, ◌≤◌, ℕ, true, length, IfOk, IfSome};
ghost use Rattle.requests.specs.Verdict.{is_write};
ghost use Rattle.requests.specs.declared.request.Request.{Request};
ghost use Rattle.requests.specs.declared.request.Request.TheVariants as request;
ghost use Rattle.store.specs.Callers.{Caller};
ghost use Rattle.racing.specs.Answered.{HasReply, IsAnswered, Learns};

use objects::{Key, Kind, Memory, Text};
use requests::{Reply, Request};
use std::sync::Wait;
use store::{Gate, StoreError};

/// A store that threads share, as racers use it. Each reply is the plain store's in what its caller has then seen, up to
/// a number: the one that an accepted write drew, or else the one up to which the answer looked. A caller never sees
/// less than before, and no number is below what it had seen when it sent the request.
pub trait SharedStore {
    /// Who sends requests: each thread has one.
    type Caller: Drop;

    /// A write whose reply waits for the frontier.
    type Ticket: Drop;

    ghost shards: { ℕ };

    /// How many revisions it may allocate.
    ghost capacity: { ℕ };

    /// What a caller has seen and noted.
    ghost known: { Self.Caller → Caller };

    /// The write of a ticket.
    ghost asked: { Self.Ticket → Request };

    /// How much its caller had seen when it submitted the write.
    ghost since_of: { Self.Ticket → ℕ };

    ghost place_of: { Self.Ticket → ℕ };

    ghost is_of: { Self.Ticket → Self.Caller → Type 0 };

    /// Another caller.
    fn caller<R: Wait>(&self, rt: &R) -> Result<Self::Caller, StoreError>;

    /// Sends a write.
    fn submit<R: Wait, G: Gate>(
        &self,
        rt: &R,
        caller: &mut Self::Caller,
        request: Request,
        gate: &G,
    ) -> Result<Self::Ticket, Memory>
        requires { is_write request ≡ true }
        ensures learns { Learns (known caller.old) (known caller.new) }
        ensures ticket { IfOk result (λ ticket. (asked ticket ≡ request) × (since_of ticket ≡ length (known caller.old).seen) × is_of ticket caller.new) };

    /// Tries to raise the frontier, and then returns the reply if the frontier has reached it.
    fn try_reply(&self, ticket: &mut Self::Ticket, caller: &mut Self::Caller) -> Option<Reply>
        requires { is_of ticket.old caller.old }
        ensures learns { Learns (known caller.old) (known caller.new) }
        ensures stays { is_of ticket.new caller.new }
        ensures same { (asked ticket.new ≡ asked ticket.old) × (since_of ticket.new ≡ since_of ticket.old) × (place_of ticket.new ≡ place_of ticket.old) }
        ensures answered { IfSome result (λ reply. (since_of ticket.old ≤ place_of ticket.old)
            × IsAnswered shards capacity (known caller.new) (asked ticket.old) reply (place_of ticket.old)) };

    /// The number of an accepted write, or else the one up to which its answer looked.
    fn place(&self, ticket: &Self::Ticket) -> u64
        ensures { result ≡ place_of ticket.now };

    /// Reads an object.
    fn get<R: Wait>(&self, rt: &R, caller: &mut Self::Caller, key: &Key) -> Result<Reply, Memory>
        ensures { IfOk result (λ reply. HasReply shards capacity (known caller.old) (known caller.new) (request.Get key.now) reply (length (known caller.new).seen)) };

    /// Reads all objects of a kind in a namespace.
    fn list<R: Wait>(
        &self,
        rt: &R,
        caller: &mut Self::Caller,
        kind: Kind,
        namespace: &Text,
    ) -> Result<Reply, Memory>
        ensures { IfOk result (λ reply. HasReply shards capacity (known caller.old) (known caller.new) (request.List kind namespace.now 0) reply (length (known caller.new).seen)) };

    /// The same as of a number.
    fn list_at<R: Wait>(
        &self,
        rt: &R,
        caller: &mut Self::Caller,
        kind: Kind,
        namespace: &Text,
        exact: u64,
    ) -> Result<Reply, Memory>
        requires { 0 < exact }
        ensures { IfOk result (λ reply. HasReply shards capacity (known caller.old) (known caller.new) (request.List kind namespace.now exact) reply (length (known caller.new).seen)) };

    /// Drops what was before a number.
    fn compact<R: Wait>(&self, rt: &R, caller: &mut Self::Caller, to: u64) -> Reply
        ensures { HasReply shards capacity (known caller.old) (known caller.new) (request.Compact to) result (length (known caller.new).seen) };

    /// The frontier that the caller loaded last.
    fn seen(&self, caller: &Self::Caller) -> u64
        ensures { result ≡ length (known caller.now).seen };
}
