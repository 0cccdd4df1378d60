ghost use Rattle.std.specs.Prelude.{◌≡◌};
ghost use Rattle.interleavings.specs.Callers.{named_by};

use requests::Request;

/// One atomic step of one caller, or of the frontier. An event that is not enabled in its caller's phase changes
/// nothing.
///
/// The events of a write are `Call`, `Check`, `Reserve`, `Publish`, `Reply`; those of a get or a list of now are
/// `Call`, `Read`, a `Part` for each shard that it reads, `Reply`; a list at a resource version has `ReadAt` in place
/// of `Read`; a compaction has `Call`, `Compact`, `Reply`.
#[derive(Drop)]
pub enum Event {
    /// An idle caller sends a request.
    Call(u64, Request),
    /// A write is judged over the newest object of its key, unless the key's shard is held. An accepted one holds the
    /// shard; the others wait for the frontier to reach what they saw.
    Check(u64),
    /// The caller that holds a shard allocates the next number, or finds that the store is full.
    Reserve(u64),
    /// The write of the allocated number is put into its shard, the number is filled, and the shard is free.
    Publish(u64),
    /// The frontier goes up by one if the next number is filled.
    Raise,
    /// A get or a list begins, at the frontier.
    Read(u64),
    /// A list at a resource version begins, unless the version is below the floor or above the frontier.
    ReadAt(u64),
    /// A compaction sets the floor, unless its number is below the floor or above the frontier.
    Compact(u64),
    /// The next shard of a read is read.
    Part(u64),
    /// The caller gets its reply, once the frontier has reached what the reply rests on.
    Reply(u64),
    /// The caller crashes. A write that has allocated a number is still to be published; any other request is dropped.
    Crash(u64),
}

impl Event {
    /// The caller that the event names.
    pub fn caller(&self) -> Option<u64>
        ensures { result ≡ named_by self.now }
    {
        match self {
            Event::Call(caller, _)
            | Event::Check(caller)
            | Event::Reserve(caller)
            | Event::Publish(caller)
            | Event::Read(caller)
            | Event::ReadAt(caller)
            | Event::Compact(caller)
            | Event::Part(caller)
            | Event::Reply(caller)
            | Event::Crash(caller) => Some(*caller),
            Event::Raise => None,
        }
    }
}
