ghost use Rattle.std.specs.Prelude.{◌≡◌, ◌≤◌, ◌<◌, ◌↔◌, false, IfOk, OnErr, IsErrOf};
ghost use Rattle.plain_store.specs.Reached.{IsReached, most_revisions};
ghost use Rattle.plain_store.specs.Store.{compacted_to, denied, opening, step};
ghost use Rattle.plain_store.specs.PrintedReplies.{reply_stored};
ghost use Rattle.requests.specs.Verdict.{is_write};
ghost use Rattle.requests.specs.declared.request.Request.TheVariants.{Compact};

mod next_number;
mod reads;
mod writes;

use crate::stored_reply::StoredReply;
use objects::{Memory, Printer, TreeReader};
use packed::{Packed, Packer};
use requests::{Reason, Reply, Request};
use std::alloc::Global;
use std::marker::Model;
use thiserror::Error;
use version_map::VersionMap;

/// The most revisions that a store may allocate.
pub const MAX_REVISIONS: u64 = 1_048_576;

#[derive(Clone, Copy, Debug, PartialEq, Eq, Error)]
pub enum PlainError {
    /// The capacity is not from 1 to 1,048,576.
    #[error("the capacity is out of range")]
    BadCapacity,
}

/// The plain store: what each key was at each number from a floor on, each object as its text; a counter of the
/// revisions allocated, and a capacity for them.
#[derive(Drop)]
pub struct Plain {
    versions: VersionMap<Packed>,
    counter: u64,
    capacity: u64,
    alloc: Global,
    reader: TreeReader,
    printer: Printer,
    packer: Packer,
}

impl Model for Plain {
    ghost use Rattle.std.specs.Prelude.{◌≤◌};
    ghost use Rattle.plain_store.specs.Store.{Store, store_coded};
    ghost use Rattle.plain_store.specs.Held.{IsUpTo, store_of};
    ghost use Rattle.plain_store.specs.Reached.{IsReached, most_revisions};

    ghost Value = { Store };

    ghost coded = { store_coded };

    ghost view = { λ p. store_of p.versions p.counter p.capacity };

    ghost invariant = { λ p. (p.counter ≤ p.capacity) × (p.capacity ≤ most_revisions) × IsUpTo p.versions p.counter
        × IsReached (store_of p.versions p.counter p.capacity) };
}

impl Plain {
    /// A store with nothing in it, whose floor is 0.
    pub fn new(alloc: Global, capacity: u64) -> Result<Plain, PlainError>
        ensures opened { IfOk result (λ plain. plain ≡ opening capacity) }
        ensures refused { IsErrOf result PlainError.BadCapacity ↔ ((1 ≤ capacity → most_revisions < capacity)) }
    {
        if capacity < 1 || MAX_REVISIONS < capacity {
            return Err(PlainError::BadCapacity);
        }
        Ok(Plain {
            versions: VersionMap::new(alloc),
            counter: 0,
            capacity,
            alloc,
            reader: TreeReader::new(alloc),
            printer: Printer::new(alloc),
            packer: Packer::new(alloc),
        })
    }

    /// Handles one whole request. If memory runs out, nothing has changed.
    pub fn take(&mut self, request: Request) -> Result<Reply, Memory>
        ensures reached { IsReached self.old }
        ensures step { IfOk result (λ reply. (self.new, reply) ≡ step self.old request) }
        ensures memory { OnErr result (self.new ≡ self.old) }
    {
        let _ = &self.versions;
        if request.is_write() {
            return self.take_write(request);
        }
        let reply = self.answer(&request);
        drop(request);
        reply
    }

    /// The reply to a request that is no write.
    fn answer(&mut self, request: &Request) -> Result<Reply, Memory>
        requires { is_write request.now ≡ false }
        ensures step { IfOk result (λ reply. (self.new, reply) ≡ step self.old request.now) }
        ensures memory { OnErr result (self.new ≡ self.old) }
    {
        match request {
            Request::Compact { to } => match self.raise_floor(*to) {
                Some(reason) => Ok(Reply::Refused(reason)),
                None => Ok(Reply::Compacted { revision: *to }),
            },
            Request::Get(_)
            | Request::List {
                kind: _,
                namespace: _,
                exact: _,
            } => {
                let stored = self.read(request)?;
                stored.reply(self.alloc)
            }
            Request::Create(_)
            | Request::Update(_)
            | Request::UpdateStatus(_)
            | Request::Delete {
                key: _,
                uid: _,
                version: _,
                at: _,
            } => unreachable!(),
        }
    }

    /// Drops the past below a number, and what only it needs: no later list reads there. Names whose last removal is
    /// not above the floor are forgotten. It allocates nothing, and its time is that of the versions dropped, of those
    /// that the floor has reached, and of the names forgotten, each of which is looked at once. A number above the
    /// counter is TooLarge, and one below the floor Expired; then nothing changes.
    pub fn compact(&mut self, to: u64) -> StoredReply<'static>
        ensures { (self.new, reply_stored result) ≡ step self.old (Compact to) }
    {
        match self.raise_floor(to) {
            Some(reason) => StoredReply::Refused(reason),
            None => StoredReply::Compacted { revision: to },
        }
    }

    /// Raises the floor to a number, or returns why it can't be requested.
    fn raise_floor(&mut self, to: u64) -> Option<Reason>
        ensures denied { result ≡ denied self.old.floor self.old.counter to }
        ensures raised { self.new ≡ (compacted_to self.old to result).0 }
    {
        let _ = &self.versions;
        if let Some(reason) = self.denied(to) {
            return Some(reason);
        }
        self.versions.compact(to);
        self.versions.forget_removed();
        None
    }

    /// Why a number can't be requested: it is not allocated yet, or else it is below the floor.
    fn denied(&self, number: u64) -> Option<Reason>
        ensures { result ≡ denied self.now.floor self.now.counter number }
    {
        if self.counter < number {
            Some(Reason::TooLarge)
        } else if number < self.versions.floor() {
            Some(Reason::Expired)
        } else {
            None
        }
    }
}
