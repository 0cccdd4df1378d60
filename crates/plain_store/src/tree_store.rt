ghost use Rattle.std.specs.Prelude.{◌≡◌, ◌≤◌, ◌<◌, ◌↔◌, false, IfOk, OnErr, IsErrOf};
ghost use Rattle.plain_store.specs.Reached.{IsReached, most_revisions};
ghost use Rattle.plain_store.specs.Store.{compacted_to, denied, opening, step};
ghost use Rattle.requests.specs.Verdict.{is_write};

mod reads;
mod writes;

use crate::store::{MAX_REVISIONS, PlainError};
use objects::{Memory, Object};
use requests::{Reason, Reply, Request};
use std::alloc::Global;
use std::marker::Model;
use version_map::VersionMap;

/// A plain store that keeps each object as its tree, and prints none. A copy of an object shares its tree, so it is for
/// callers that work with objects and want no text of them.
#[derive(Drop)]
pub struct Trees {
    versions: VersionMap<Object>,
    counter: u64,
    capacity: u64,
    alloc: Global,
}

impl Model for Trees {
    ghost use Rattle.std.specs.Prelude.{◌≤◌};
    ghost use Rattle.plain_store.specs.Store.{Store, store_coded};
    ghost use Rattle.plain_store.specs.Held.{IsUpTo, store_of};
    ghost use Rattle.plain_store.specs.Reached.{IsReached, most_revisions};

    ghost Value = { Store };

    ghost coded = { store_coded };

    ghost view = { λ p. store_of p.versions p.counter p.capacity };

    ghost invariant = { λ p. (p.counter ≤ p.capacity) × (p.capacity ≤ most_revisions) × IsUpTo p.versions p.counter
        × IsReached (store_of p.versions p.counter p.capacity) };
}

impl Trees {
    /// A store with nothing in it, whose floor is 0.
    pub fn new(alloc: Global, capacity: u64) -> Result<Trees, PlainError>
        ensures opened { IfOk result (λ trees. trees ≡ opening capacity) }
        ensures refused { IsErrOf result PlainError.BadCapacity ↔ ((1 ≤ capacity → most_revisions < capacity)) }
    {
        if capacity < 1 || MAX_REVISIONS < capacity {
            return Err(PlainError::BadCapacity);
        }
        Ok(Trees {
            versions: VersionMap::new(alloc),
            counter: 0,
            capacity,
            alloc,
        })
    }

    /// Handles one whole request. If memory runs out, nothing has changed.
    pub fn take(&mut self, request: Request) -> Result<Reply, Memory>
        ensures reached { IsReached self.old }
        ensures step { IfOk result (λ reply. (self.new, reply) ≡ step self.old request) }
        ensures memory { OnErr result (self.new ≡ self.old) }
    {
        let _ = &self.versions;
        if request.is_write() {
            return self.write(request);
        }
        let reply = self.answer(&request);
        drop(request);
        reply
    }

    /// The reply to a request that is no write.
    fn answer(&mut self, request: &Request) -> Result<Reply, Memory>
        requires { is_write request.now ≡ false }
        ensures step { IfOk result (λ reply. (self.new, reply) ≡ step self.old request.now) }
        ensures memory { OnErr result (self.new ≡ self.old) }
    {
        match request {
            Request::Compact { to } => match self.raise_floor(*to) {
                Some(reason) => Ok(Reply::Refused(reason)),
                None => Ok(Reply::Compacted { revision: *to }),
            },
            Request::Get(key) => self.get(key),
            Request::List {
                kind,
                namespace,
                exact,
            } => self.list(*kind, namespace, *exact),
            Request::Create(_)
            | Request::Update(_)
            | Request::UpdateStatus(_)
            | Request::Delete {
                key: _,
                uid: _,
                version: _,
                at: _,
            } => unreachable!(),
        }
    }

    /// Raises the floor to a number, or returns why it can't be requested.
    fn raise_floor(&mut self, to: u64) -> Option<Reason>
        ensures denied { result ≡ denied self.old.floor self.old.counter to }
        ensures raised { self.new ≡ (compacted_to self.old to result).0 }
    {
        let _ = &self.versions;
        if let Some(reason) = self.denied(to) {
            return Some(reason);
        }
        self.versions.compact(to);
        self.versions.forget_removed();
        None
    }

    /// Why the store can't be read at a number: it is not allocated yet, or else it is below the floor.
    pub fn denied(&self, number: u64) -> Option<Reason>
        ensures { result ≡ denied self.now.floor self.now.counter number }
    {
        if self.counter < number {
            Some(Reason::TooLarge)
        } else if number < self.versions.floor() {
            Some(Reason::Expired)
        } else {
            None
        }
    }

    /// The newest revision, 0 if none is allocated.
    pub fn revision(&self) -> u64
        ensures { result ≡ self.now.counter }
    {
        self.counter
    }
}
