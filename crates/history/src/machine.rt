ghost use Rattle.std.specs.Prelude.{◌≡◌, ◌<◌, true, length, OnOk, OnErr};
ghost use Rattle.objects.specs.ShardOf.{shard_of};
ghost use Rattle.history.specs.Replayed.{Settles, Stays, Waits, is_undecided, phase_at};

use crate::callers::CallerPhases;
use crate::parking::{Parking, Waiter};
use crate::phase::Phase;
use interleavings::Item;
use objects::{Key, Memory, shard_of};
use requests::Reply;
use std::alloc::Global;
use versions::Shard;

/// The world that the callers share, by the pieces that a step needs at hand.
#[derive(Drop)]
pub(crate) struct Machine {
    pub capacity: u64,
    pub shards: Vec<Shard>,
    /// For each shard the caller that holds it.
    pub holders: Vec<Option<u64>>,
    pub callers: CallerPhases,
    /// For each number allocated the place of its call, once the number is filled.
    pub places: Vec<Option<u64>>,
    pub parking: Parking,
    pub frontier: u64,
    /// The number below which no new read may begin.
    pub floor: u64,
    /// The number that all shards are compacted to. It is at most the floor, and less if a read is still open below it.
    pub compacted: u64,
    /// The place of the next event.
    pub now_at: u64,
    pub items: Vec<Item>,
    pub order: Vec<u64>,
    pub alloc: Global,
}

impl Machine {
    /// The index of the shard that keeps the key.
    pub(crate) fn shard_of(&self, key: &Key) -> usize
        requires { 0 < length self.now.shards.items }
        ensures value { result ≡ shard_of key.now (length self.now.shards.items) }
        ensures below { result < length self.now.shards.items }
    {
        shard_of(key, self.shards.len())
    }

    /// Puts a request that changes nothing into the order, or parks it until the frontier has reached what it saw.
    pub(crate) fn order_or_park(&mut self, saw: u64, caller: u64, place: u64) -> Result<(), Memory>
        requires { is_undecided (phase_at self.old.callers caller) ≡ true }
        ensures settled { OnOk result (Settles saw caller place self.old self.new) }
        ensures callers { self.new.callers ≡ self.old.callers }
        ensures holders { self.new.holders ≡ self.old.holders }
        ensures memory { OnErr result (Stays self.old self.new) }
        ensures place { self.new.now_at ≡ self.old.now_at }
    {
        if saw <= self.frontier {
            self.order.push(place)?;
            return Ok(());
        }
        self.parking.park(saw, Waiter { caller, place })
    }

    /// The caller waits with its reply.
    pub(crate) fn wait(
        &mut self,
        caller: u64,
        saw: u64,
        place: u64,
        reply: Reply,
    ) -> Result<(), Memory>
        requires { is_undecided (phase_at self.old.callers caller) ≡ true }
        ensures waits { OnOk result (Waits caller saw place reply self.old self.new) }
        ensures holders { self.new.holders ≡ self.old.holders }
        ensures memory { OnErr result (Stays self.old self.new) }
        ensures place { self.new.now_at ≡ self.old.now_at }
    {
        match self.order_or_park(saw, caller, place) {
            Ok(()) => {
                let waiting = Phase::Waiting { saw, place, reply };
                // The phase before, which is not needed.
                drop(self.callers.enter(caller, waiting));
                Ok(())
            }
            Err(error) => {
                drop(reply);
                Err(error)
            }
        }
    }
}
