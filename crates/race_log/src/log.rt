ghost use Rattle.std.specs.Prelude.{◌≡◌, ◌++◌, ◌∷◌, [], ℕ, vec_len, OnOk, OnErr, None};
ghost use Rattle.std.specs.BTreeMap.{get};
ghost use Rattle.std.specs.Ordering.{nat_cmp};
ghost use Rattle.order_check.specs.Lookup.{IsWith, IsWithout};
ghost use Rattle.interleavings.specs.declared.trace.Item.TheVariants as item;
ghost use Rattle.race_log.specs.Logged.{IsNoted, stamp_for};

use crate::stamp::Stamp;
use interleavings::Item;
use objects::Memory;
use requests::{Reply, Request};
use std::alloc::Global;
use std::collections::BTreeMap;

/// The requests and replies of a race, in the order in which they were noted; a call or a reply is named by its index.
/// Each reply is to the last call of its caller. An open call is the last of its caller. Out of memory, nothing is
/// added.
#[derive(Drop)]
pub struct Log {
    pub(crate) items: Vec<Item>,
    /// For each caller, the index of its call that has no reply yet.
    pub(crate) open_calls: BTreeMap<u64, u64>,
    /// A stamp for each call that has a reply.
    pub(crate) stamps: Vec<Stamp>,
    ghost noted: { ∥ IsNoted (record { items = items.items; open_calls = get nat_cmp open_calls; stamps = stamps.items }) ∥₁ },
}

impl Log {
    /// An empty log.
    pub fn new(alloc: Global) -> Log
        ensures items { result.items.items ≡ [] }
        ensures open_calls { (caller : ℕ) → get nat_cmp result.open_calls caller ≡ None }
        ensures stamps { result.stamps.items ≡ [] }
    {
        Log {
            items: Vec::new(alloc),
            open_calls: BTreeMap::new(alloc),
            stamps: Vec::new(alloc),
        }
    }

    /// Notes that the caller sends the request. The call gets the next index, and is then its caller's open one.
    pub fn call(&mut self, caller: u64, request: Request) -> Result<(), Memory>
        ensures call { OnOk result (self.new.items.items ≡ self.old.items.items ++ item.Call (vec_len self.old.items) caller request ∷ []) }
        ensures waits { OnOk result (IsWith caller (vec_len self.old.items) (get nat_cmp self.old.open_calls) (get nat_cmp self.new.open_calls)) }
        ensures stamps { self.new.stamps.items ≡ self.old.stamps.items }
        ensures memory { OnErr result (self.new.items.items ≡ self.old.items.items) }
    {
        let place = self.items.len() as u64;
        if self.items.reserve(1).is_err() || self.open_calls.insert(caller, place).is_err() {
            drop(request);
            return Err(Memory);
        }
        self.items.push_reserved(Item::Call {
            place,
            caller,
            request,
        });
        Ok(())
    }

    /// Notes the reply to the caller's last call. The number is that of an accepted write, or else the one up to which
    /// the answer looked. A reply without an open call has no stamp, and then the log is no history. It gets the next
    /// index, closes that call, and leaves a stamp with both indices, its number, and whether it is an accepted write.
    pub fn reply(&mut self, caller: u64, number: u64, reply: Reply) -> Result<(), Memory>
        ensures reply { OnOk result (self.new.items.items ≡ self.old.items.items ++ item.Reply (vec_len self.old.items) caller reply ∷ []) }
        ensures heard { OnOk result (IsWithout caller (get nat_cmp self.old.open_calls) (get nat_cmp self.new.open_calls)) }
        ensures stamp { OnOk result (self.new.stamps.items ≡ self.old.stamps.items
            ++ stamp_for (get nat_cmp self.old.open_calls caller) number (vec_len self.old.items) reply) }
        ensures memory { OnErr result ((self.new.items.items ≡ self.old.items.items) × (self.new.stamps.items ≡ self.old.stamps.items)) }
    {
        let place = self.items.len() as u64;
        if self.items.reserve(1).is_err() || self.stamps.reserve(1).is_err() {
            drop(reply);
            return Err(Memory);
        }
        let follows = !reply.drew_revision();
        if let Some(call) = self.open_calls.remove(&caller) {
            self.stamps.push_reserved(Stamp {
                number,
                follows,
                call,
                reply: place,
            });
        }
        self.items.push_reserved(Item::Reply {
            place,
            caller,
            reply,
        });
        Ok(())
    }
}
