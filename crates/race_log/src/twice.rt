// How often a pod was created while another one of that name lived.
ghost use Rattle.std.specs.Prelude.{◌≡◌, ◌<◌, ◌≤◌, ◌^◌, ◌+◌, ◌∷◌, [], List, IfOk, OnOk, option_map};
ghost use Rattle.requests.specs.declared.reply.Reply.{Reply};
ghost use Rattle.requests.specs.declared.reply.Reply.TheVariants.{Created};
ghost use Rattle.race_log.specs.LivePods.{Knows};
ghost use Rattle.race_log.specs.Twice.{is_pod, repeats, reply_at, replies_in_order, with_next};

use crate::stamp::Stamp;
use interleavings::Item;
use objects::{Key, Kind, Memory, Object};
use requests::Reply;
use std::alloc::Global;
use std::collections::BTreeSet;

/// The keys that live, and how often a pod was created while its name lived.
#[derive(Drop)]
struct LivePods {
    keys: BTreeSet<Key>,
    again: u64,
}

fn is_pod(kind: Kind) -> bool
    ensures { result ≡ is_pod kind }
{
    matches!(kind, Kind::Pod)
}

impl LivePods {
    /// An object was created.
    fn on_create(&mut self, object: &Object) -> Result<(), Memory>
        requires { self.old.again + 1 < 2 ^ 64 }
        ensures known { (earlier : List Reply) → Knows self.old earlier → OnOk result (Knows self.new (Created object.now ∷ earlier)) }
        ensures counted { self.new.again ≤ self.old.again + 1 }
    {
        let is_new = self.keys.insert(object.key.clone()?)?;
        if is_pod(object.key.kind) && !is_new {
            self.again += 1;
        }
        Ok(())
    }

    /// The next reply.
    fn on_reply(&mut self, reply: &Reply) -> Result<(), Memory>
        requires { self.old.again + 1 < 2 ^ 64 }
        ensures known { (earlier : List Reply) → Knows self.old earlier → OnOk result (Knows self.new (reply.now ∷ earlier)) }
        ensures counted { self.new.again ≤ self.old.again + 1 }
    {
        match reply {
            Reply::Created(object) => self.on_create(object),
            Reply::Removed(object) => {
                self.keys.remove(&object.key);
                Ok(())
            }
            _ => Ok(()),
        }
    }
}

/// The reply at an index.
fn reply_at(items: &[Item], place: u64) -> Option<&Reply>
    ensures { option_map (λ r. r.now) result ≡ reply_at items.now place }
{
    match items.get(place as usize) {
        Some(
            Item::Reply {
                place: _,
                caller: _,
                reply,
            },
        ) => Some(reply),
        _ => None,
    }
}

impl LivePods {
    /// The next reply, which is at this index.
    fn on_reply_at(&mut self, items: &[Item], place: u64) -> Result<(), Memory>
        requires { self.old.again + 1 < 2 ^ 64 }
        ensures known { (earlier : List Reply) → Knows self.old earlier → OnOk result (Knows self.new (with_next (reply_at items.now place) earlier)) }
        ensures counted { self.new.again ≤ self.old.again + 1 }
    {
        match reply_at(items, place) {
            Some(reply) => self.on_reply(reply),
            None => Ok(()),
        }
    }
}

/// How many of the accepted creates of a pod follow, in the order, another one of that name with no accepted removal
/// between.
pub(crate) fn repeats(alloc: Global, items: &[Item], order: &[Stamp]) -> Result<u64, Memory>
    ensures { IfOk result (λ n. n ≡ repeats (replies_in_order items.now order.now [])) }
{
    let mut live = LivePods {
        keys: BTreeSet::new(alloc),
        again: 0,
    };
    for stamp in order {
        live.on_reply_at(items, stamp.reply)?;
    }
    let LivePods { keys, again } = live;
    drop(keys);
    Ok(again)
}
