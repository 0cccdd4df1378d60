// A walk through an order, next to one plain store.
ghost use Rattle.std.specs.Prelude.{◌≡◌, ◌↔◌, IfOk, IfSome, IsSome, IsTrue, List, Some};
ghost use Rattle.std.specs.List.{slice_get};
ghost use Rattle.std.specs.Option.{option_copied};
ghost use Rattle.plain_store.specs.Store.{step};
ghost use Rattle.requests.specs.declared.reply.Reply.{Reply as SpecReply};
ghost use Rattle.requests.specs.declared.request.Request.{Request as SpecRequest};
ghost use Rattle.order_check.specs.Following.{Follows, IsCalled, IsRest, IsAnswered, MayTake, Takes, standing};

use crate::recorded::take;
use interleavings::Item;
use objects::{Memory, Printer};
use plain_store::Trees;
use requests::{Reply, Request};
use std::collections::BTreeMap;

/// What part of a trace is not yet in the order, and the store after what is.
#[derive(Drop)]
pub(crate) struct Walk {
    /// By its place, the index of each call.
    pub calls: BTreeMap<u64, usize>,
    /// By the place of its call, the index of each reply.
    pub answers: BTreeMap<u64, usize>,
    pub store: Trees,
    /// The largest place of a call in the order so far, 0 before the first.
    pub latest: u64,
    /// Prints objects whose trees differ.
    pub printer: Printer,
}

impl Walk {
    /// Whether the order explains each reply that is left.
    pub(crate) fn follow(&mut self, items: &[Item], order: &[u64]) -> Result<bool, Memory>
        ensures follows { IfOk result (λ yes. IsTrue yes → Follows items.now (standing self.old) order.now) }
        ensures complete { IfOk result (λ yes. (requests : List SpecRequest) → IsRest items.now (standing self.old) order.now requests → IsTrue yes) }
    {
        for place in order {
            if !self.take(items, *place)? {
                return Ok(false);
            }
        }
        Ok(self.answers.is_empty())
    }

    /// Sends the store the request that was called at the place, and says whether its reply is as the trace has it.
    fn take(&mut self, items: &[Item], place: u64) -> Result<bool, Memory>
        ensures takes { IfOk result (λ yes. IsTrue yes → Takes items.now (standing self.old) place (standing self.new)) }
        ensures complete { IfOk result (λ yes. MayTake items.now (standing self.old) place → IsTrue yes) }
    {
        let Some(index) = self.calls.remove(&place) else {
            return Ok(false);
        };
        let Some(request) = called_at(items, index, place) else {
            return Ok(false);
        };
        let answer = self.answers.remove(&place);
        let answer_fits = self.check_reply(items, answer, request)?;
        self.latest = self.latest.max(place);
        Ok(answer_fits)
    }

    /// Sends the store the request, and says whether its reply is the one of the item with that index.
    fn check_reply(
        &mut self,
        items: &[Item],
        answer: Option<usize>,
        request: &Request,
    ) -> Result<bool, Memory>
        ensures answer_fits { IfOk result (λ yes. IsTrue yes ↔ IsAnswered items.now answer self.old.latest (step self.old.store request.now).1) }
        ensures stepped { IfOk result (λ yes. IsTrue yes → self.new.store ≡ (step self.old.store request.now).0) }
        ensures stays { (self.new.calls ≡ self.old.calls) × (self.new.answers ≡ self.old.answers) × (self.new.latest ≡ self.old.latest) }
    {
        let Some(index) = answer else {
            return take(&mut self.store, &mut self.printer, request, None);
        };
        match reply_at(items, index, self.latest) {
            Some(recorded) => take(&mut self.store, &mut self.printer, request, Some(recorded)),
            None => Ok(false),
        }
    }
}

/// The item with that index, if there is one.
fn item_at(items: &[Item], index: usize) -> Option<&Item>
    ensures { option_copied result ≡ slice_get items.now index }
{
    items.get(index)
}

/// The request of the item with that index, if it was called at that place.
fn called_at(items: &[Item], index: usize, place: u64) -> Option<&Request>
    ensures called { IfSome result (λ request. IsCalled items.now (Some index) place request.now) }
    ensures complete { (request : SpecRequest) → IsCalled items.now (Some index) place request → IsSome result }
{
    match item_at(items, index) {
        Some(
            Item::Call {
                place: called,
                caller: _,
                request,
            },
        ) => {
            if *called == place {
                Some(request)
            } else {
                None
            }
        }
        Some(
            Item::Reply {
                place: _,
                caller: _,
                reply: _,
            },
        )
        | None => None,
    }
}

/// The reply of the item with that index, if its place is not before the latest call.
fn reply_at(items: &[Item], index: usize, latest: u64) -> Option<&Reply>
    ensures answer_fits { IfSome result (λ reply. IsAnswered items.now (Some index) latest reply.now) }
    ensures complete { (reply : SpecReply) → IsAnswered items.now (Some index) latest reply → option_copied result ≡ Some reply }
{
    match item_at(items, index) {
        Some(
            Item::Reply {
                place,
                caller: _,
                reply,
            },
        ) => { if latest <= *place { Some(reply) } else { None } }
        Some(
            Item::Call {
                place: _,
                caller: _,
                request: _,
            },
        )
        | None => None,
    }
}
