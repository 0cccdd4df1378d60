// The requests of callers in a run, one after another.
ghost use Rattle.std.specs.Prelude.{◌≡◌, ◌<◌, ◌∷◌, [], List, length, IfNone, IfSome};
ghost use Rattle.std.specs.Option.{option_copied};
ghost use Rattle.interleavings.specs.declared.trace.Item.{Item as SpecItem};
ghost use Rattle.outcomes.specs.Outcomes.{exchanges_by, reply_to};

use history::Item;
use plain::{Reply, Request};

/// A request of a caller in a run, the reply to it, if there is one, and what comes after its call.
#[derive(Clone, Copy, Drop)]
pub(crate) struct Called<'a> {
    pub(crate) request: &'a Request,
    pub(crate) reply: Option<&'a Reply>,
    pub(crate) behind: &'a [Item],
}

/// The first request of the caller.
pub(crate) fn first_call<'a>(caller: u64, items: &'a [Item]) -> Option<Called<'a>>
    ensures none { IfNone result (exchanges_by caller items.now ≡ []) }
    ensures some { IfSome result (λ called. exchanges_by caller items.now
        ≡ record { request = called.request.now; reply = option_copied called.reply } ∷ exchanges_by caller called.behind.now) }
    ensures shorter { IfSome result (λ called. length called.behind.now < length items.now) }
{
    let mut rest = items;
    'items: while let Some((item, behind)) = rest.split_first() {
        if let Some(request) = call_by(caller, item) {
            return Some(Called {
                request,
                reply: reply_to(caller, behind),
                behind,
            });
        }
        rest = behind;
    }
    None
}

/// The request of the item, if it is a call of the caller.
#[tactic(auto, using(crate::proofs::Telling::call_own, crate::proofs::Telling::call_other))]
fn call_by(caller: u64, item: &Item) -> Option<&Request>
    ensures none { IfNone result ((behind : List SpecItem) → exchanges_by caller (item.now ∷ behind) ≡ exchanges_by caller behind) }
    ensures some { IfSome result (λ request. (behind : List SpecItem) → exchanges_by caller (item.now ∷ behind)
        ≡ record { request = request.now; reply = reply_to caller behind } ∷ exchanges_by caller behind) }
{
    match item {
        Item::Call {
            place: _,
            caller: by,
            request,
        } if *by == caller => Some(request),
        _ => None,
    }
}

/// The next reply to the caller, unless it calls again before.
fn reply_to(caller: u64, items: &[Item]) -> Option<&Reply>
    ensures { option_copied result ≡ reply_to caller items.now }
{
    let mut rest = items;
    'items: while let Some((item, behind)) = rest.split_first() {
        match item {
            Item::Call {
                place: _,
                caller: by,
                request: _,
            } if *by == caller => return None,
            Item::Reply {
                place: _,
                caller: to,
                reply,
            } if *to == caller => return Some(reply),
            _ => {}
        }
        rest = behind;
    }
    None
}
