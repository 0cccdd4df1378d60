// Whether the beginning of a run is that of a litmus test.
ghost use Rattle.std.specs.Prelude.{◌≡◌};
ghost use Rattle.race_scripts.specs.Shown.{answered_just, comes_later, goes_first, is_before};
ghost use Rattle.outcomes.specs.Outcomes.{exchanges_by};
ghost use Rattle.std.specs.List.{list_all};

use crate::calls::first_call;
use crate::same::same_request;
use history::Item;
use plain::Request;

/// Whether the caller sends exactly these requests, and gets a reply to each.
pub(crate) fn answered_just(caller: u64, requests: &[Request], items: &[Item]) -> bool
    ensures { result ≡ answered_just (exchanges_by caller items.now) requests.now }
{
    let mut wanted = requests;
    let mut rest = items;
    'calls: while let Some(called) = first_call(caller, rest) {
        let Some((request, behind)) = wanted.split_first() else {
            return false;
        };
        if called.reply.is_none() || !same_request(called.request, request) {
            return false;
        }
        wanted = behind;
        rest = called.behind;
    }
    wanted.is_empty()
}

/// Whether the caller has all its replies before any other caller calls.
pub(crate) fn goes_first(caller: u64, items: &[Item]) -> bool
    ensures { result ≡ goes_first caller items.now }
{
    items.iter().all(|item| comes_later(caller, items, item))
}

fn comes_later(caller: u64, items: &[Item], item: &Item) -> bool
    ensures { result ≡ comes_later caller items.now item.now }
{
    match item {
        Item::Call {
            place,
            caller: by,
            request: _,
        } => *by == caller || ends_before(caller, *place, items),
        Item::Reply {
            place: _,
            caller: _,
            reply: _,
        } => true,
    }
}

/// Whether each reply to the caller comes before the index.
fn ends_before(caller: u64, place: u64, items: &[Item]) -> bool
    ensures { result ≡ list_all (is_before caller place) items.now }
{
    items.iter().all(|item| is_before(caller, place, item))
}

fn is_before(caller: u64, place: u64, item: &Item) -> bool
    ensures { result ≡ is_before caller place item.now }
{
    match item {
        Item::Call {
            place: _,
            caller: _,
            request: _,
        } => true,
        Item::Reply {
            place: at,
            caller: to,
            reply: _,
        } => *to != caller || *at < place,
    }
}
