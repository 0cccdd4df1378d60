// Whether a caller begins and looks last, and the replies that it then gets.
ghost use Rattle.std.specs.Prelude.{◌≡◌};
ghost use Rattle.race_scripts.specs.Leading.{are_looks, ends_with_looks, is_framed, is_look, is_told_just, is_told_last};
ghost use Rattle.outcomes.specs.Outcomes.{exchanges_by};

use crate::calls::first_call;
use crate::same::same_request;
use controllers::Turn;
use history::Item;
use plain::{Reply, Request};

/// Whether the first turns are the caller's requests of the beginning, and the last ones its looks.
pub(crate) fn is_framed(
    looker: u64,
    beginning: &[Request],
    looks: &[Request],
    turns: &[Turn],
) -> bool
    ensures { result ≡ is_framed looker beginning.now looks.now turns.now }
{
    let mut begun = beginning;
    let mut rest = turns;
    'begun: while let Some((request, begun_behind)) = begun.split_first() {
        let Some((turn, behind)) = rest.split_first() else {
            return false;
        };
        if !is_look(looker, request, turn) {
            return false;
        }
        begun = begun_behind;
        rest = behind;
    }
    ends_with_looks(looker, looks, rest)
}

/// Whether the last turns are the caller's looks.
fn ends_with_looks(looker: u64, looks: &[Request], turns: &[Turn]) -> bool
    ensures { result ≡ ends_with_looks looker looks.now turns.now }
{
    let mut rest = turns;
    'turns: while let Some((_turn, behind)) = rest.split_first() {
        if are_looks(looker, looks, rest) {
            return true;
        }
        rest = behind;
    }
    looks.is_empty()
}

fn are_looks(looker: u64, looks: &[Request], turns: &[Turn]) -> bool
    ensures { result ≡ are_looks looker looks.now turns.now }
{
    let mut looks_left = looks;
    let mut turns_left = turns;
    'looks: while let Some((look, looks_behind)) = looks_left.split_first() {
        let Some((turn, turns_behind)) = turns_left.split_first() else {
            return false;
        };
        if !is_look(looker, look, turn) {
            return false;
        }
        looks_left = looks_behind;
        turns_left = turns_behind;
    }
    turns_left.is_empty()
}

fn is_look(looker: u64, look: &Request, turn: &Turn) -> bool
    ensures { result ≡ is_look looker look.now turn.now }
{
    match turn {
        Turn::Ask(caller, request) => *caller == looker && same_request(request, look),
        _ => false,
    }
}

/// Whether the caller sends exactly the beginning and gets replies, and then exactly the looks and gets these replies.
pub(crate) fn is_told_last(
    looker: u64,
    beginning: &[Request],
    looks: &[Request],
    shown: &[Reply],
    items: &[Item],
) -> bool
    ensures { result ≡ is_told_last beginning.now (exchanges_by looker items.now) looks.now shown.now }
{
    let mut begun = beginning;
    let mut rest = items;
    'begun: while let Some((request, behind)) = begun.split_first() {
        let Some(called) = first_call(looker, rest) else {
            return false;
        };
        if called.reply.is_none() || !same_request(called.request, request) {
            return false;
        }
        begun = behind;
        rest = called.behind;
    }
    is_told_just(looker, looks, shown, rest)
}

fn is_told_just(looker: u64, looks: &[Request], shown: &[Reply], items: &[Item]) -> bool
    ensures { result ≡ is_told_just (exchanges_by looker items.now) looks.now shown.now }
{
    let mut looks_left = looks;
    let mut shown_left = shown;
    let mut rest = items;
    'calls: while let Some(called) = first_call(looker, rest) {
        let Some((look, looks_behind)) = looks_left.split_first() else {
            return false;
        };
        let Some((reply, shown_behind)) = shown_left.split_first() else {
            return false;
        };
        let Some(told) = called.reply else {
            return false;
        };
        if !told.is_same(reply) || !same_request(called.request, look) {
            return false;
        }
        looks_left = looks_behind;
        shown_left = shown_behind;
        rest = called.behind;
    }
    looks_left.is_empty() && shown_left.is_empty()
}
