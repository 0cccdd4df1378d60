// Whether a caller of a run goes its way as one who races.
ghost use Rattle.std.specs.Prelude.{◌≡◌, IfOk, IfSome, IsTrue, Some, [], false};
ghost use Rattle.indexmap.specs.IndexMap.{values};
ghost use Rattle.outcomes.specs.Names.{AreNamed};
ghost use Rattle.outcomes.specs.Outcomes.{exchanges_by};
ghost use Rattle.explorer.specs.Races.{IsDone};
ghost use Rattle.participants.specs.Machines.{machine_of};
ghost use Rattle.participants.specs.Stands.{stand_in};
ghost use Rattle.race_runs.specs.Runs.{Goes};
ghost use Rattle.race_scripts.specs.Gone.{HasGone, HasGoneAs, HaveGone, IsToldAs, IsWay, first_of, same_all, same_told};
ghost use Rattle.race_lines.specs.Questions.{rest, told_lists};

use crate::calls::first_call;
use crate::same::same_request;
use history::Item;
use objects::Memory;
use outcomes::Replies;
use participants::{Participant, Stand, Told};
use plain::{Reply, Request};
use std::alloc::Global;

/// Whether the caller of each participant that has one goes its way in the run, from its first request to where it has
/// nothing more to ask, and is told this on it, if that is given.
pub(crate) fn have_gone(
    alloc: Global,
    participants: &[Participant],
    callers: &[Option<u64>],
    told: &[Vec<Told>],
    items: &[Item],
) -> Result<bool, Memory>
    ensures { IfOk result (λ is. IsTrue is → HaveGone participants.now callers.now (told_lists told.now) items.now) }
{
    let mut left = participants;
    let mut callers_left = callers;
    let mut told_left = told;
    'participants: while let Some((participant, behind)) = left.split_first() {
        let Some((caller, callers_behind)) = callers_left.split_first() else {
            return Ok(false);
        };
        if !has_gone_as(alloc, participant, *caller, told_left, items)? {
            return Ok(false);
        }
        left = behind;
        callers_left = callers_behind;
        told_left = without_first(told_left);
    }
    Ok(true)
}

fn without_first(told: &[Vec<Told>]) -> &[Vec<Told>]
    ensures { told_lists result.now ≡ rest (told_lists told.now) }
{
    match told.split_first() {
        Some((_first, behind)) => behind,
        None => told,
    }
}

/// The same for one participant, by the first of what is given.
fn has_gone_as(
    alloc: Global,
    participant: &Participant,
    caller: Option<u64>,
    told: &[Vec<Told>],
    items: &[Item],
) -> Result<bool, Memory>
    ensures { IfOk result (λ is. IsTrue is → HasGoneAs participant.now caller (first_of (told_lists told.now)) items.now) }
{
    match caller {
        Some(number) => has_gone(alloc, participant, number, told, items),
        None => Ok(true),
    }
}

fn has_gone(
    alloc: Global,
    participant: &Participant,
    caller: u64,
    told: &[Vec<Told>],
    items: &[Item],
) -> Result<bool, Memory>
    ensures { IfOk result (λ is. IsTrue is → HasGone participant.now (exchanges_by caller items.now) (first_of (told_lists told.now))) }
{
    match told_on_the_way(alloc, participant, caller, items)? {
        Some(found) => {
            let is = is_told_as(found.as_slice(), told);
            drop(found);
            Ok(is)
        }
        None => Ok(false),
    }
}

fn is_told_as(found: &[Told], told: &[Vec<Told>]) -> bool
    ensures { IsTrue result → IsToldAs found.now (first_of (told_lists told.now)) }
{
    match told.split_first() {
        Some((first, _behind)) => same_all(found, first.as_slice()),
        None => true,
    }
}

/// What it is told, if it goes its way.
fn told_on_the_way(
    alloc: Global,
    participant: &Participant,
    caller: u64,
    items: &[Item],
) -> Result<Option<Vec<Told>>, Memory>
    ensures { IfOk result (λ found. IfSome found (λ told. IsWay participant.now (exchanges_by caller items.now) told.items)) }
{
    let mut replies = Replies::new(alloc);
    let found = told_by(alloc, participant, &mut replies, caller, items);
    drop(replies);
    found
}

/// The same with replies that have numbers.
fn told_by(
    alloc: Global,
    participant: &Participant,
    replies: &mut Replies,
    caller: u64,
    items: &[Item],
) -> Result<Option<Vec<Told>>, Memory>
    requires { AreNamed replies.old.named.entries }
    ensures { IfOk result (λ found. IfSome found (λ told. IsWay participant.now (exchanges_by caller items.now) told.items)) }
{
    match way_of(alloc, participant, replies, caller, items)? {
        Some(end) => told_at(alloc, participant, replies.table(), &end),
        None => Ok(None),
    }
}

/// What it is told, if it has nothing more to ask.
fn told_at(
    alloc: Global,
    participant: &Participant,
    table: &[Reply],
    end: &Stand,
) -> Result<Option<Vec<Told>>, Memory>
    ensures over { IfOk result (λ found. IfSome found (λ told. IsDone (machine_of participant.now) (stand_in table.now end.now))) }
    ensures told { IfOk result (λ found. IfSome found (λ told. told.items ≡ (machine_of participant.now).told (stand_in table.now end.now))) }
{
    if is_done(alloc, participant, table, end)? {
        let told = participant.told(alloc, table, end)?;
        Ok(Some(told))
    } else {
        Ok(None)
    }
}

/// Where its way leads.
fn way_of(
    alloc: Global,
    participant: &Participant,
    replies: &mut Replies,
    caller: u64,
    items: &[Item],
) -> Result<Option<Stand>, Memory>
    requires { AreNamed replies.old.named.entries }
    ensures named { AreNamed replies.new.named.entries }
    ensures goes { IfOk result (λ found. IfSome found (λ end. Goes (machine_of participant.now) (machine_of participant.now).begins
        (exchanges_by caller items.now) (stand_in (values replies.new.named) end))) }
{
    let mut stand = participant.begins(alloc)?;
    let mut rest = items;
    'calls: while let Some(called) = first_call(caller, rest) {
        if !asks_that(alloc, participant, replies.table(), &stand, called.request)? {
            return Ok(None);
        }
        let Some(reply) = called.reply else {
            if has_called(caller, called.behind) {
                return Ok(None);
            }
            return Ok(Some(stand));
        };
        let next = participant.takes(alloc, replies, &stand, reply)?;
        stand = next;
        rest = called.behind;
    }
    Ok(Some(stand))
}

fn has_called(caller: u64, items: &[Item]) -> bool
    ensures { result ≡ false → exchanges_by caller items.now ≡ [] }
{
    first_call(caller, items).is_some()
}

fn asks_that(
    alloc: Global,
    participant: &Participant,
    table: &[Reply],
    stand: &Stand,
    request: &Request,
) -> Result<bool, Memory>
    ensures { IfOk result (λ is. IsTrue is → (machine_of participant.now).asks (stand_in table.now stand.now) ≡ Some request.now) }
{
    match participant.asks(alloc, table, stand)? {
        Some(asked) => {
            let same = same_request(&asked, request);
            drop(asked);
            Ok(same)
        }
        None => Ok(false),
    }
}

/// Whether it has nothing to ask but what it crashes within.
fn is_done(
    alloc: Global,
    participant: &Participant,
    table: &[Reply],
    stand: &Stand,
) -> Result<bool, Memory>
    ensures { IfOk result (λ is. IsTrue is → IsDone (machine_of participant.now) (stand_in table.now stand.now)) }
{
    match participant.asks(alloc, table, stand)? {
        Some(asked) => {
            drop(asked);
            Ok(participant.may_leave(stand))
        }
        None => Ok(true),
    }
}

fn same_all(left: &[Told], right: &[Told]) -> bool
    ensures { result ≡ same_all left.now right.now }
{
    let mut left_rest = left;
    let mut right_rest = right;
    'told: while let Some((one, left_behind)) = left_rest.split_first() {
        let Some((other, right_behind)) = right_rest.split_first() else {
            return false;
        };
        if !same_told(one, other) {
            return false;
        }
        left_rest = left_behind;
        right_rest = right_behind;
    }
    right_rest.is_empty()
}

fn same_told(left: &Told, right: &Told) -> bool
    ensures { result ≡ same_told left.now right.now }
{
    match left {
        Told::Heard(reply) => matches!(right, Told::Heard(other) if reply.is_same(other)),
        Told::Unasked => matches!(right, Told::Unasked),
        Told::Unheard => matches!(right, Told::Unheard),
    }
}
