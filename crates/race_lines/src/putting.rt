// The race with one more line.
ghost use Rattle.std.specs.Prelude.{◌≡◌, [], IfOk, length, map, position, slice_index_or};
ghost use Rattle.race_lines.specs.RaceLines.{Asks, line_parts, participant_parts};
ghost use Rattle.race_lines.specs.RaceTexts.{has_crashed, is_caller, is_over, race_parts, with_ask, with_ask_at, with_begun, with_first, with_line, with_next, with_number_at, with_participant};
ghost use Rattle.scripts.specs.Events.{Reads};

use crate::line::Line;
use crate::race::{Sent, WrittenRace};
use participants::{Ask, Caller, Participant};
use requests::Request;
use scripts::ScriptError;
use std::alloc::Global;

/// The most who race.
const MAX_PARTICIPANTS: usize = 64;

/// The most requests of a caller.
const MAX_ASKS: usize = 256;

/// Puts a line into the race, by its number from 0. After an error a part of it may be there.
pub(crate) fn put_line(
    alloc: Global,
    race: &mut WrittenRace,
    number: usize,
    line: Line,
) -> Result<(), ScriptError>
    ensures { Reads (λ done. race_parts race.new) result (with_line (race_parts race.old) number (line_parts line)) }
{
    match line {
        Line::Begins(request) => put_begun(race, request),
        Line::Asks { caller, ask } => put_request(alloc, race, number, caller, ask),
        Line::Rounds {
            set,
            rounds,
            may_crash,
        } => {
            let controller = Participant::Controller {
                set,
                rounds,
                may_crash,
                spares_reads: true,
            };
            put_participant(alloc, race, number, None, controller)
        }
        Line::Turns {
            namespace,
            turns,
            may_crash,
        } => {
            let kubelet = Participant::Kubelet {
                namespace,
                turns,
                may_crash,
            };
            put_participant(alloc, race, number, None, kubelet)
        }
    }
}

/// One more request of the beginning.
fn put_begun(race: &mut WrittenRace, request: Request) -> Result<(), ScriptError>
    ensures { Reads (λ done. race_parts race.new) result (with_begun (race_parts race.old).participants (race_parts race.old) request) }
{
    if race.participants.is_empty() {
        race.beginning.push(request)?;
        Ok(())
    } else {
        drop(request);
        Err(ScriptError::BadScript)
    }
}

/// One more who races.
fn put_participant(
    alloc: Global,
    race: &mut WrittenRace,
    number: usize,
    caller: Option<u64>,
    participant: Participant,
) -> Result<(), ScriptError>
    ensures { Reads (λ done. race_parts race.new) result (with_participant (race_parts race.old) number caller (participant_parts participant)) }
{
    if race.participants.len() >= MAX_PARTICIPANTS {
        drop(participant);
        return Err(ScriptError::BadScript);
    }
    race.participants.push(participant)?;
    race.callers.push(caller)?;
    let mut lines = Vec::new(alloc);
    lines.push(number)?;
    race.lines.push(lines)?;
    Ok(())
}

/// One more request of a caller.
fn put_request(
    alloc: Global,
    race: &mut WrittenRace,
    number: usize,
    caller: u64,
    ask: Ask,
) -> Result<(), ScriptError>
    ensures { Reads (λ done. race_parts race.new) result (with_line (race_parts race.old) number (Asks caller ask)) }
{
    match place_of(race.callers.as_slice(), caller) {
        Some(place) => put_next(race, number, caller, ask, place),
        None => put_first(alloc, race, number, caller, ask),
    }
}

/// The place of a caller among those who race.
fn place_of(callers: &[Option<u64>], caller: u64) -> Option<usize>
    ensures { result ≡ position (is_caller caller) callers.now }
{
    callers.iter().position(|number| *number == Some(caller))
}

/// The first request of a caller.
fn put_first(
    alloc: Global,
    race: &mut WrittenRace,
    number: usize,
    caller: u64,
    ask: Ask,
) -> Result<(), ScriptError>
    ensures { Reads (λ done. race_parts race.new) result (with_first (race_parts race.old) number caller ask) }
{
    let participant = race.participants.len();
    let mut asks = Vec::new(alloc);
    asks.push(ask)?;
    put_participant(
        alloc,
        race,
        number,
        Some(caller),
        Participant::Caller(Caller { asks }),
    )?;
    race.sent.push(Sent {
        caller,
        participant,
        index: 0,
    })?;
    Ok(())
}

/// One more request of the caller in that place.
fn put_next(
    race: &mut WrittenRace,
    number: usize,
    caller: u64,
    ask: Ask,
    place: usize,
) -> Result<(), ScriptError>
    ensures { Reads (λ done. race_parts race.new) result (with_next (race_parts race.old) number caller ask place) }
{
    put_ask_at(&mut race.participants, place, ask)?;
    let index = put_number_at(&mut race.lines, place, number)?;
    race.sent.push(Sent {
        caller,
        participant: place,
        index,
    })?;
    Ok(())
}

#[tactic(auto, using(crate::proofs::Placing::ask_at, crate::proofs::Placing::ask_past, crate::proofs::Placing::ask_fails))]
fn put_ask_at(
    participants: &mut Vec<Participant>,
    place: usize,
    ask: Ask,
) -> Result<(), ScriptError>
    ensures { Reads (λ done. map participant_parts participants.new.items) result (with_ask_at (map participant_parts participants.old.items) place ask) }
{
    match participants.get_mut(place) {
        Some(participant) => {
            put_ask(participant, ask)?;
            Ok(())
        }
        None => {
            drop(ask);
            Err(ScriptError::BadScript)
        }
    }
}

/// Once a caller crashed it sends nothing.
fn put_ask(participant: &mut Participant, ask: Ask) -> Result<(), ScriptError>
    ensures { Reads (λ done. participant_parts participant.new) result (with_ask ask (participant_parts participant.old)) }
{
    match participant {
        Participant::Caller(caller) if !is_over(caller.asks.as_slice()) => {
            caller.asks.push(ask)?;
            Ok(())
        }
        _ => {
            drop(ask);
            Err(ScriptError::BadScript)
        }
    }
}

/// Whether a caller with these requests sends no more.
fn is_over(asks: &[Ask]) -> bool
    ensures { result ≡ is_over asks.now }
{
    asks.len() >= MAX_ASKS || has_crashed(asks)
}

fn has_crashed(asks: &[Ask]) -> bool
    ensures { result ≡ has_crashed asks.now }
{
    asks.iter().any(|ask| ask.crashes)
}

/// Puts the number of a line there, and gives how many stood there before.
#[tactic(auto, using(crate::proofs::Placing::number_at, crate::proofs::Placing::number_past))]
fn put_number_at(
    lines: &mut Vec<Vec<usize>>,
    place: usize,
    number: usize,
) -> Result<usize, ScriptError>
    ensures numbers { Reads (λ index. map (λ numbers. numbers.items) lines.new.items) result
        (with_number_at (map (λ numbers. numbers.items) lines.old.items) place number) }
    ensures index { IfOk result (λ index. index ≡ length (slice_index_or (map (λ numbers. numbers.items) lines.old.items) place [])) }
{
    match lines.get_mut(place) {
        Some(numbers) => {
            let index = numbers.len();
            numbers.push(number)?;
            Ok(index)
        }
        None => Err(ScriptError::BadScript),
    }
}
