// Whether a script of `stsctl cluster` shows an end of a race.
ghost use Rattle.std.specs.Prelude.{◌≡◌, IfOk, IsTrue, is_some, map};
ghost use Rattle.race_scripts.specs.Leading.{IsLed, LeadsTo, ShowsStore, is_of_race};

use crate::callers::are_apart;
use crate::fault::ScriptingError;
use crate::gone::have_gone;
use crate::last_told::{is_framed, is_told_last};
use crate::same_sets::are_sets_of;
use crate::seats::{Seats, number_of};
use controllers::run_turns;
use explorer::{End, Race};
use history::Item;
use objects::Memory;
use race_lines::AskedRace;
use scripts::{ClusterScript, read_cluster_script};
use std::alloc::{AllocError, Global};

/// Whether the text is a script that leads to the end.
pub(crate) fn is_cluster_of(
    alloc: Global,
    asked: &AskedRace,
    end: &End,
    seats: &Seats,
    text: &[u8],
) -> Result<bool, ScriptingError>
    ensures { IfOk result (λ is. IsTrue is → ShowsStore asked.now end.now text.now) }
{
    let players = players_of(alloc, asked.callers.as_slice(), seats)?;
    let script = read_cluster_script(alloc, text)?;
    let leads = leads_to(alloc, asked, end, players.as_slice(), seats.looker, &script);
    drop(script);
    leads
}

/// The caller that each participant is in the script, if it is one.
fn players_of(
    alloc: Global,
    callers: &[Option<u64>],
    seats: &Seats,
) -> Result<Vec<Option<u64>>, AllocError>
    ensures { IfOk result (λ players. map is_some players.items ≡ map is_some callers.now) }
{
    let mut players = Vec::new(alloc);
    for number in 0..callers.len() {
        players.push(player_of(callers[number], number, seats))?;
    }
    Ok(players)
}

fn player_of(caller: Option<u64>, participant: usize, seats: &Seats) -> Option<u64>
    ensures { is_some result ≡ is_some caller }
{
    match caller {
        Some(_) => Some(number_of(seats.seat(participant, false))),
        None => None,
    }
}

fn leads_to(
    alloc: Global,
    asked: &AskedRace,
    end: &End,
    players: &[Option<u64>],
    looker: u64,
    script: &ClusterScript,
) -> Result<bool, ScriptingError>
    requires { map is_some players.now ≡ map is_some asked.now.callers.items }
    ensures { IfOk result (λ leads. IsTrue leads → LeadsTo asked.now end.now script.now) }
{
    if !is_of_race(&asked.race, looker, script) {
        return Ok(false);
    }
    if !are_apart(looker, players) {
        return Ok(false);
    }
    let found = run_turns(alloc, &script.spec, script.turns.as_slice())?;
    let led = is_led(
        alloc,
        asked,
        end,
        looker,
        players,
        found.run.run.trace.items.as_slice(),
    );
    drop(found);
    Ok(led?)
}

/// Whether the script is of the race's controllers, and begins and ends with the looker's requests.
fn is_of_race(race: &Race, looker: u64, script: &ClusterScript) -> bool
    ensures { result ≡ is_of_race race.now looker script.now }
{
    script.spec.capacity == race.capacity
        && are_sets_of(race.participants.as_slice(), script.spec.sets.as_slice())
        && is_framed(
            looker,
            race.beginning.as_slice(),
            race.looks.as_slice(),
            script.turns.as_slice(),
        )
}

/// Whether in the run the looker is told what the end shows, and each caller goes its way.
fn is_led(
    alloc: Global,
    asked: &AskedRace,
    end: &End,
    looker: u64,
    players: &[Option<u64>],
    items: &[Item],
) -> Result<bool, Memory>
    ensures { IfOk result (λ led. IsTrue led → IsLed asked.now end.now looker players.now items.now) }
{
    let race = &asked.race;
    if !is_told_last(
        looker,
        race.beginning.as_slice(),
        race.looks.as_slice(),
        end.looks.as_slice(),
        items,
    ) {
        return Ok(false);
    }
    have_gone(
        alloc,
        race.participants.as_slice(),
        players,
        end.told.as_slice(),
        items,
    )
}
