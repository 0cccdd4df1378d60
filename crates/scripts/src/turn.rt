// The turn of a line of a cluster's script.
ghost use Rattle.std.specs.Prelude.{◌≡◌};
ghost use Rattle.scripts.specs.Turns.{approach_in, ask_in, bare_event_in, bare_turn_in, crash_in, next_in, outside_in, round_in, run_in, settle_in, store_step_in, turn_in};
ghost use Rattle.scripts.specs.Events.{Reads};

use crate::event::request_in;
use crate::fault::ScriptError;
use crate::line::{count_in, count_of, text_in};
use crate::step::step_in;
use cluster_runs::ClusterEvent;
use controllers::Turn;
use objects::Members;
use std::alloc::Global;

/// The most rounds of a line `settle`.
const MAX_ROUNDS: u64 = 1024;

/// The turn that these members give.
pub(crate) fn turn_in(alloc: Global, members: Members) -> Result<Turn, ScriptError>
    ensures { Reads (λ turn. turn) result (turn_in members) }
{
    let Some(word) = text_in(&members, "event") else {
        return Err(ScriptError::BadScript);
    };
    if word == "ask" {
        return ask_in(alloc, members);
    }
    if word == "outside" {
        return Ok(Turn::Event(outside_in(alloc, members)?));
    }
    match bare_turn_in(word, &members) {
        Some(turn) => Ok(turn),
        None => Err(ScriptError::BadScript),
    }
}

/// A turn without a request.
fn bare_turn_in(word: &str, members: &Members) -> Option<Turn>
    ensures { result ≡ bare_turn_in word.now members.now }
{
    if word == "run" {
        run_in(members)
    } else if word == "round" {
        round_in(members)
    } else if word == "approach" {
        approach_in(members)
    } else if word == "settle" {
        settle_in(members)
    } else {
        Some(Turn::Event(bare_event_in(word, members)?))
    }
}

/// The run of a controller, or of a caller if no controller is named.
fn run_in(members: &Members) -> Option<Turn>
    ensures { result ≡ run_in members.now }
{
    match members.get("controller") {
        Some(controller) => Some(Turn::Run(count_of(controller)? as usize)),
        None => Some(Turn::RunCaller(count_in(members, "caller")?)),
    }
}

fn round_in(members: &Members) -> Option<Turn>
    ensures { result ≡ round_in members.now }
{
    let controller = count_in(members, "controller")?;
    Some(Turn::Round(controller as usize))
}

fn approach_in(members: &Members) -> Option<Turn>
    ensures { result ≡ approach_in members.now }
{
    let controller = count_in(members, "controller")?;
    Some(Turn::Approach(controller as usize))
}

#[tactic(auto, using(crate::proofs::Readings::fails_bind))]
fn ask_in(alloc: Global, members: Members) -> Result<Turn, ScriptError>
    ensures { Reads (λ turn. turn) result (ask_in members) }
{
    let Some(caller) = count_in(&members, "caller") else {
        return Err(ScriptError::BadScript);
    };
    let request = request_in(alloc, members)?;
    Ok(Turn::Ask(caller, request))
}

#[tactic(auto, using(crate::proofs::Readings::fails_bind))]
fn outside_in(alloc: Global, members: Members) -> Result<ClusterEvent, ScriptError>
    ensures { Reads (λ event. event) result (outside_in members) }
{
    let Some(caller) = count_in(&members, "caller") else {
        return Err(ScriptError::BadScript);
    };
    let request = request_in(alloc, members)?;
    Ok(ClusterEvent::Outside(caller, request))
}

/// An event without a request.
fn bare_event_in(word: &str, members: &Members) -> Option<ClusterEvent>
    ensures { result ≡ bare_event_in word.now members.now }
{
    if word == "next" {
        next_in(members)
    } else if word == "crash" {
        crash_in(members)
    } else {
        store_step_in(word, members)
    }
}

/// From 1 to 1,024 rounds.
fn settle_in(members: &Members) -> Option<Turn>
    ensures { result ≡ settle_in members.now }
{
    let rounds = count_in(members, "rounds")?;
    if 1 <= rounds && rounds <= MAX_ROUNDS {
        Some(Turn::Settle { rounds })
    } else {
        None
    }
}

fn next_in(members: &Members) -> Option<ClusterEvent>
    ensures { result ≡ next_in members.now }
{
    let controller = count_in(members, "controller")?;
    Some(ClusterEvent::Next(controller as usize))
}

/// The crash of a controller, or of a caller if no controller is named.
fn crash_in(members: &Members) -> Option<ClusterEvent>
    ensures { result ≡ crash_in members.now }
{
    match members.get("controller") {
        Some(controller) => Some(ClusterEvent::Crash(count_of(controller)? as usize)),
        None => store_step_in("crash", members),
    }
}

fn store_step_in(word: &str, members: &Members) -> Option<ClusterEvent>
    ensures { result ≡ store_step_in word.now members.now }
{
    Some(ClusterEvent::Step(step_in(word, members)?))
}
