// The lines of the text of a race after its first.
ghost use Rattle.std.specs.Prelude.{◌≡◌, option_map};
ghost use Rattle.scripts.specs.Events.{Reads};
ghost use Rattle.scripts.specs.Sets.{namespace_in};
ghost use Rattle.race_lines.specs.RaceLines.{ask_in, begins_in, caller_ask_in, caller_in, controller_in, crash_in, kubelet_in, line_in, line_of, line_parts, request_ask_in, rounds_in, times_in};

use crate::asks::{are_named, asked_of, only_if_in};
use controllers::SetSpec;
use objects::{Members, Text, Tree, TreeReader, is_dns_label};
use participants::{Ask, Asked};
use requests::Request;
use scripts::{ScriptError, count_in, read_members, request_in, set_of};
use std::alloc::Global;

/// The most rounds of a controller, and turns of a kubelet.
const MAX_TIMES: u64 = 1024;

/// A request of the beginning, a request of a caller, or a controller or a kubelet.
#[derive(Drop)]
pub(crate) enum Line {
    Begins(Request),
    Asks {
        caller: u64,
        ask: Ask,
    },
    Rounds {
        set: SetSpec,
        rounds: u64,
        may_crash: bool,
    },
    Turns {
        namespace: Text,
        turns: u64,
        may_crash: bool,
    },
}

/// What a line says.
#[tactic(auto, using(scripts::proofs::Readings::fails_bind), unfolding(crate::specs::RaceLines::line_of))]
pub(crate) fn read_line(
    alloc: Global,
    reader: &mut TreeReader,
    line: &[u8],
) -> Result<Line, ScriptError>
    ensures { Reads line_parts result (line_of line.now) }
{
    let members = read_members(reader, line)?;
    line_in(alloc, members)
}

fn line_in(alloc: Global, members: Members) -> Result<Line, ScriptError>
    ensures { Reads line_parts result (line_in members) }
{
    let Some(crashes) = crash_in(&members) else {
        return Err(ScriptError::BadScript);
    };
    if members.get("controller").is_some() {
        controller_in(alloc, &members, crashes)
    } else if members.get("kubelet").is_some() && members.get("request").is_none() {
        kubelet_in(alloc, &members, crashes)
    } else if members.get("caller").is_some() {
        caller_in(alloc, members, crashes)
    } else {
        begins_in(alloc, members, crashes)
    }
}

/// Whether one crashes, or may crash; by default nobody does.
fn crash_in(members: &Members) -> Option<bool>
    ensures { result ≡ crash_in members.now }
{
    match members.get("crash") {
        None => Some(false),
        Some(Tree::Truth(crashes)) => Some(*crashes),
        Some(_) => None,
    }
}

fn controller_in(alloc: Global, members: &Members, may_crash: bool) -> Result<Line, ScriptError>
    ensures { Reads line_parts result (controller_in members.now may_crash) }
{
    if members.get("request").is_some() {
        return Err(ScriptError::BadScript);
    }
    rounds_in(alloc, members, may_crash)
}

/// A controller of a set, which makes some rounds.
#[tactic(auto, using(scripts::proofs::Readings::fails_bind))]
fn rounds_in(alloc: Global, members: &Members, may_crash: bool) -> Result<Line, ScriptError>
    ensures { Reads line_parts result (rounds_in members.now may_crash) }
{
    let Some(rounds) = times_in(members, "rounds") else {
        return Err(ScriptError::BadScript);
    };
    let Some(controller) = members.get("controller") else {
        return Err(ScriptError::BadScript);
    };
    let set = set_of(alloc, controller)?;
    Ok(Line::Rounds {
        set,
        rounds,
        may_crash,
    })
}

/// A kubelet of a namespace, which takes some turns.
fn kubelet_in(alloc: Global, members: &Members, may_crash: bool) -> Result<Line, ScriptError>
    ensures { Reads line_parts result (kubelet_in members.now may_crash) }
{
    let Some(turns) = times_in(members, "turns") else {
        return Err(ScriptError::BadScript);
    };
    let Some(kubelet) = members.get("kubelet") else {
        return Err(ScriptError::BadScript);
    };
    let Some(place) = kubelet.as_map() else {
        return Err(ScriptError::BadScript);
    };
    let Some(namespace) = namespace_in(place) else {
        return Err(ScriptError::BadScript);
    };
    let namespace = Text::copy_of(alloc, namespace)?;
    Ok(Line::Turns {
        namespace,
        turns,
        may_crash,
    })
}

/// How many rounds or turns.
fn times_in(members: &Members, name: &str) -> Option<u64>
    ensures { result ≡ times_in name.now members.now }
{
    let times = count_in(members, name)?;
    if times <= MAX_TIMES {
        Some(times)
    } else {
        None
    }
}

/// The namespace, a DNS label (RFC 1123); by default `default`.
fn namespace_in(place: &Members) -> Option<&str>
    ensures { option_map (λ s. s.now) result ≡ namespace_in place.now }
{
    let Some(value) = place.get("namespace") else {
        return Some("default");
    };
    let text = value.as_text()?;
    if is_dns_label(text) { Some(text) } else { None }
}

/// A request of a caller.
#[tactic(auto, using(scripts::proofs::Readings::fails_bind))]
fn caller_in(alloc: Global, members: Members, crashes: bool) -> Result<Line, ScriptError>
    ensures { Reads line_parts result (caller_in members crashes) }
{
    let Some(caller) = count_in(&members, "caller") else {
        return Err(ScriptError::BadScript);
    };
    let ask = caller_ask_in(alloc, members, crashes)?;
    Ok(Line::Asks { caller, ask })
}

fn caller_ask_in(alloc: Global, members: Members, crashes: bool) -> Result<Ask, ScriptError>
    ensures { Reads (λ ask. ask) result (caller_ask_in members crashes) }
{
    if members.get("request").is_some() {
        request_ask_in(alloc, members, crashes)
    } else {
        ask_in(alloc, &members, crashes)
    }
}

/// What is sent in any case.
#[tactic(auto, using(scripts::proofs::Readings::fails_bind))]
fn request_ask_in(alloc: Global, members: Members, crashes: bool) -> Result<Ask, ScriptError>
    ensures { Reads (λ ask. ask) result (request_ask_in members crashes) }
{
    let request = request_in(alloc, members)?;
    Ok(Ask {
        asked: Asked::Request(request),
        only_if: None,
        crashes,
    })
}

/// What may depend on what the caller has been told.
#[tactic(auto, using(scripts::proofs::Readings::fails_bind))]
fn ask_in(alloc: Global, members: &Members, crashes: bool) -> Result<Ask, ScriptError>
    ensures { Reads (λ ask. ask) result (ask_in members.now crashes) }
{
    if !are_named(members, &["ask", "caller", "crash", "if"]) {
        return Err(ScriptError::BadScript);
    }
    let Some(value) = members.get("ask") else {
        return Err(ScriptError::BadScript);
    };
    let only_if = only_if_in(alloc, members)?;
    let asked = asked_of(alloc, value)?;
    Ok(Ask {
        asked,
        only_if,
        crashes,
    })
}

/// A request of the beginning, within which nobody crashes.
#[tactic(auto, using(scripts::proofs::Readings::fails_bind))]
fn begins_in(alloc: Global, members: Members, crashes: bool) -> Result<Line, ScriptError>
    ensures { Reads line_parts result (begins_in members crashes) }
{
    if crashes {
        return Err(ScriptError::BadScript);
    }
    let request = request_in(alloc, members)?;
    Ok(Line::Begins(request))
}
