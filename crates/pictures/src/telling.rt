ghost use Rattle.std.specs.Prelude.{◌≡◌, ◌<◌, ◌≤◌, ◌-◌, ◌^◌, ◌↔◌, ◌⊎◌, ◌++◌, ◌∷◌, ◌==◌, [], ℕ, List, Some, length, string_bytes, option_map, codes, if◌then◌else◌, IfErr, IfOk, IsErrOf, OnOk};
ghost use Rattle.plain_store.specs.Reached.{most_revisions};
ghost use Rattle.history.specs.After.{IsAfter, taken};
ghost use Rattle.history.specs.Named.{callers};
ghost use Rattle.interleavings.specs.declared.event.Event.{Event};
ghost use Rattle.interleavings.specs.Callers.{named_by};
ghost use Rattle.interleavings.specs.Step.{step};
ghost use Rattle.interleavings.specs.Trace.{after};
ghost use Rattle.interleavings.specs.World.{Size, opening};
ghost use Rattle.pictures.specs.Asked.{asked_in};
ghost use Rattle.pictures.specs.Labels.{reply_words};
ghost use Rattle.pictures.specs.Picture.{caller_phase_by};
ghost use Rattle.pictures.specs.Story.{asked_after, asked_by, asker, crash_line, event_line, is_open, line_between, reply_line, story_text, write_line};

use crate::labels::{put_reply, put_request};
use crate::roles::Roles;
use crate::snapshot::take_snapshot;
use history::{CallerPhase, Replay, ReplayError};
use interleavings::Event;
use requests::{Reply, Request};
use std::alloc::{AllocError, Global};
use std::collections::BTreeMap;

/// The writes of a run as lines for a person: a line for each write, at its reply, as
/// `856: web, controller 0, caller 2: delete Pod/default/web-2: Removed, version 20`, or at the crash of its caller, as
/// `12: caller 1: create Pod/default/a: crash`. Writes are creates, updates, status requests and deletes. A write that
/// is still open at the end has no line.
///
/// # Errors
///
/// As `history::replay`. If the events name more than 4,096 callers it is refused for that, or for memory if that ran
/// out first.
pub fn story<R: Roles>(
    alloc: Global,
    shards: usize,
    capacity: u64,
    events: &[Event],
    roles: &R,
) -> Result<Vec<u8>, ReplayError>
    ensures story { IfOk result (λ text. text.items ≡ story_text (R.role roles.now) (record { capacity = capacity; shards = shards }) events.now) }
    ensures few { OnOk result (callers events.now ≤ 4096) }
    ensures bad_shards { IsErrOf result ReplayError.BadShards ↔ (1 ≤ shards → 64 < shards) }
    ensures bad_capacity { IsErrOf result ReplayError.BadCapacity ↔ ((1 ≤ shards) × (shards ≤ 64) × (1 ≤ capacity → most_revisions < capacity)) }
    ensures too_many { IsErrOf result ReplayError.TooManyCallers → 4096 < callers events.now }
{
    let mut replay = Replay::new(alloc, shards, capacity)?;
    let mut asked = BTreeMap::new(alloc);
    let mut text = String::new(alloc);
    for event in events {
        put_step(&mut replay, event, roles, &mut asked, &mut text)?;
    }
    Ok(text.into_bytes())
}

/// Applies one event, and appends its line, if it has one. `asked` has the last request of each caller.
fn put_step<'a, R: Roles>(
    replay: &mut Replay,
    event: &'a Event,
    roles: &R,
    asked: &mut BTreeMap<u64, &'a Request>,
    out: &mut String,
) -> Result<(), ReplayError>
    requires room { taken replay.old < 2 ^ 64 - 1 }
    ensures done { (size : Size) (events : List Event) → IsAfter size events replay.old → OnOk result (IsAfter size (events ++ event.now ∷ []) replay.new) }
    ensures told { (size : Size) (events : List Event) → IsAfter size events replay.old
        → OnOk result (string_bytes out.new ≡ string_bytes out.old
        ++ line_between (R.role roles.now) (asked_in asked.old) size (length events) event.now (after size opening events) (step size (after size opening events) event.now)) }
    ensures asked { (size : Size) (events : List Event) → IsAfter size events replay.old
        → OnOk result ((c : ℕ) → asked_in asked.new c ≡ asked_after (asked_in asked.old) event.now (caller_phase_by size (after size opening events) (named_by event.now)) c) }
    ensures reasons { IfErr result (λ reason. (reason ≡ ReplayError.TooManyCallers) ⊎ (reason ≡ ReplayError.Memory)) }
    ensures too_many { (size : Size) (events : List Event) → IsAfter size events replay.old
        → IsErrOf result ReplayError.TooManyCallers → 4096 < callers (events ++ event.now ∷ []) }
{
    let place = replay.events();
    let caller = event.caller();
    let before = take_snapshot(replay, caller);
    let delivered = replay.step(event)?;
    let put = put_event(place, event, before.standing, &delivered, roles, asked, out);
    drop(delivered);
    Ok(put?)
}

/// Appends the line of an event, if it has one, by its caller's state before it and by the reply that its caller gets.
fn put_event<'a, R: Roles>(
    place: u64,
    event: &'a Event,
    before: CallerPhase,
    delivered: &Option<Reply>,
    roles: &R,
    asked: &mut BTreeMap<u64, &'a Request>,
    out: &mut String,
) -> Result<(), AllocError>
    ensures told { OnOk result (string_bytes out.new ≡ string_bytes out.old ++ event_line (R.role roles.now) (asked_in asked.old) place event.now before delivered.now) }
    ensures asked { OnOk result ((c : ℕ) → asked_in asked.new c ≡ asked_after (asked_in asked.old) event.now before c) }
{
    match event {
        Event::Call(caller, request) => note(asked, *caller, request, before),
        Event::Reply(caller) => put_answer(
            place,
            *caller,
            asked.get(caller).copied(),
            delivered,
            roles,
            out,
        ),
        Event::Crash(caller) => put_crash(
            place,
            *caller,
            asked.get(caller).copied(),
            before,
            roles,
            out,
        ),
        Event::Check(_)
        | Event::Reserve(_)
        | Event::Publish(_)
        | Event::Raise
        | Event::Read(_)
        | Event::ReadAt(_)
        | Event::Compact(_)
        | Event::Part(_) => Ok(()),
    }
}

/// Notes the request of a caller that can call, in place of the one before.
fn note<'a>(
    asked: &mut BTreeMap<u64, &'a Request>,
    caller: u64,
    request: &'a Request,
    before: CallerPhase,
) -> Result<(), AllocError>
    ensures { OnOk result ((c : ℕ) → asked_in asked.new c ≡ asked_by (asked_in asked.old) caller request.now before c) }
{
    match before {
        CallerPhase::Idle => note_called(asked, caller, request),
        _ => Ok(()),
    }
}

fn note_called<'a>(
    asked: &mut BTreeMap<u64, &'a Request>,
    caller: u64,
    request: &'a Request,
) -> Result<(), AllocError>
    ensures { OnOk result ((c : ℕ) → asked_in asked.new c ≡ (if caller == c then Some request.now else asked_in asked.old c)) }
{
    asked.insert(caller, request)?;
    Ok(())
}

/// The line of the reply to this request, if that is a write.
fn put_answer<R: Roles>(
    place: u64,
    caller: u64,
    request: Option<&Request>,
    delivered: &Option<Reply>,
    roles: &R,
    out: &mut String,
) -> Result<(), AllocError>
    ensures { OnOk result (string_bytes out.new ≡ string_bytes out.old ++ reply_line (R.role roles.now) place caller (option_map (λ r. r.now) request.entry) delivered.now) }
{
    let Some(request) = request else {
        return Ok(());
    };
    let Some(reply) = delivered else {
        return Ok(());
    };
    if !request.is_write() {
        return Ok(());
    }
    put_write(place, caller, request, reply, roles, out)
}

fn put_write<R: Roles>(
    place: u64,
    caller: u64,
    request: &Request,
    reply: &Reply,
    roles: &R,
    out: &mut String,
) -> Result<(), AllocError>
    ensures { OnOk result (string_bytes out.new ≡ string_bytes out.old ++ write_line (R.role roles.now) place caller request.now (reply_words reply.now)) }
{
    put_asker(place, caller, roles, out)?;
    put_request(request, out)?;
    write!(out, ": ")?;
    put_reply(reply, out)?;
    write!(out, "\n")
}

/// The line of a crash while this request is open, if that is a write.
fn put_crash<R: Roles>(
    place: u64,
    caller: u64,
    request: Option<&Request>,
    before: CallerPhase,
    roles: &R,
    out: &mut String,
) -> Result<(), AllocError>
    ensures { OnOk result (string_bytes out.new ≡ string_bytes out.old ++ crash_line (R.role roles.now) place caller (option_map (λ r. r.now) request.entry) before) }
{
    let Some(request) = request else {
        return Ok(());
    };
    if !request.is_write() || !is_open(before) {
        return Ok(());
    }
    put_crashed(place, caller, request, roles, out)
}

/// Whether the caller has a request without a reply.
fn is_open(before: CallerPhase) -> bool
    ensures { result ≡ is_open before }
{
    match before {
        CallerPhase::Idle
        | CallerPhase::Gone
        | CallerPhase::Left {
            number: _,
            shard: _,
        } => false,
        _ => true,
    }
}

fn put_crashed<R: Roles>(
    place: u64,
    caller: u64,
    request: &Request,
    roles: &R,
    out: &mut String,
) -> Result<(), AllocError>
    ensures { OnOk result (string_bytes out.new ≡ string_bytes out.old ++ write_line (R.role roles.now) place caller request.now (codes "crash")) }
{
    put_asker(place, caller, roles, out)?;
    put_request(request, out)?;
    write!(out, ": crash\n")
}

fn put_asker<R: Roles>(
    place: u64,
    caller: u64,
    roles: &R,
    out: &mut String,
) -> Result<(), AllocError>
    ensures { OnOk result (string_bytes out.new ≡ string_bytes out.old ++ asker (R.role roles.now) place caller) }
{
    write!(out, "{place}: ")?;
    roles.put_role(caller, out)?;
    write!(out, "caller {caller}: ")
}
