ghost use Rattle.std.specs.Prelude.{◌≡◌, ◌<◌, ◌≤◌, ◌-◌, ◌^◌, ◌↔◌, ◌⊎◌, ◌++◌, ◌∷◌, [], List, length, string_bytes, IfErr, IfOk, IsErrOf, OnOk};
ghost use Rattle.plain_store.specs.Reached.{most_revisions};
ghost use Rattle.history.specs.After.{IsAfter, taken};
ghost use Rattle.history.specs.Named.{callers, with_named};
ghost use Rattle.interleavings.specs.declared.event.Event.{Event};
ghost use Rattle.interleavings.specs.Callers.{named_by};
ghost use Rattle.interleavings.specs.Step.{step};
ghost use Rattle.interleavings.specs.Trace.{after};
ghost use Rattle.interleavings.specs.World.{Size, opening};
ghost use Rattle.pictures.specs.Picture.{caller_phase_by, event_lines, lines_between, picture_text, shown_lines};
ghost use Rattle.pictures.specs.Heading.{heading};
ghost use Rattle.pictures.specs.Shown.{participant};

use crate::heading::put_heading;
use crate::lines::{
    put_call, put_check, put_compact, put_crash, put_delivered, put_part, put_publish, put_raise,
    put_read, put_read_at, put_reserve,
};
use crate::names::{note_caller, participant};
use crate::roles::Roles;
use crate::shown::{Shown, shows};
use crate::snapshot::{Snapshot, take_snapshot};
use history::{Replay, ReplayError};
use interleavings::Event;
use requests::Reply;
use std::alloc::{AllocError, Global};
use std::collections::BTreeSet;

/// The run of these events from the opening world, as a Mermaid `sequenceDiagram`: the participants, and a line with
/// its index for each event that is enabled. A publication above a number that is not filled yet has a second line,
/// which names that number. If only writes are shown, other events have no line, and callers that neither call a write
/// nor crash do not take part. A call that is not enabled calls nothing.
///
/// # Errors
///
/// As `history::replay`. If the events name more than 4,096 callers it is refused for that, or for memory if that ran
/// out first.
pub fn picture<R: Roles>(
    alloc: Global,
    shards: usize,
    capacity: u64,
    events: &[Event],
    roles: &R,
    shown: Shown,
) -> Result<Vec<u8>, ReplayError>
    ensures picture { IfOk result (λ text. text.items ≡ picture_text shown (record { capacity = capacity; shards = shards }) (R.role roles.now) events.now) }
    ensures few { OnOk result (callers events.now ≤ 4096) }
    ensures bad_shards { IsErrOf result ReplayError.BadShards ↔ (1 ≤ shards → 64 < shards) }
    ensures bad_capacity { IsErrOf result ReplayError.BadCapacity ↔ ((1 ≤ shards) × (shards ≤ 64) × (1 ≤ capacity → most_revisions < capacity)) }
    ensures too_many { IsErrOf result ReplayError.TooManyCallers → 4096 < callers events.now }
{
    let mut replay = Replay::new(alloc, shards, capacity)?;
    let mut callers = BTreeSet::new(alloc);
    let mut lines = String::new(alloc);
    for event in events {
        put_step(shown, shards, &mut replay, event, &mut callers, &mut lines)?;
    }
    Ok(under_heading(alloc, shards, &callers, roles, lines.as_str())?)
}

/// The lines of the participants, and then these.
fn under_heading<R: Roles>(
    alloc: Global,
    shards: usize,
    callers: &BTreeSet<u64>,
    roles: &R,
    lines: &str,
) -> Result<Vec<u8>, AllocError>
    ensures { IfOk result (λ text. text.items ≡ heading shards (R.role roles.now) callers.now.keys ++ lines.now) }
{
    let mut text = String::new(alloc);
    put_heading(shards, callers, roles, &mut text)?;
    text.push_str(lines)?;
    Ok(text.into_bytes())
}

/// Applies one event, notes who takes part by it, and appends its lines.
fn put_step(
    shown: Shown,
    shards: usize,
    replay: &mut Replay,
    event: &Event,
    names: &mut BTreeSet<u64>,
    out: &mut String,
) -> Result<(), ReplayError>
    requires room { taken replay.old < 2 ^ 64 - 1 }
    ensures done { (size : Size) (events : List Event) → IsAfter size events replay.old → OnOk result (IsAfter size (events ++ event.now ∷ []) replay.new) }
    ensures put { (size : Size) (events : List Event) → IsAfter size events replay.old → size.shards ≡ shards
        → OnOk result (string_bytes out.new ≡ string_bytes out.old
        ++ lines_between shown size (length events) event.now (after size opening events) (step size (after size opening events) event.now)) }
    ensures named { (size : Size) (events : List Event) → IsAfter size events replay.old
        → OnOk result (names.new.keys ≡ with_named names.old.keys (participant shown event.now (caller_phase_by size (after size opening events) (named_by event.now)))) }
    ensures reasons { IfErr result (λ reason. (reason ≡ ReplayError.TooManyCallers) ⊎ (reason ≡ ReplayError.Memory)) }
    ensures too_many { (size : Size) (events : List Event) → IsAfter size events replay.old
        → IsErrOf result ReplayError.TooManyCallers → 4096 < callers (events ++ event.now ∷ []) }
{
    let place = replay.events();
    let caller = event.caller();
    let before = take_snapshot(replay, caller);
    note_caller(names, participant(shown, event, before.standing))?;
    let delivered = replay.step(event)?;
    let after = take_snapshot(replay, caller);
    let put = put_shown(shown, shards, place, event, before, after, &delivered, out);
    drop(delivered);
    Ok(put?)
}

/// Appends the lines of an event, if it is shown.
fn put_shown(
    shown: Shown,
    shards: usize,
    place: u64,
    event: &Event,
    before: Snapshot,
    after: Snapshot,
    delivered: &Option<Reply>,
    out: &mut String,
) -> Result<(), AllocError>
    requires { after.frontier < 2 ^ 64 - 1 }
    ensures { OnOk result (string_bytes out.new ≡ string_bytes out.old ++ shown_lines shown shards place event.now before after delivered.now) }
{
    if !shows(shown, event, before.standing, delivered) {
        return Ok(());
    }
    put_event(shards, place, event, before, after, delivered, out)
}

/// Appends the lines of an event, by the snapshots before and after it and by the reply that its caller gets.
fn put_event(
    shards: usize,
    place: u64,
    event: &Event,
    before: Snapshot,
    after: Snapshot,
    delivered: &Option<Reply>,
    out: &mut String,
) -> Result<(), AllocError>
    requires { after.frontier < 2 ^ 64 - 1 }
    ensures { OnOk result (string_bytes out.new ≡ string_bytes out.old ++ event_lines shards place event.now before after delivered.now) }
{
    match event {
        Event::Call(caller, request) => put_call(place, *caller, request, before.standing, out),
        Event::Check(caller) => put_check(place, *caller, before.standing, after.standing, out),
        Event::Reserve(caller) => put_reserve(place, *caller, before.standing, after.standing, out),
        Event::Publish(caller) => put_publish(
            place,
            *caller,
            before.standing,
            after.can_rise,
            after.frontier,
            out,
        ),
        Event::Raise => put_raise(place, before.can_rise, after.frontier, out),
        Event::Read(caller) => put_read(place, *caller, before.standing, after.standing, out),
        Event::ReadAt(caller) => put_read_at(place, *caller, before.standing, after.standing, out),
        Event::Compact(caller) => put_compact(place, *caller, before.standing, out),
        Event::Part(caller) => put_part(shards, place, *caller, before.standing, out),
        Event::Reply(caller) => put_delivered(place, *caller, delivered, out),
        Event::Crash(caller) => put_crash(place, *caller, before.standing, out),
    }
}
