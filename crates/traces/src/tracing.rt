ghost use Rattle.std.specs.Prelude.{◌≡◌, ◌<◌, ◌≤◌, ◌+◌, ◌-◌, ◌^◌, ◌↔◌, ◌⊎◌, ◌++◌, ◌∷◌, [], List, length, min, string_bytes, IfErr, IfOk, IsErrOf, OnOk};
ghost use Rattle.std.specs.List.{concat};
ghost use Rattle.plain_store.specs.Reached.{most_revisions};
ghost use Rattle.history.specs.After.{IsAfter, taken};
ghost use Rattle.history.specs.Named.{callers};
ghost use Rattle.interleavings.specs.declared.event.Event.{Event};
ghost use Rattle.interleavings.specs.Step.{step};
ghost use Rattle.interleavings.specs.Trace.{after};
ghost use Rattle.interleavings.specs.World.{Size, opening};
ghost use Rattle.traces.specs.Traced.{line_between, line_words, section, texts_of, trace_by_lines_text, trace_text};

use crate::lines::put_line;
use crate::notes::{NoNotes, Notes};
use crate::run_state::take_run_state;
use history::{Replay, ReplayError};
use interleavings::Event;
use pictures::Roles;
use std::alloc::{AllocError, Global};

/// The run of these events from the opening world, event by event: a line for each, as
/// `7: web, controller 0, caller 2: check: not enabled: next is check, in shard 1, which is held`. It says who, what,
/// whether the event was enabled, and the state of its caller after it, or for a raise where the frontier is then.
///
/// # Errors
///
/// As `history::replay`. If the events name more than 4,096 callers it is refused for that, or for memory if that ran
/// out first.
pub fn trace_lines<R: Roles>(
    alloc: Global,
    shards: usize,
    capacity: u64,
    events: &[Event],
    roles: &R,
) -> Result<Vec<u8>, ReplayError>
    ensures trace { IfOk result (λ text. text.items ≡ trace_text (R.role roles.now) (record { capacity = capacity; shards = shards }) events.now) }
    ensures few { OnOk result (callers events.now ≤ 4096) }
    ensures bad_shards { IsErrOf result ReplayError.BadShards ↔ (1 ≤ shards → 64 < shards) }
    ensures bad_capacity { IsErrOf result ReplayError.BadCapacity ↔ ((1 ≤ shards) × (shards ≤ 64) × (1 ≤ capacity → most_revisions < capacity)) }
    ensures too_many { IsErrOf result ReplayError.TooManyCallers → 4096 < callers events.now }
{
    let mut replay = Replay::new(alloc, shards, capacity)?;
    let mut text = String::new(alloc);
    put_events(events, &mut replay, roles, &NoNotes, &mut text)?;
    Ok(text.into_bytes())
}

/// Applies the events, and appends the text of each.
fn put_events<R: Roles, N: Notes>(
    events: &[Event],
    replay: &mut Replay,
    roles: &R,
    notes: &N,
    out: &mut String,
) -> Result<(), ReplayError>
    requires room { taken replay.old + length events.now < 2 ^ 64 }
    ensures count { OnOk result (taken replay.new ≡ taken replay.old + length events.now) }
    ensures done { (size : Size) (before : List Event) → IsAfter size before replay.old → OnOk result (IsAfter size (before ++ events.now) replay.new) }
    ensures put { (size : Size) (before : List Event) → IsAfter size before replay.old
        → OnOk result (string_bytes out.new ≡ string_bytes out.old
        ++ concat (texts_of (R.role roles.now) (N.note notes.now) size (length before) (after size opening before) events.now)) }
    ensures reasons { IfErr result (λ reason. (reason ≡ ReplayError.TooManyCallers) ⊎ (reason ≡ ReplayError.Memory)) }
    ensures too_many { (size : Size) (before : List Event) → IsAfter size before replay.old
        → IsErrOf result ReplayError.TooManyCallers → 4096 < callers (before ++ events.now) }
{
    for event in events {
        put_step(event, replay, roles, notes, out)?;
    }
    Ok(())
}

/// Applies one event, and appends its line and the note at its index.
fn put_step<R: Roles, N: Notes>(
    event: &Event,
    replay: &mut Replay,
    roles: &R,
    notes: &N,
    out: &mut String,
) -> Result<(), ReplayError>
    requires room { taken replay.old < 2 ^ 64 - 1 }
    ensures count { OnOk result (taken replay.new ≡ taken replay.old + 1) }
    ensures done { (size : Size) (before : List Event) → IsAfter size before replay.old → OnOk result (IsAfter size (before ++ event.now ∷ []) replay.new) }
    ensures put { (size : Size) (before : List Event) → IsAfter size before replay.old
        → OnOk result (string_bytes out.new ≡ string_bytes out.old
        ++ (line_between (R.role roles.now) size (length before) event.now (after size opening before) (step size (after size opening before) event.now)
        ++ N.note notes.now (length before))) }
    ensures reasons { IfErr result (λ reason. (reason ≡ ReplayError.TooManyCallers) ⊎ (reason ≡ ReplayError.Memory)) }
    ensures too_many { (size : Size) (before : List Event) → IsAfter size before replay.old
        → IsErrOf result ReplayError.TooManyCallers → 4096 < callers (before ++ event.now ∷ []) }
{
    let place = replay.events();
    put_told(event, replay, roles, out)?;
    Ok(notes.put_note(place, out)?)
}

/// Applies one event, and appends its line.
fn put_told<R: Roles>(
    event: &Event,
    replay: &mut Replay,
    roles: &R,
    out: &mut String,
) -> Result<(), ReplayError>
    requires room { taken replay.old < 2 ^ 64 - 1 }
    ensures count { OnOk result (taken replay.new ≡ taken replay.old + 1) }
    ensures done { (size : Size) (before : List Event) → IsAfter size before replay.old → OnOk result (IsAfter size (before ++ event.now ∷ []) replay.new) }
    ensures put { (size : Size) (before : List Event) → IsAfter size before replay.old
        → OnOk result (string_bytes out.new ≡ string_bytes out.old
        ++ line_between (R.role roles.now) size (length before) event.now (after size opening before) (step size (after size opening before) event.now)) }
    ensures reasons { IfErr result (λ reason. (reason ≡ ReplayError.TooManyCallers) ⊎ (reason ≡ ReplayError.Memory)) }
    ensures too_many { (size : Size) (before : List Event) → IsAfter size before replay.old
        → IsErrOf result ReplayError.TooManyCallers → 4096 < callers (before ++ event.now ∷ []) }
{
    let place = replay.events();
    let caller = event.caller();
    let before = take_run_state(replay, caller);
    let delivered = replay.step(event)?;
    let after = take_run_state(replay, caller);
    let put = put_line(place, event, before, after, &delivered, roles, out);
    drop(delivered);
    Ok(put?)
}

/// The same under the lines of a script. For each line `ends` has the number of events up to its end, and the first
/// line has the number `first_line`: `line 3:` is above the texts of its events, and `line 3: nothing` is there if it
/// had none. The note at an event's index follows its line.
///
/// # Errors
///
/// As `trace_lines`.
pub fn trace_by_lines<R: Roles, N: Notes>(
    alloc: Global,
    shards: usize,
    capacity: u64,
    events: &[Event],
    ends: &[usize],
    first_line: u64,
    roles: &R,
    notes: &N,
) -> Result<Vec<u8>, ReplayError>
    requires { first_line < 2 ^ 63 }
    ensures trace { IfOk result (λ text. text.items ≡ trace_by_lines_text (R.role roles.now) (N.note notes.now) (record { capacity = capacity; shards = shards }) events.now ends.now first_line) }
    ensures few { OnOk result (callers events.now ≤ 4096) }
    ensures bad_shards { IsErrOf result ReplayError.BadShards ↔ (1 ≤ shards → 64 < shards) }
    ensures bad_capacity { IsErrOf result ReplayError.BadCapacity ↔ ((1 ≤ shards) × (shards ≤ 64) × (1 ≤ capacity → most_revisions < capacity)) }
    ensures too_many { IsErrOf result ReplayError.TooManyCallers → 4096 < callers events.now }
{
    let mut replay = Replay::new(alloc, shards, capacity)?;
    let mut text = String::new(alloc);
    let mut place = 0;
    let mut line = first_line;
    for end in ends {
        let stop = stop_of(place, *end, events.len());
        put_section(
            line,
            &events[place..stop],
            &mut replay,
            roles,
            notes,
            &mut text,
        )?;
        place = stop;
        line += 1;
    }
    put_events(&events[place..], &mut replay, roles, notes, &mut text)?;
    Ok(text.into_bytes())
}

/// How many of `count` events there are up to the end of a line; `place` of them are under the lines before it.
fn stop_of(place: usize, end: usize, count: usize) -> usize
    requires { place ≤ count }
    ensures { result ≡ place + min (end - place) (count - place) }
{
    place + end.saturating_sub(place).min(count - place)
}

/// Applies the events of a line, and appends its number and the text of each.
fn put_section<R: Roles, N: Notes>(
    line: u64,
    events: &[Event],
    replay: &mut Replay,
    roles: &R,
    notes: &N,
    out: &mut String,
) -> Result<(), ReplayError>
    requires room { taken replay.old + length events.now < 2 ^ 64 }
    ensures count { OnOk result (taken replay.new ≡ taken replay.old + length events.now) }
    ensures done { (size : Size) (before : List Event) → IsAfter size before replay.old → OnOk result (IsAfter size (before ++ events.now) replay.new) }
    ensures put { (size : Size) (before : List Event) → IsAfter size before replay.old
        → OnOk result (string_bytes out.new ≡ string_bytes out.old
        ++ section line (texts_of (R.role roles.now) (N.note notes.now) size (length before) (after size opening before) events.now)) }
    ensures reasons { IfErr result (λ reason. (reason ≡ ReplayError.TooManyCallers) ⊎ (reason ≡ ReplayError.Memory)) }
    ensures too_many { (size : Size) (before : List Event) → IsAfter size before replay.old
        → IsErrOf result ReplayError.TooManyCallers → 4096 < callers (before ++ events.now) }
{
    put_line_number(line, events.len(), out)?;
    put_events(events, replay, roles, notes, out)
}

/// Appends the number of a line that has so many events.
fn put_line_number(line: u64, count: usize, out: &mut String) -> Result<(), AllocError>
    ensures { OnOk result (string_bytes out.new ≡ string_bytes out.old ++ line_words line count) }
{
    if count == 0 {
        return write!(out, "line {line}: nothing\n");
    }
    write!(out, "line {line}:\n")
}
