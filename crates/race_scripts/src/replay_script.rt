// Whether a script of `stsctl replay` shows an end of a race of callers.
ghost use Rattle.std.specs.Prelude.{◌≡◌, IfOk, IsTrue};
ghost use Rattle.race_lines.specs.Questions.{told_lists};
ghost use Rattle.race_scripts.specs.Replaying.{IsShown, ShowsTold, are_players, calls_only, is_begun, is_by};

use crate::callers::{are_apart, are_callers, is_among};
use crate::fault::ScriptingError;
use crate::gone::have_gone;
use crate::turns::{answered_just, goes_first};
use history::{Item, replay};
use objects::Memory;
use participants::Told;
use plain::Request;
use race_lines::AskedRace;
use scripts::read_script;
use std::alloc::Global;

/// Whether the text is a script in whose run the beginner sends the beginning, before all others, and each caller of the
/// race goes its way and is told this.
pub(crate) fn is_replay_of(
    alloc: Global,
    asked: &AskedRace,
    told: &[Vec<Told>],
    beginner: u64,
    text: &[u8],
) -> Result<bool, ScriptingError>
    ensures { IfOk result (λ is. IsTrue is → ShowsTold asked.now (told_lists told.now) text.now) }
{
    let script = read_script(alloc, text)?;
    if script.capacity != asked.race.capacity {
        return Ok(false);
    }
    let shards = script.shards as usize;
    let found = replay(alloc, shards, script.capacity, script.events.as_slice())?;
    let shown = is_shown(alloc, asked, told, beginner, found.trace.items.as_slice());
    drop(found);
    Ok(shown?)
}

fn is_shown(
    alloc: Global,
    asked: &AskedRace,
    told: &[Vec<Told>],
    beginner: u64,
    items: &[Item],
) -> Result<bool, Memory>
    ensures { IfOk result (λ is. IsTrue is → IsShown asked.now (told_lists told.now) beginner items.now) }
{
    let callers = asked.callers.as_slice();
    if !are_players(beginner, callers, items) {
        return Ok(false);
    }
    if !is_begun(beginner, asked.race.beginning.as_slice(), items) {
        return Ok(false);
    }
    have_gone(
        alloc,
        asked.race.participants.as_slice(),
        callers,
        told,
        items,
    )
}

/// Whether the beginner and callers, each another one, alone call.
fn are_players(beginner: u64, callers: &[Option<u64>], items: &[Item]) -> bool
    ensures { result ≡ are_players beginner callers.now items.now }
{
    are_callers(callers) && are_apart(beginner, callers) && calls_only(beginner, callers, items)
}

/// Whether nobody else calls.
fn calls_only(beginner: u64, callers: &[Option<u64>], items: &[Item]) -> bool
    ensures { result ≡ calls_only beginner callers.now items.now }
{
    items.iter().all(|item| is_by(beginner, callers, item))
}

/// Whether the item is no call, or that of one of these.
fn is_by(beginner: u64, callers: &[Option<u64>], item: &Item) -> bool
    ensures { result ≡ is_by beginner callers.now item.now }
{
    match item {
        Item::Call {
            place: _,
            caller,
            request: _,
        } => *caller == beginner || is_among(callers, *caller),
        Item::Reply {
            place: _,
            caller: _,
            reply: _,
        } => true,
    }
}

/// Whether the beginner sends the beginning and gets its replies before any other calls.
fn is_begun(beginner: u64, beginning: &[Request], items: &[Item]) -> bool
    ensures { result ≡ is_begun beginner beginning.now items.now }
{
    goes_first(beginner, items) && answered_just(beginner, beginning, items)
}
