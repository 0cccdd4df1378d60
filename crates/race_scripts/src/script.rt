// The script that shows an end of a race.
ghost use Rattle.std.specs.Prelude.{◌≡◌, IfOk};
ghost use Rattle.race_lines.specs.Questions.{told_lists};
ghost use Rattle.race_scripts.specs.Leading.{ShowsStore};
ghost use Rattle.race_scripts.specs.Replaying.{ShowsTold};
ghost use Rattle.race_scripts.specs.Scripting.{ShowsEnd, is_replayed};

use crate::callers::are_callers;
use crate::cluster_script::is_cluster_of;
use crate::event_line::script_of_events;
use crate::fault::ScriptingError;
use crate::play::{Play, played};
use crate::race_script::script_of_race;
use crate::replay_script::is_replay_of;
use crate::seats::seats_of;
use crate::stage::{staged, unused_caller};
use explorer::End;
use race_lines::{AskedRace, Question};
use std::alloc::Global;

/// The script that shows the end, over one shard: of `stsctl replay` if callers alone race and the question is what they
/// are told, else of `stsctl cluster`. First the beginning is sent, then those who race send requests in the order of
/// the end, and last somebody looks, if the question is which store is left. Before the script is returned it is run,
/// and compared with the end.
///
/// # Errors
///
/// `NoScript` if they differ or the script cannot be read, for example because a line of it is too long.
pub fn script_text(
    alloc: Global,
    question: Question,
    asked: &AskedRace,
    end: &End,
) -> Result<Vec<u8>, ScriptingError>
    ensures { IfOk result (λ text. ShowsEnd question asked.now end.now text.items) }
{
    let play = played(alloc, &asked.race, end.order.as_slice())?;
    let text = text_of(alloc, question, asked, end, &play);
    drop(play);
    text
}

fn text_of(
    alloc: Global,
    question: Question,
    asked: &AskedRace,
    end: &End,
    play: &Play,
) -> Result<Vec<u8>, ScriptingError>
    ensures { IfOk result (λ text. ShowsEnd question asked.now end.now text.items) }
{
    if is_replayed(question, asked.callers.as_slice()) {
        replay_text(alloc, asked, end, play)
    } else {
        cluster_text(alloc, asked, end, play)
    }
}

/// Whether the script is one of `stsctl replay`.
fn is_replayed(question: Question, callers: &[Option<u64>]) -> bool
    ensures { result ≡ is_replayed question callers.now }
{
    match question {
        Question::Told => are_callers(callers),
        Question::Stores | Question::Both => false,
    }
}

fn replay_text(
    alloc: Global,
    asked: &AskedRace,
    end: &End,
    play: &Play,
) -> Result<Vec<u8>, ScriptingError>
    ensures { IfOk result (λ text. ShowsTold asked.now (told_lists end.now.told.items) text.items) }
{
    let race = &asked.race;
    let callers = asked.callers.as_slice();
    let beginner = unused_caller(callers);
    let events = staged(
        alloc,
        race.capacity,
        beginner,
        race.beginning.as_slice(),
        callers,
        end.order.as_slice(),
        play,
    )?;
    let text = script_of_events(alloc, race.capacity, events.as_slice())?;
    if is_replay_of(alloc, asked, end.told.as_slice(), beginner, text.as_slice())? {
        Ok(text)
    } else {
        Err(ScriptingError::NoScript)
    }
}

fn cluster_text(
    alloc: Global,
    asked: &AskedRace,
    end: &End,
    play: &Play,
) -> Result<Vec<u8>, ScriptingError>
    ensures { IfOk result (λ text. ShowsStore asked.now end.now text.items) }
{
    let race = &asked.race;
    let seats = seats_of(
        alloc,
        race.participants.as_slice(),
        asked.callers.as_slice(),
    )?;
    let text = script_of_race(alloc, race, &seats, end.order.as_slice(), play)?;
    if is_cluster_of(alloc, asked, end, &seats, text.as_slice())? {
        Ok(text)
    } else {
        Err(ScriptingError::NoScript)
    }
}
