//! What `stsctl outcomes` finds of a race.
ghost use Rattle.std.specs.Prelude.{◌≡◌, [], None, Some, codes, false, IfOk, IfErr, IfSome};
ghost use Rattle.std.specs.Option.{option_copied};
ghost use Rattle.commands.specs.Finding.{IsAnswer, IsAnswerRefusal, IsAskedIn, IsBadCapacity, IsChosen, IsChosenRefusal, IsOutcomesRefusal, IsOutcomesText, IsUnreadRefusal, all_lines, end_of, first_in, first_of, number_of, question_of, untold_in, untold_line};
ghost use Rattle.commands.specs.Halts.{is_read, name_of, refused_as, told_line};
ghost use Rattle.commands.specs.Noting.{AreOutcomesNotes, notes_in};
ghost use Rattle.race_lines.specs.RaceTexts.{race_of, race_parts};
ghost use Rattle.race_lines.specs.RefusedLines.{refused_line_of};
ghost use Rattle.scripts.specs.Events.{Fails};

use crate::args::OutcomesWords;
use crate::halt::{Halt, halt_at};
use crate::notes::notes_in;
use explorer::{End, ends};
use objects::Memory;
use outcome_lines::{ends_brief_text, ends_text};
use race_lines::{
    AskedRace, Question, Sent, WrittenRace, asked_race, objects_begun, read_written_race,
    refused_line,
};
use race_scripts::script_text;
use scripts::ScriptError;
use std::alloc::Global;

/// Behind this index a line has no number of its own.
const LAST_INDEX: usize = 18_446_744_073_709_551_613;

/// What is written of a race.
#[derive(Drop)]
pub(crate) struct Found {
    /// How it may end: what its callers are told, which store it leaves, or both; in words if that is requested, or as a
    /// script that shows one end.
    pub(crate) text: Vec<u8>,
    /// The notes about controllers that plan nothing when it begins.
    pub(crate) notes: Vec<u8>,
}

/// What is to be written, given all lines.
pub(crate) fn found_in_lines(
    alloc: Global,
    options: OutcomesWords,
    input: &[u8],
) -> Result<Found, Halt>
    ensures found { IfOk result (λ found. IsOutcomesText options input.now found.text.items) }
    ensures noted { IfOk result (λ found. AreOutcomesNotes options input.now found.notes.items) }
    ensures refused { IfErr result (λ halt. IfSome (name_of halt) (IsOutcomesRefusal options input.now)) }
    ensures read { IfErr result (λ halt. is_read halt ≡ false) }
{
    let asked = race_of_input(alloc, options, input)?;
    let found = found_of_race(alloc, options, &asked);
    drop(asked);
    found
}

fn found_of_race(alloc: Global, options: OutcomesWords, asked: &AskedRace) -> Result<Found, Halt>
    ensures found { IfOk result (λ found. IsAnswer options asked.now found.text.items) }
    ensures noted { IfOk result (λ found. found.notes.items ≡ notes_in options.choice asked.now) }
    ensures refused { IfErr result (λ halt. IfSome (name_of halt) (IsAnswerRefusal options asked.now)) }
    ensures read { IfErr result (λ halt. is_read halt ≡ false) }
{
    let text = ends_of_race(alloc, options, asked)?;
    let notes = notes_in(alloc, options.choice, asked)?;
    Ok(Found { text, notes })
}

/// The race of these lines, as it is asked about.
fn race_of_input(alloc: Global, options: OutcomesWords, input: &[u8]) -> Result<AskedRace, Halt>
    ensures asked { IfOk result (IsAskedIn options input.now) }
    ensures refused { IfErr result (λ halt. IfSome (name_of halt) (IsUnreadRefusal options input.now)) }
    ensures read { IfErr result (λ halt. is_read halt ≡ false) }
{
    match read_written_race(alloc, input) {
        Ok(written) => race_asked(alloc, options, input, written),
        Err(error) => Err(no_race(alloc, options, error, input)),
    }
}

/// The same, given the race. If only the replies to callers are asked for, some caller has to race.
fn race_asked(
    alloc: Global,
    options: OutcomesWords,
    input: &[u8],
    written: WrittenRace,
) -> Result<AskedRace, Halt>
    requires { race_of input.now ≡ Some (race_parts written) }
    ensures asked { IfOk result (IsAskedIn options input.now) }
    ensures refused { IfErr result (λ halt. IfSome (name_of halt) (IsUnreadRefusal options input.now)) }
    ensures read { IfErr result (λ halt. is_read halt ≡ false) }
{
    let question = question_of(options.final_stores, options.both);
    match untold_line(question, &written) {
        Some(line) => {
            drop(written);
            Err(untold(options.shows_line, line))
        }
        None => {
            let asked = asked_race(alloc, question, written)?;
            Ok(asked)
        }
    }
}

/// What is asked about the ends.
fn question_of(final_stores: bool, both: bool) -> Question
    ensures { result ≡ question_of final_stores both }
{
    if both {
        Question::Both
    } else if final_stores {
        Question::Stores
    } else {
        Question::Told
    }
}

/// The line of the first one who races, if only replies to callers are asked for and no caller races.
fn untold_line(question: Question, written: &WrittenRace) -> Option<u64>
    ensures { result ≡ untold_line question written.now }
{
    match question {
        Question::Told => untold_in(written.sent.as_slice(), written.lines.as_slice()),
        Question::Stores | Question::Both => None,
    }
}

fn untold_in(sent: &[Sent], lines: &[Vec<usize>]) -> Option<u64>
    ensures { result ≡ untold_in sent.now lines.now }
{
    match sent.first() {
        Some(_sent) => None,
        None => first_in(lines),
    }
}

fn first_in(lines: &[Vec<usize>]) -> Option<u64>
    ensures { result ≡ first_in lines.now }
{
    match lines.first() {
        Some(own) => first_of(own.as_slice()),
        None => None,
    }
}

fn first_of(own: &[usize]) -> Option<u64>
    ensures { result ≡ first_of own.now }
{
    match own.first() {
        Some(index) => Some(number_of(*index)),
        None => None,
    }
}

/// The number of a line, from 1, by its index after the first line.
pub(crate) fn number_of(index: usize) -> u64
    ensures { result ≡ number_of index }
{
    if index < LAST_INDEX {
        index as u64 + 2
    } else {
        u64::MAX
    }
}

fn untold(shows_line: bool, line: u64) -> Halt
    ensures read { is_read result ≡ false }
    ensures named { name_of result ≡ Some (refused_as (told_line shows_line (Some line)) [] (codes "BadScript")) }
{
    if shows_line {
        halt_at("BadScript", Some(line), "")
    } else {
        halt_at("BadScript", None, "")
    }
}

/// Why an input that has no race has no output.
fn no_race(alloc: Global, options: OutcomesWords, error: ScriptError, input: &[u8]) -> Halt
    ensures read { is_read result ≡ false }
    ensures refused { Fails error (race_of input.now) → IfSome (name_of result) (IsUnreadRefusal options input.now) }
{
    match error {
        ScriptError::Memory => Halt::Memory,
        ScriptError::BadScript => match line_told(alloc, options.shows_line, input) {
            Ok(line) => halt_at("BadScript", line, ""),
            Err(Memory) => Halt::Memory,
        },
    }
}

/// The first line for which it has none, if it is to be named.
fn line_told(alloc: Global, shows_line: bool, input: &[u8]) -> Result<Option<u64>, Memory>
    ensures { IfOk result (λ line. line ≡ told_line shows_line (refused_line_of input.now)) }
{
    if shows_line {
        refused_line(alloc, input)
    } else {
        Ok(None)
    }
}

/// What is to be written, given the race.
fn ends_of_race(alloc: Global, options: OutcomesWords, asked: &AskedRace) -> Result<Vec<u8>, Halt>
    ensures found { IfOk result (λ text. IsAnswer options asked.now text.items) }
    ensures refused { IfErr result (λ halt. IfSome (name_of halt) (IsAnswerRefusal options asked.now)) }
    ensures read { IfErr result (λ halt. is_read halt ≡ false) }
{
    let found = ends(alloc, &asked.race, options.limit as usize)?;
    let text = text_of_ends(alloc, options, asked, found.as_slice());
    drop(found);
    text
}

/// The same, given the ends.
fn text_of_ends(
    alloc: Global,
    options: OutcomesWords,
    asked: &AskedRace,
    found: &[End],
) -> Result<Vec<u8>, Halt>
    ensures chosen { IfOk result (λ text. IsChosen options options.choice asked.now found.now text.items) }
    ensures refused { IfErr result (λ halt. IfSome (name_of halt) (IsChosenRefusal options.choice asked.now found.now)) }
    ensures read { IfErr result (λ halt. is_read halt ≡ false) }
{
    match options.choice {
        None => lines_of_all(alloc, options, asked, found),
        Some(number) => script_of_number(alloc, options, number, asked, found),
    }
}

/// The script that shows the end of that number, from 1.
fn script_of_number(
    alloc: Global,
    options: OutcomesWords,
    number: u64,
    asked: &AskedRace,
    found: &[End],
) -> Result<Vec<u8>, Halt>
    ensures chosen { IfOk result (λ text. IsChosen options (Some number) asked.now found.now text.items) }
    ensures refused { IfErr result (λ halt. IfSome (name_of halt) (IsChosenRefusal (Some number) asked.now found.now)) }
    ensures read { IfErr result (λ halt. is_read halt ≡ false) }
{
    let question = question_of(options.final_stores, options.both);
    match end_of_number(number, found) {
        Some(end) => Ok(script_text(alloc, question, asked, end)?),
        None => Err(Halt::Refused("NoSuchOutcome")),
    }
}

fn end_of_number(number: u64, found: &[End]) -> Option<&End>
    ensures { option_copied result ≡ end_of number found.now }
{
    found.get(number.checked_sub(1)? as usize)
}

/// The lines of all ends.
fn lines_of_all(
    alloc: Global,
    options: OutcomesWords,
    asked: &AskedRace,
    found: &[End],
) -> Result<Vec<u8>, Halt>
    ensures told { IfOk result (λ text. text.items ≡ all_lines options asked.now found.now) }
    ensures refused { IfErr result (λ halt. IfSome (name_of halt)
        (λ name. IsBadCapacity asked.now.race.capacity × (name ≡ codes "BadCapacity"))) }
    ensures read { IfErr result (λ halt. is_read halt ≡ false) }
{
    let question = question_of(options.final_stores, options.both);
    if options.brief {
        let race = &asked.race;
        let begun = objects_begun(alloc, race.capacity, race.beginning.as_slice())?;
        Ok(ends_brief_text(alloc, question, asked, begun.as_slice(), found)?)
    } else {
        Ok(ends_text(alloc, question, asked, found)?)
    }
}
