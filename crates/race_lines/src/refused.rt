// The first line for which a text has no race.
ghost use Rattle.std.specs.Prelude.{◌≡◌, IfOk, None, is_some, true};
ghost use Rattle.plain.specs.Lines.{lines};
ghost use Rattle.race_lines.specs.RaceTexts.{race_of, race_parts};
ghost use Rattle.race_lines.specs.RefusedLines.{next_parts, refused_from, refused_line_of};
ghost use Rattle.scripts.specs.Events.{Reads};

use crate::line::read_line;
use crate::putting::put_line;
use crate::race::WrittenRace;
use crate::reading::read_opening;
use objects::{Memory, TreeReader};
use plain::split_line;
use scripts::ScriptError;
use std::alloc::Global;

/// The number of the first line, from 1, for which a text has no race; none if it has one.
pub fn refused_line(alloc: Global, text: &[u8]) -> Result<Option<u64>, Memory>
    ensures line { IfOk result (λ line. line ≡ refused_line_of text.now) }
    ensures some { IfOk result (λ line. race_of text.now ≡ None → is_some line ≡ true) }
{
    line_to_blame(alloc, text)
}

fn line_to_blame(alloc: Global, text: &[u8]) -> Result<Option<u64>, Memory>
    ensures { IfOk result (λ line. line ≡ refused_line_of text.now) }
{
    let Some(cut) = split_line(text) else {
        return Ok(Some(1));
    };
    let (first, rest) = cut;
    let mut reader = TreeReader::new(alloc);
    match read_opening(alloc, &mut reader, first) {
        Ok(opened) => refused_in(alloc, &mut reader, rest, opened),
        Err(ScriptError::BadScript) => Ok(Some(1)),
        Err(ScriptError::Memory) => Err(Memory),
    }
}

fn refused_in(
    alloc: Global,
    reader: &mut TreeReader,
    text: &[u8],
    opened: WrittenRace,
) -> Result<Option<u64>, Memory>
    ensures { IfOk result (λ line. line ≡ refused_from (race_parts opened) 0 (lines text.now)) }
{
    let mut race = opened;
    let mut number = 0;
    let mut rest = text;
    'lines: while let Some(cut) = split_line(rest) {
        let (line, after) = cut;
        match put_next(alloc, reader, &mut race, number, line) {
            Ok(()) => {}
            Err(ScriptError::BadScript) => return Ok(Some(number as u64 + 2)),
            Err(ScriptError::Memory) => return Err(Memory),
        }
        number += 1;
        rest = after;
    }
    drop(race);
    Ok(None)
}

/// One more line.
#[tactic(auto, using(scripts::proofs::Readings::fails_bind))]
fn put_next(
    alloc: Global,
    reader: &mut TreeReader,
    race: &mut WrittenRace,
    number: usize,
    line: &[u8],
) -> Result<(), ScriptError>
    ensures { Reads (λ done. race_parts race.new) result (next_parts (race_parts race.old) number line.now) }
{
    let said = read_line(alloc, reader, line)?;
    put_line(alloc, race, number, said)
}
