ghost use Rattle.std.specs.Prelude.{◌≡◌, IfOk, length};
ghost use Rattle.plain.specs.Lines.{lines};
ghost use Rattle.race_lines.specs.RaceTexts.{EachCrashesLast, opened, race_of, race_parts, with_lines};
ghost use Rattle.scripts.specs.Events.{Reads};

use crate::line::read_line;
use crate::putting::put_line;
use crate::race::WrittenRace;
use objects::TreeReader;
use plain::split_line;
use scripts::{ScriptError, count_in, read_members};
use std::alloc::Global;

/// Who races for a store, in a text. Its first line is `{"capacity":C}`. Then come lines `{"request":L}`, requests
/// that are handled in turn before the race, L as a request line of `serve`; and then those who race, at most 64:
///
/// - `{"caller":N,"request":L}` is the next request of caller N, which sends at most 256. With `"crash":true` it
///   crashes within the request, which is its last one.
/// - `{"caller":N,"ask":A}` is the same, with A a request line, or `{"do":D,"last":P}`: D is `get`, `update`, `status`
///   or `delete`, which may have a text `at`, and P a JSON merge patch (RFC 7396) of the object that the caller was
///   last told. P names neither `kind` nor `apiVersion`, and of `metadata` only `annotations`, `labels`,
///   `ownerReferences`, `resourceVersion` and `uid`. With `"if":W` it is sent only if the caller's last reply was the
///   result or the reason W.
/// - `{"controller":S,"rounds":R}` is a controller of the set S, as in a script of `stsctl cluster`, which makes R
///   rounds, at most 1,024. With `"crash":true` it may crash once.
/// - `{"kubelet":{"namespace":NS},"turns":T}` is a kubelet of the namespace NS, a DNS label and by default `default`,
///   which takes T turns, at most 1,024. With `"crash":true` it may crash once.
///
/// Other members are ignored, but on a line with `ask` and beside `last` none may stand, nor a `request` beside
/// `controller`. A line with `kubelet` and `request` is read as if it had no `kubelet`. Of members with the same name
/// the last counts. C and N are whole numbers below 2^64; neither is bounded here.
///
/// # Errors
///
/// `BadScript` if a line is none of these, also if it is cut off or empty, or of a caller that crashed on an earlier
/// one, or if there is no line.
#[tactic(auto, using(scripts::proofs::Readings::fails_bind), unfolding(crate::specs::RaceTexts::race_of))]
pub fn read_written_race(alloc: Global, text: &[u8]) -> Result<WrittenRace, ScriptError>
    ensures read { Reads race_parts result (race_of text.now) }
    ensures callers { IfOk result (λ race. length race.callers.items ≡ length race.participants.items) }
    ensures lines { IfOk result (λ race. length race.lines.items ≡ length race.participants.items) }
    ensures last { IfOk result (λ race. EachCrashesLast race.participants.items) }
{
    let Some(cut) = split_line(text) else {
        return Err(ScriptError::BadScript);
    };
    let (first, rest) = cut;
    let mut reader = TreeReader::new(alloc);
    let opened = read_opening(alloc, &mut reader, first)?;
    read_lines(alloc, &mut reader, rest, opened)
}

/// The race of the first line alone.
#[tactic(auto, using(scripts::proofs::Readings::fails_bind))]
pub(crate) fn read_opening(
    alloc: Global,
    reader: &mut TreeReader,
    line: &[u8],
) -> Result<WrittenRace, ScriptError>
    ensures { Reads race_parts result (opened line.now) }
{
    let members = read_members(reader, line)?;
    let Some(capacity) = count_in(&members, "capacity") else {
        return Err(ScriptError::BadScript);
    };
    Ok(WrittenRace {
        capacity,
        beginning: Vec::new(alloc),
        participants: Vec::new(alloc),
        callers: Vec::new(alloc),
        lines: Vec::new(alloc),
        sent: Vec::new(alloc),
        read: 0,
    })
}

/// The race with the lines of the text.
#[tactic(auto, using(scripts::proofs::Readings::fails_bind))]
fn read_lines(
    alloc: Global,
    reader: &mut TreeReader,
    text: &[u8],
    opened: WrittenRace,
) -> Result<WrittenRace, ScriptError>
    ensures { Reads race_parts result (with_lines (race_parts opened) 0 (lines text.now)) }
{
    let mut race = opened;
    let mut number = 0;
    let mut rest = text;
    'lines: while let Some(cut) = split_line(rest) {
        let (line, after) = cut;
        let said = read_line(alloc, reader, line)?;
        put_line(alloc, &mut race, number, said)?;
        number += 1;
        rest = after;
    }
    race.read = number;
    Ok(race)
}
