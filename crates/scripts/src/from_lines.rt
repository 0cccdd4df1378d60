// Scripts of any kind, line by line.
ghost use Rattle.plain.specs.Lines.{lines};
ghost use Rattle.scripts.specs.Events.{Reads};
ghost use Rattle.scripts.specs.Scripts.{each_of, line_by, script_by};

use crate::fault::ScriptError;
use crate::line::read_members;
use objects::{Members, TreeReader};
use plain::split_line;
use std::alloc::Global;

/// A script of objects, a line each: the first is its header, and each other one an event.
pub(crate) trait FromLines: Drop {
    ghost use Rattle.std.specs.Prelude.{Option};
    ghost use Rattle.serde_json.specs.Data.{Members};
    ghost use Rattle.scripts.specs.Events.{Reads};

    type Header: Drop;

    type Event: Drop;

    /// A header as definitions have it.
    ghost Parts: { Type 0 };

    ghost parts: { Self.Header → Parts };
    /// The header that these members give, if any.
    ghost header: { Members → Option Parts };
    /// The event that these members give, if any.
    ghost event: { Members → Option Self.Event };

    fn header_in(alloc: Global, members: &Members) -> Result<Self::Header, ScriptError>
        ensures { Reads parts result (header members.now) };

    fn event_in(alloc: Global, members: Members) -> Result<Self::Event, ScriptError>
        ensures { Reads (λ event. event) result (event members) };
}

/// The header and the events in the lines of a text.
///
/// # Errors
///
/// `BadScript` if a line is none, or if there is no line.
#[tactic(auto, using(crate::proofs::Readings::fails_bind))]
pub(crate) fn read_lines<S: FromLines>(
    alloc: Global,
    text: &[u8],
) -> Result<(S::Header, Vec<S::Event>), ScriptError>
    ensures { Reads (λ script. (S.parts script.0, script.1.items)) result (script_by (line_by S.header) (line_by S.event) (lines text.now)) }
{
    let Some(cut) = split_line(text) else {
        return Err(ScriptError::BadScript);
    };
    let (first, rest) = cut;
    let mut reader = TreeReader::new(alloc);
    let header = read_header::<S>(alloc, &mut reader, first)?;
    let events = read_events::<S>(alloc, &mut reader, rest)?;
    Ok((header, events))
}

#[tactic(auto, using(crate::proofs::Readings::fails_bind))]
fn read_events<S: FromLines>(
    alloc: Global,
    reader: &mut TreeReader,
    text: &[u8],
) -> Result<Vec<S::Event>, ScriptError>
    ensures { Reads (λ events. events.items) result (each_of (line_by S.event) (lines text.now)) }
{
    let mut events = Vec::new(alloc);
    let mut rest = text;
    'lines: while let Some(cut) = split_line(rest) {
        let (line, after) = cut;
        let event = read_event::<S>(alloc, reader, line)?;
        events.push(event)?;
        rest = after;
    }
    Ok(events)
}

#[tactic(auto, using(crate::proofs::Readings::fails_bind))]
pub(crate) fn read_header<S: FromLines>(
    alloc: Global,
    reader: &mut TreeReader,
    line: &[u8],
) -> Result<S::Header, ScriptError>
    ensures { Reads S.parts result (line_by S.header line.now) }
{
    let members = read_members(reader, line)?;
    S::header_in(alloc, &members)
}

#[tactic(auto, using(crate::proofs::Readings::fails_bind))]
pub(crate) fn read_event<S: FromLines>(
    alloc: Global,
    reader: &mut TreeReader,
    line: &[u8],
) -> Result<S::Event, ScriptError>
    ensures { Reads (λ event. event) result (line_by S.event line.now) }
{
    let members = read_members(reader, line)?;
    S::event_in(alloc, members)
}
