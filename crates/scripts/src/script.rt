ghost use Rattle.scripts.specs.Events.{Reads};
ghost use Rattle.scripts.specs.Scripts.{parts_of, script_of};

use crate::event::event_in;
use crate::fault::ScriptError;
use crate::from_lines::{FromLines, read_lines};
use crate::header::{Header, header_in};
use history::Event;
use objects::Members;
use std::alloc::Global;

/// A run that is to be replayed: how many revisions the store may allocate, how many shards it has, and the events,
/// first to last. Neither number is bounded here.
#[derive(Drop)]
pub struct Script {
    pub capacity: u64,
    pub shards: u64,
    pub events: Vec<Event>,
}

/// The script in a text. Its first line is `{"capacity":C,"shards":S}`, and each other line is an event:
/// `{"caller":N,"event":"call","request":L}` with L as a request line of `serve`; `{"caller":N,"event":E}` with E one
/// of `check`, `reserve`, `publish`, `read`, `readat`, `compact`, `part`, `reply` and `crash`; or `{"event":"raise"}`.
/// Other members are ignored, and of members with the same name the last counts. C, S and N are whole numbers below
/// 2^64.
///
/// # Errors
///
/// `BadScript` if a line is none of these, also if it is cut off or empty, or if there is no line.
#[tactic(auto, unfolding(crate::specs::Events::event_of, crate::specs::Scripts::script_of))]
pub fn read_script(alloc: Global, text: &[u8]) -> Result<Script, ScriptError>
    ensures { Reads parts_of result (script_of text.now) }
{
    let (header, events) = read_lines::<Script>(alloc, text)?;
    Ok(Script {
        capacity: header.capacity,
        shards: header.shards,
        events,
    })
}

impl FromLines for Script {
    ghost use Rattle.interleavings.specs.World.{Size};
    ghost use Rattle.scripts.specs.Events.{event_in};
    ghost use Rattle.scripts.specs.Scripts.{size_in, size_of};

    type Header = Header;

    type Event = Event;

    ghost Parts = { Size };

    ghost parts = { size_of };

    ghost header = { size_in };

    ghost event = { event_in };

    fn header_in(_alloc: Global, members: &Members) -> Result<Header, ScriptError> {
        header_in(members)
    }

    fn event_in(alloc: Global, members: Members) -> Result<Event, ScriptError> {
        event_in(alloc, members)
    }
}
