// The events of scripts that have no request.
ghost use Rattle.std.specs.Prelude.{◌≡◌};
ghost use Rattle.scripts.specs.Events.{event_at, step_in, step_named};

use crate::line::count_in;
use history::Event;
use objects::Members;

/// A step of one caller that has no request.
#[derive(Clone, Copy)]
enum CallerStep {
    Check,
    Reserve,
    Publish,
    Read,
    ReadAt,
    Compact,
    Part,
    Reply,
    Crash,
}

impl CallerStep {
    fn named(name: &str) -> Option<CallerStep>
        ensures { result ≡ step_named name.now }
    {
        if name == "check" {
            Some(CallerStep::Check)
        } else if name == "reserve" {
            Some(CallerStep::Reserve)
        } else if name == "publish" {
            Some(CallerStep::Publish)
        } else if name == "read" {
            Some(CallerStep::Read)
        } else if name == "readat" {
            Some(CallerStep::ReadAt)
        } else if name == "compact" {
            Some(CallerStep::Compact)
        } else if name == "part" {
            Some(CallerStep::Part)
        } else if name == "reply" {
            Some(CallerStep::Reply)
        } else if name == "crash" {
            Some(CallerStep::Crash)
        } else {
            None
        }
    }

    /// The event in which the caller makes the step.
    fn by(self, caller: u64) -> Event
        ensures { result ≡ event_at self caller }
    {
        match self {
            CallerStep::Check => Event::Check(caller),
            CallerStep::Reserve => Event::Reserve(caller),
            CallerStep::Publish => Event::Publish(caller),
            CallerStep::Read => Event::Read(caller),
            CallerStep::ReadAt => Event::ReadAt(caller),
            CallerStep::Compact => Event::Compact(caller),
            CallerStep::Part => Event::Part(caller),
            CallerStep::Reply => Event::Reply(caller),
            CallerStep::Crash => Event::Crash(caller),
        }
    }
}

/// The event of this name without a request: `raise`, or a step (`check`, `reserve`, `publish`, `read`, `readat`,
/// `compact`, `part`, `reply` or `crash`) of the caller in the member `caller`.
pub(crate) fn step_in(word: &str, members: &Members) -> Option<Event>
    ensures { result ≡ step_in word.now members.now }
{
    if word == "raise" {
        return Some(Event::Raise);
    }
    let step = CallerStep::named(word)?;
    Some(step.by(count_in(members, "caller")?))
}
