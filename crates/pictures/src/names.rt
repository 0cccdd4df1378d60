//! Who takes part in a picture.
ghost use Rattle.std.specs.Prelude.{◌≡◌, OnOk};
ghost use Rattle.history.specs.Named.{with_named};
ghost use Rattle.pictures.specs.Shown.{participant, writer_by, writer_of};

use crate::shown::Shown;
use history::CallerPhase;
use interleavings::Event;
use requests::Request;
use std::alloc::AllocError;
use std::collections::BTreeSet;

/// The caller that takes part by the event, if any, by its state before it.
pub(crate) fn participant(shown: Shown, event: &Event, before: CallerPhase) -> Option<u64>
    ensures { result ≡ participant shown event.now before }
{
    match shown {
        Shown::All => event.caller(),
        Shown::Writes => writer_by(event, before),
    }
}

/// The caller, if the event is a call of a write or a crash.
fn writer_by(event: &Event, before: CallerPhase) -> Option<u64>
    ensures { result ≡ writer_by event.now before }
{
    match event {
        Event::Call(caller, request) => writer_of(*caller, request, before),
        Event::Crash(caller) => Some(*caller),
        _ => None,
    }
}

/// The caller, if it can call, and calls a write.
fn writer_of(caller: u64, request: &Request, before: CallerPhase) -> Option<u64>
    ensures { result ≡ writer_of caller request.now before }
{
    match before {
        CallerPhase::Idle if request.is_write() => Some(caller),
        _ => None,
    }
}

/// Adds the caller, if there is one and it is not among them.
pub fn note_caller(callers: &mut BTreeSet<u64>, caller: Option<u64>) -> Result<(), AllocError>
    ensures { OnOk result (callers.new.keys ≡ with_named callers.old.keys caller) }
{
    let Some(caller) = caller else {
        return Ok(());
    };
    if !callers.contains(&caller) {
        callers.insert(caller)?;
    }
    Ok(())
}
