//! What a picture shows of a run.
ghost use Rattle.std.specs.Prelude.{◌≡◌};
ghost use Rattle.pictures.specs.Shown.{answers_write, is_of_write, is_reply_to_write, refuses_write, shows};

use history::CallerPhase;
use interleavings::Event;
use requests::{Reason, Reply};

/// What a picture shows of a run.
#[derive(Clone, Copy, Drop)]
pub enum Shown {
    /// Each event that is enabled.
    All,
    /// The steps of creates, updates, status requests and deletes, and crashes: no get, no list and no compaction.
    Writes,
}

/// Whether the lines of the event are shown, by its caller's state before it and by the reply that it gives.
pub(crate) fn shows(
    shown: Shown,
    event: &Event,
    before: CallerPhase,
    delivered: &Option<Reply>,
) -> bool
    ensures { result ≡ shows shown event.now before delivered.now }
{
    match shown {
        Shown::All => true,
        Shown::Writes => is_of_write(event, before, delivered),
    }
}

fn is_of_write(event: &Event, before: CallerPhase, delivered: &Option<Reply>) -> bool
    ensures { result ≡ is_of_write event.now before delivered.now }
{
    match event {
        Event::Call(_, request) => request.is_write(),
        Event::Check(_) | Event::Reserve(_) | Event::Publish(_) | Event::Raise | Event::Crash(_) =>
            true,
        Event::Read(_) | Event::ReadAt(_) | Event::Compact(_) | Event::Part(_) => false,
        Event::Reply(_) => is_reply_to_write(before, delivered),
    }
}

fn is_reply_to_write(before: CallerPhase, delivered: &Option<Reply>) -> bool
    ensures { result ≡ is_reply_to_write before delivered.now }
{
    match (before, delivered) {
        (CallerPhase::Waiting { saw: _ }, Some(reply)) => answers_write(reply),
        _ => false,
    }
}

fn answers_write(reply: &Reply) -> bool
    ensures { result ≡ answers_write reply.now }
{
    match reply {
        Reply::Created(_)
        | Reply::Updated(_)
        | Reply::Unchanged(_)
        | Reply::Marked(_)
        | Reply::Removed(_) => true,
        Reply::Found(_)
        | Reply::Listed {
            objects: _,
            revision: _,
        }
        | Reply::Compacted { revision: _ } => false,
        Reply::Refused(reason) => refuses_write(*reason),
    }
}

fn refuses_write(reason: Reason) -> bool
    ensures { result ≡ refuses_write reason }
{
    match reason {
        Reason::NotFound
        | Reason::AlreadyExists
        | Reason::Conflict
        | Reason::Invalid
        | Reason::StoreFull => true,
        Reason::Expired | Reason::TooLarge => false,
    }
}
