ghost use Rattle.std.specs.Prelude.{◌≡◌, List};
ghost use Rattle.history.specs.After.{IsAfter};
ghost use Rattle.interleavings.specs.declared.event.Event.{Event};
ghost use Rattle.interleavings.specs.Trace.{after};
ghost use Rattle.interleavings.specs.World.{Size, opening};
ghost use Rattle.pictures.specs.Picture.{snapshot_of};

use history::{CallerPhase, Replay};

/// What lines show of a run between two events.
#[derive(Clone, Copy)]
pub(crate) struct Snapshot {
    /// The state of the event's caller. If it has none, idle.
    pub standing: CallerPhase,
    /// Whether the next number after the frontier is filled.
    pub can_rise: bool,
    pub frontier: u64,
}

pub(crate) fn take_snapshot(replay: &Replay, caller: Option<u64>) -> Snapshot
    ensures { (size : Size) (events : List Event) → IsAfter size events replay.now → result ≡ snapshot_of size (after size opening events) caller }
{
    let standing = match caller {
        Some(caller) => replay.caller_phase(caller),
        None => CallerPhase::Idle,
    };
    Snapshot {
        standing,
        can_rise: replay.can_rise(),
        frontier: replay.frontier(),
    }
}
