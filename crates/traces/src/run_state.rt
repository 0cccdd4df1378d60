ghost use Rattle.std.specs.Prelude.{◌≡◌, List, Some, is_none};
ghost use Rattle.history.specs.After.{IsAfter};
ghost use Rattle.history.specs.NextStep.{next_step};
ghost use Rattle.interleavings.specs.declared.event.Event.{Event};
ghost use Rattle.interleavings.specs.Trace.{after};
ghost use Rattle.interleavings.specs.World.{Size, opening};
ghost use Rattle.pictures.specs.Picture.{caller_phase_by};
ghost use Rattle.traces.specs.Enabled.{is_held, run_state_of};

use history::{CallerPhase, FirstStep, Replay};
use interleavings::Event;

/// What a line shows of a run between two events.
#[derive(Clone, Copy)]
pub(crate) struct RunState {
    /// The state of the event's caller. If it has none, idle.
    pub standing: CallerPhase,
    /// Whether the caller has called a write and the shard of its key is held.
    pub is_held: bool,
    /// Whether the next number after the frontier is filled.
    pub can_rise: bool,
    pub frontier: u64,
}

pub(crate) fn take_run_state(replay: &Replay, caller: Option<u64>) -> RunState
    ensures { (size : Size) (events : List Event) → IsAfter size events replay.now → result ≡ run_state_of size (after size opening events) caller }
{
    let standing = caller_phase_by(replay, caller);
    RunState {
        standing,
        is_held: is_held(replay, caller, standing),
        can_rise: replay.can_rise(),
        frontier: replay.frontier(),
    }
}

fn caller_phase_by(replay: &Replay, caller: Option<u64>) -> CallerPhase
    ensures { (size : Size) (events : List Event) → IsAfter size events replay.now → result ≡ caller_phase_by size (after size opening events) caller }
{
    match caller {
        Some(caller) => replay.caller_phase(caller),
        None => CallerPhase::Idle,
    }
}

/// Whether the caller, in this state, has called a write and the shard of its key is held.
fn is_held(replay: &Replay, caller: Option<u64>, standing: CallerPhase) -> bool
    ensures { (size : Size) (events : List Event) → IsAfter size events replay.now
        → standing ≡ caller_phase_by size (after size opening events) caller → result ≡ is_held (after size opening events) standing }
{
    match caller {
        Some(caller) => waits_for_shard(replay, caller, standing),
        None => false,
    }
}

fn waits_for_shard(replay: &Replay, caller: u64, standing: CallerPhase) -> bool
    ensures { (size : Size) (events : List Event) → IsAfter size events replay.now
        → standing ≡ caller_phase_by size (after size opening events) (Some caller) → result ≡ is_held (after size opening events) standing }
{
    match standing {
        // A write that is to be checked has a next step exactly if its shard is not held.
        CallerPhase::Called(FirstStep::Write { shard: _ }) => has_to_wait(replay, caller),
        _ => false,
    }
}

/// Whether no step helps the caller while no other caller moves.
fn has_to_wait(replay: &Replay, caller: u64) -> bool
    ensures { (size : Size) (events : List Event) → IsAfter size events replay.now → result ≡ is_none (next_step size (after size opening events) caller) }
{
    let step = replay.next_step(caller);
    let waits = step.is_none();
    drop(step);
    waits
}
