//! Which events are enabled, by the run_state before them.
ghost use Rattle.std.specs.Prelude.{◌≡◌};
ghost use Rattle.traces.specs.Enabled.{asks_compaction, asks_read, asks_read_at, has_drawn, has_parts_left, is_enabled, is_gone, is_holding, is_idle, may_check, may_reply};

use crate::run_state::RunState;
use history::{CallerPhase, FirstStep};
use interleavings::Event;

/// Whether an event is enabled, by the run_state before it.
pub(crate) fn is_enabled(event: &Event, before: RunState) -> bool
    ensures { result ≡ is_enabled event.now before }
{
    match event {
        Event::Call(_, _) => is_idle(before.standing),
        Event::Check(_) => may_check(before.standing, before.is_held),
        Event::Reserve(_) => is_holding(before.standing),
        Event::Publish(_) => has_drawn(before.standing),
        Event::Raise => before.can_rise,
        Event::Read(_) => asks_read(before.standing),
        Event::ReadAt(_) => asks_read_at(before.standing),
        Event::Compact(_) => asks_compaction(before.standing),
        Event::Part(_) => has_parts_left(before.standing),
        Event::Reply(_) => may_reply(before.standing, before.frontier),
        Event::Crash(_) => !is_gone(before.standing),
    }
}

fn is_idle(standing: CallerPhase) -> bool
    ensures { result ≡ is_idle standing }
{
    matches!(standing, CallerPhase::Idle)
}

fn may_check(standing: CallerPhase, is_held: bool) -> bool
    ensures { result ≡ may_check standing is_held }
{
    match standing {
        CallerPhase::Called(FirstStep::Write { shard: _ }) => !is_held,
        _ => false,
    }
}

fn asks_read(standing: CallerPhase) -> bool
    ensures { result ≡ asks_read standing }
{
    matches!(standing, CallerPhase::Called(FirstStep::Read))
}

fn asks_read_at(standing: CallerPhase) -> bool
    ensures { result ≡ asks_read_at standing }
{
    matches!(standing, CallerPhase::Called(FirstStep::ReadAt))
}

fn asks_compaction(standing: CallerPhase) -> bool
    ensures { result ≡ asks_compaction standing }
{
    matches!(standing, CallerPhase::Called(FirstStep::Compaction))
}

fn is_holding(standing: CallerPhase) -> bool
    ensures { result ≡ is_holding standing }
{
    matches!(standing, CallerPhase::Holding { shard: _ })
}

fn has_drawn(standing: CallerPhase) -> bool
    ensures { result ≡ has_drawn standing }
{
    match standing {
        CallerPhase::Drawn {
            number: _,
            shard: _,
        }
        | CallerPhase::Left {
            number: _,
            shard: _,
        } => true,
        _ => false,
    }
}

fn has_parts_left(standing: CallerPhase) -> bool
    ensures { result ≡ has_parts_left standing }
{
    match standing {
        CallerPhase::Reading {
            number: _,
            shard: _,
            left,
        } => left != 0,
        _ => false,
    }
}

fn may_reply(standing: CallerPhase, frontier: u64) -> bool
    ensures { result ≡ may_reply standing frontier }
{
    match standing {
        CallerPhase::Waiting { saw } => saw <= frontier,
        CallerPhase::Reading {
            number: _,
            shard: _,
            left,
        } => left == 0,
        _ => false,
    }
}

fn is_gone(standing: CallerPhase) -> bool
    ensures { result ≡ is_gone standing }
{
    match standing {
        CallerPhase::Gone
        | CallerPhase::Left {
            number: _,
            shard: _,
        } => true,
        _ => false,
    }
}
