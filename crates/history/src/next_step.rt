// The step that a caller makes next.
ghost use Rattle.std.specs.Prelude.{◌≡◌, List, None, get_or, is_some};
ghost use Rattle.history.specs.After.{IsAfter};
ghost use Rattle.history.specs.NextStep.{can_rise, goes_on, next_step, step_in_wait};
ghost use Rattle.interleavings.specs.declared.event.Event.{Event};
ghost use Rattle.interleavings.specs.Trace.{after};
ghost use Rattle.interleavings.specs.World.{Size, opening};

use crate::caller_phase::{CallerPhase, FirstStep};
use crate::machine::Machine;
use crate::replaying::Replay;
use interleavings::Event;

impl Machine {
    fn has_holder(&self, shard: usize) -> bool
        ensures { result ≡ is_some (get_or self.now.holders.items shard None) }
    {
        matches!(self.holders.get(shard), Some(Some(_)))
    }

    /// Whether the number after the frontier is filled.
    fn can_rise(&self) -> bool
        ensures { result ≡ is_some (get_or self.now.places.items self.now.frontier None) }
    {
        matches!(self.places.get(self.frontier as usize), Some(Some(_)))
    }

    /// The step of a caller that waits for the frontier to reach what it saw.
    fn step_in_wait(&self, caller: u64, saw: u64) -> Option<Event>
        ensures { result ≡ step_in_wait self.now.frontier (is_some (get_or self.now.places.items self.now.frontier None)) caller saw }
    {
        if saw <= self.frontier {
            Some(Event::Reply(caller))
        } else if self.can_rise() {
            Some(Event::Raise)
        } else {
            None
        }
    }

    /// The step of a caller in that phase.
    fn goes_on(&self, caller: u64, caller_phase: CallerPhase) -> Option<Event>
        ensures { result ≡ goes_on (λ s. is_some (get_or self.now.holders.items s None)) self.now.frontier
            (is_some (get_or self.now.places.items self.now.frontier None)) caller caller_phase }
    {
        match caller_phase {
            CallerPhase::Called(FirstStep::Write { shard }) => {
                if self.has_holder(shard) {
                    return None;
                }
                Some(Event::Check(caller))
            }
            CallerPhase::Called(FirstStep::Read) => Some(Event::Read(caller)),
            CallerPhase::Called(FirstStep::ReadAt) => Some(Event::ReadAt(caller)),
            CallerPhase::Called(FirstStep::Compaction) => Some(Event::Compact(caller)),
            CallerPhase::Holding { shard: _ } => Some(Event::Reserve(caller)),
            CallerPhase::Drawn {
                number: _,
                shard: _,
            } => Some(Event::Publish(caller)),
            CallerPhase::Waiting { saw } => self.step_in_wait(caller, saw),
            CallerPhase::Reading {
                number: _,
                shard: _,
                left,
            } => {
                if left == 0 {
                    return Some(Event::Reply(caller));
                }
                Some(Event::Part(caller))
            }
            CallerPhase::Idle
            | CallerPhase::Gone
            | CallerPhase::Left {
                number: _,
                shard: _,
            } => None,
        }
    }
}

impl Replay {
    /// Whether a `Raise` is enabled: the number after the frontier is filled.
    pub fn can_rise(&self) -> bool
        ensures { (size : Size) (events : List Event) → IsAfter size events self.now → result ≡ can_rise (after size opening events) }
    {
        self.machine.can_rise()
    }

    /// The step that brings the caller closer to its reply while no other caller makes one: one of its own, or a
    /// `Raise` if it waits for the frontier. There is none for a caller that is idle or has crashed, nor for one that
    /// has to wait for others: for the shard of its key, or for a number below what it saw to be filled.
    pub fn next_step(&self, caller: u64) -> Option<Event>
        ensures { (size : Size) (events : List Event) → IsAfter size events self.now → result ≡ next_step size (after size opening events) caller }
    {
        self.machine
            .goes_on(caller, self.machine.caller_phase(caller))
    }
}
