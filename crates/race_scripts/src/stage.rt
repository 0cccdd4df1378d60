// The events of a run in which requests of callers are brought to their replies, one after another.
use crate::fault::ScriptingError;
use crate::play::{Play, Sending};
use explorer::Move;
use history::{CallerPhase, Event, Replay};
use plain::Request;
use std::alloc::Global;

/// No request needs so many steps over one shard.
const MOST_STEPS: u32 = 16;

/// A run with so many events is given up.
const MOST_EVENTS: u64 = 1_000_000_000;

/// A run over one shard, and its events.
#[derive(Drop)]
struct Stage {
    replay: Replay,
    events: Vec<Event>,
}

/// The lowest caller that no participant is.
pub(crate) fn unused_caller(callers: &[Option<u64>]) -> u64 {
    let mut caller: u64 = 0;
    for _ in 0..callers.len() {
        if callers.contains(&Some(caller)) {
            caller = caller.saturating_add(1);
        }
    }
    caller
}

/// The events of a run over one shard in which the beginner sends the beginning, and then the callers send their
/// requests in that order: each request is brought to its reply before the next one is called. A caller that crashes
/// does so once its request is in effect or, if the order leaves it out, right after its call.
pub(crate) fn staged(
    alloc: Global,
    capacity: u64,
    beginner: u64,
    beginning: &[Request],
    callers: &[Option<u64>],
    order: &[Move],
    play: &Play,
) -> Result<Vec<Event>, ScriptingError> {
    let mut stage = Stage {
        replay: Replay::new(alloc, 1, capacity)?,
        events: Vec::new(alloc),
    };
    let played = stage.play(beginner, beginning, callers, order, play);
    let Stage { replay, events } = stage;
    drop(replay);
    match played {
        Ok(()) => Ok(events),
        Err(error) => {
            drop(events);
            Err(error)
        }
    }
}

impl Stage {
    fn play(
        &mut self,
        beginner: u64,
        beginning: &[Request],
        callers: &[Option<u64>],
        order: &[Move],
        play: &Play,
    ) -> Result<(), ScriptingError> {
        self.begin(beginner, beginning)?;
        self.run(callers, order, play.sent.as_slice())?;
        self.end(callers, play.left_out.as_slice())
    }

    fn begin(&mut self, beginner: u64, beginning: &[Request]) -> Result<(), ScriptingError> {
        for request in beginning {
            self.call(beginner, request)?;
            self.carry(beginner)?;
        }
        Ok(())
    }

    fn run(
        &mut self,
        callers: &[Option<u64>],
        order: &[Move],
        sent: &[Option<Sending>],
    ) -> Result<(), ScriptingError> {
        for index in 0..order.len() {
            let Move::Ask(number) = order[index] else {
                return Err(ScriptingError::NoScript);
            };
            let Some(Some(caller)) = callers.get(number) else {
                return Err(ScriptingError::NoScript);
            };
            let Some(Some(sending)) = sent.get(index) else {
                return Err(ScriptingError::NoScript);
            };
            self.send(*caller, sending)?;
        }
        Ok(())
    }

    fn send(&mut self, caller: u64, sending: &Sending) -> Result<(), ScriptingError> {
        self.call(caller, &sending.request)?;
        if sending.crashes {
            self.carry_to_crash(caller)
        } else {
            self.carry(caller)
        }
    }

    fn end(
        &mut self,
        callers: &[Option<u64>],
        left_out: &[Option<Request>],
    ) -> Result<(), ScriptingError> {
        for number in 0..callers.len() {
            if let Some(caller) = callers[number]
                && let Some(Some(request)) = left_out.get(number)
            {
                self.call(caller, request)?;
                self.apply_event(Event::Crash(caller))?;
            }
        }
        Ok(())
    }

    fn call(&mut self, caller: u64, request: &Request) -> Result<(), ScriptingError> {
        self.apply_event(Event::Call(caller, request.clone()?))
    }

    fn apply_event(&mut self, event: Event) -> Result<(), ScriptingError> {
        match self.step(&event) {
            Ok(()) => Ok(self.events.push(event)?),
            Err(error) => {
                drop(event);
                Err(error)
            }
        }
    }

    /// Applies the event, unless there were too many.
    fn step(&mut self, event: &Event) -> Result<(), ScriptingError> {
        if MOST_EVENTS <= self.replay.events() {
            return Err(ScriptingError::NoScript);
        }
        drop(self.replay.step(event)?);
        Ok(())
    }

    /// Brings the caller's request to its reply.
    fn carry(&mut self, caller: u64) -> Result<(), ScriptingError> {
        for _ in 0..MOST_STEPS {
            let Some(event) = self.replay.next_step(caller) else {
                return Ok(());
            };
            self.apply_event(event)?;
        }
        Ok(())
    }

    /// Brings the caller's request into effect, and lets the caller crash. A number that it left is published.
    fn carry_to_crash(&mut self, caller: u64) -> Result<(), ScriptingError> {
        for _ in 0..MOST_STEPS {
            if is_taken(self.replay.caller_phase(caller)) {
                break;
            }
            let Some(event) = self.replay.next_step(caller) else {
                break;
            };
            self.apply_event(event)?;
        }
        self.apply_event(Event::Crash(caller))?;
        if let CallerPhase::Left {
            number: _,
            shard: _,
        } = self.replay.caller_phase(caller)
        {
            self.apply_event(Event::Publish(caller))?;
            self.apply_event(Event::Raise)?;
        }
        Ok(())
    }
}

/// Whether the caller's request is in effect, whatever becomes of the caller.
fn is_taken(standing: CallerPhase) -> bool {
    matches!(
        standing,
        CallerPhase::Drawn {
            number: _,
            shard: _
        } | CallerPhase::Waiting { saw: _ }
            | CallerPhase::Reading {
                number: _,
                shard: _,
                left: _
            }
    )
}
