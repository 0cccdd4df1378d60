// The log of a race, from the parts of its callers.
ghost use Rattle.std.specs.Prelude.{◌≡◌, ◌==◌, ◌<◌, ◌++◌, ◌∷◌, [], ℕ, false, length, List, IfOk, OnOk, if◌then◌else◌, MatchOption};
ghost use Rattle.race_log.specs.Judged.{noted_of};
ghost use Rattle.race_log.specs.Merge.{IsByTurns, IsMergeOf, Event, event, exchange_events, part_events, events_of};
ghost use Rattle.race_log.specs.Waiting.{AreExchanges, AreTurnsOf, HasHeard, Hears, Holds, left_of, said};

use crate::log::Log;
use crate::part::{Part, TimedExchange};
use objects::Memory;
use requests::{Reply, Request};
use std::alloc::Global;
use std::collections::{BTreeMap, VecDeque};

/// What a caller adds to the log in one of its turns.
#[derive(Drop)]
enum Word {
    Asks(Request),
    /// The reply, and its number.
    Told(u64, Reply),
}

/// What callers still have to add, each in its order.
#[derive(Drop)]
struct Queues {
    by_caller: BTreeMap<u64, VecDeque<Word>>,
    alloc: Global,
}

impl Queues {
    /// Appends it to what the caller adds.
    fn put(&mut self, caller: u64, word: Word) -> Result<(), Memory>
        ensures { OnOk result ((c : ℕ) → left_of c self.new ≡ left_of c self.old ++ (if caller == c then said word ∷ [] else [])) }
    {
        if let Some(queue) = self.by_caller.get_mut(&caller) {
            queue.push_back(word)?;
            return Ok(());
        }
        let mut queue = VecDeque::new(self.alloc);
        queue.push_back(word)?;
        self.by_caller.insert(caller, queue)?;
        Ok(())
    }

    /// What the caller adds next.
    fn take(&mut self, caller: u64) -> Option<Word>
        ensures caller { MatchOption result (left_of caller self.old ≡ []) (λ word. left_of caller self.old ≡ said word ∷ left_of caller self.new) }
        ensures others { (c : ℕ) → (caller == c) ≡ false → left_of c self.new ≡ left_of c self.old }
    {
        self.by_caller.get_mut(&caller)?.pop_front()
    }
}

/// What is to be noted: a turn for each event, its place and its caller, and what the callers add.
#[derive(Drop)]
struct Waiting {
    turns: Vec<(u64, u64)>,
    queues: Queues,
}

impl Waiting {
    fn new(alloc: Global) -> Waiting
        ensures { Holds result [] }
    {
        Waiting {
            turns: Vec::new(alloc),
            queues: Queues {
                by_caller: BTreeMap::new(alloc),
                alloc,
            },
        }
    }

    /// Appends an event.
    fn put(&mut self, place: u64, caller: u64, word: Word) -> Result<(), Memory>
        ensures { (es : List Event) → Holds self.old es → OnOk result (Holds self.new (es ++ event place caller (said word) ∷ [])) }
    {
        let turned = self.turns.push((place, caller));
        self.queues.put(caller, word)?;
        Ok(turned?)
    }

    /// Appends a call and its reply.
    fn put_exchange(&mut self, caller: u64, exchanges: TimedExchange) -> Result<(), Memory>
        ensures { (es : List Event) → Holds self.old es → OnOk result (Holds self.new (es ++ exchange_events caller exchanges)) }
    {
        let TimedExchange {
            call,
            request,
            place,
            number,
            reply,
        } = exchanges;
        let called = self.put(call, caller, Word::Asks(request));
        let replied = self.put(place, caller, Word::Told(number, reply));
        called?;
        replied
    }

    /// Appends the events of a part.
    fn put_part(&mut self, part: Part) -> Result<(), Memory>
        ensures { (es : List Event) → Holds self.old es → OnOk result (Holds self.new (es ++ part_events part)) }
    {
        let Part { caller, exchanges } = part;
        for one in exchanges {
            self.put_exchange(caller, one)?;
        }
        Ok(())
    }

    /// The events of these parts, one part after another.
    fn of(alloc: Global, parts: Vec<Part>) -> Result<Waiting, Memory>
        ensures { IfOk result (λ waiting. Holds waiting (events_of parts.items)) }
    {
        let mut waiting = Waiting::new(alloc);
        for part in parts {
            waiting.put_part(part)?;
        }
        Ok(waiting)
    }
}

impl Log {
    /// Notes what the caller adds next.
    fn note_next(&mut self, queues: &mut Queues, caller: u64) -> Result<(), Memory>
        requires { 0 < length (left_of caller queues.old) }
        ensures { OnOk result (Hears caller (noted_of self.old) (noted_of self.new) queues.old queues.new) }
    {
        match queues.take(caller) {
            Some(Word::Asks(request)) => self.call(caller, request),
            Some(Word::Told(number, reply)) => self.reply(caller, number, reply),
            None => Ok(()),
        }
    }
}

/// The log of what the callers add in these turns.
fn log_of(alloc: Global, queues: Queues, turns: &[(u64, u64)]) -> Result<Log, Memory>
    requires turns { AreTurnsOf turns.now queues }
    requires exchanges { AreExchanges queues }
    ensures { IfOk result (λ log. HasHeard (noted_of log) queues turns.now) }
{
    let mut left = queues;
    let mut log = Log::new(alloc);
    for (_, caller) in turns {
        log.note_next(&mut left, *caller)?;
    }
    Ok(log)
}

/// The log with these parts. Callers take turns by the places of the events, and in its turn a caller adds its next
/// call or reply: so the log has each part in its order, whatever its places are, and each reply a stamp with its
/// number. The time is at most n log n.
pub fn merged(alloc: Global, parts: Vec<Part>) -> Result<Log, Memory>
    ensures merged { IfOk result (λ log. IsMergeOf parts.items (noted_of log)) }
    ensures turns { IfOk result (λ log. IsByTurns parts.items (noted_of log)) }
{
    let waiting = Waiting::of(alloc, parts)?;
    let Waiting { turns, queues } = waiting;
    let mut order = turns;
    order.sort()?;
    log_of(alloc, queues, order.as_slice())
}
