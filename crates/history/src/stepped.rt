// A run, event by event.
ghost use Rattle.std.specs.Prelude.{◌≡◌, ◌≢◌, ◌+◌, ◌-◌, ◌^◌, ◌<◌, ◌≤◌, ◌↔◌, ◌⊎◌, ◌++◌, ◌∷◌, [], ℕ, List, length, None, Some, OnOk, OnErr, IfOk, IfSome, IfErr, IsErrOf, IsTrue};
ghost use Rattle.history.specs.After.{IsAfter, IsReached, IsReplyTo, IsRunOf, taken};
ghost use Rattle.interleavings.specs.declared.event.Event.{Event};
ghost use Rattle.interleavings.specs.World.{Idle, Size, opening};
ghost use Rattle.interleavings.specs.Trace.{after};
ghost use Rattle.history.specs.Named.{callers};
ghost use Rattle.interleavings.specs.Callers.{named_by};
ghost use Rattle.history.specs.Replayed.{Does, IsAnswer, IsRun, Stands, Stays, Steps, named_phase, shard_at};
ghost use Rattle.plain_store.specs.Reached.{most_revisions};
ghost use Rattle.versions.specs.Shard.{opening as fresh};
ghost use Rattle.history.specs.declared.replay_error.ReplayError.TheVariants.{Memory as OutOfMemory};

use crate::callers::CallerPhases;
use crate::machine::Machine;
use crate::names::NamedCallers;
use crate::parking::Parking;
use crate::replay_error::ReplayError;
use crate::replaying::Replay;
use interleavings::{Event, Run, Trace};
use objects::Memory;
use plain_store::MAX_REVISIONS;
use requests::Reply;
use std::alloc::Global;
use versions::Shard;

/// The most shards that a run may have.
pub const MAX_SHARDS: usize = 64;

impl Replay {
    /// A run before its first event.
    ///
    /// # Errors
    ///
    /// BadShards and BadCapacity as of `replay`, and Memory.
    pub fn new(alloc: Global, shards: usize, capacity: u64) -> Result<Replay, ReplayError>
        ensures opened { IfOk result (λ replay. IsAfter (record { capacity = capacity; shards = shards }) [] replay) }
        ensures bad_shards { IsErrOf result ReplayError.BadShards ↔ (1 ≤ shards → 64 < shards) }
        ensures bad_capacity { IsErrOf result ReplayError.BadCapacity ↔ ((1 ≤ shards) × (shards ≤ 64) × (1 ≤ capacity → most_revisions < capacity)) }
        ensures unnamed { IsErrOf result ReplayError.TooManyCallers → ⊥ }
    {
        if shards < 1 || MAX_SHARDS < shards {
            return Err(ReplayError::BadShards);
        }
        if capacity < 1 || MAX_REVISIONS < capacity {
            return Err(ReplayError::BadCapacity);
        }
        let machine = opened(alloc, shards, capacity)?;
        Ok(Replay {
            machine,
            names: NamedCallers::new(alloc),
        })
    }

    /// Handles one event. One that is not enabled changes nothing but the place of the next. A `Reply` that is enabled
    /// gives its reply, any other event gives none. If the event names a 4,097th caller or memory runs out, it is
    /// refused, and nothing has changed. After each event all shards are compacted to the least of the floor and the
    /// numbers of open reads, which takes no memory.
    pub fn step(&mut self, event: &Event) -> Result<Option<Reply>, ReplayError>
        requires room { taken self.old < 2 ^ 64 - 1 }
        ensures reached { IsReached self.old }
        ensures done { (size : Size) (events : List Event) → IsAfter size events self.old → OnOk result (IsAfter size (events ++ event.now ∷ []) self.new) }
        ensures delivered { (size : Size) (events : List Event) → IsAfter size events self.old → IfOk result (λ delivered. IsReplyTo size events event.now delivered) }
        ensures refused { (size : Size) (events : List Event) → IsAfter size events self.old → OnErr result (IsAfter size events self.new) }
        ensures count { OnOk result (taken self.new ≡ taken self.old + 1) }
        ensures reasons { IfErr result (λ reason. (reason ≡ ReplayError.TooManyCallers) ⊎ (reason ≡ ReplayError.Memory)) }
        ensures too_many { (size : Size) (events : List Event) → IsAfter size events self.old
            → IsErrOf result ReplayError.TooManyCallers ↔ (4096 < callers (events ++ event.now ∷ [])) }
    {
        let newly = self.names.note(event)?;
        match self.machine.step(event) {
            Ok(reply) => Ok(reply),
            Err(Memory) => {
                self.names.forget(newly);
                Err(ReplayError::Memory)
            }
        }
    }

    /// How many events there were, enabled or not.
    pub fn events(&self) -> u64
        ensures taken { result ≡ taken self.now }
        ensures count { (size : Size) (events : List Event) → IsAfter size events self.now → result ≡ length events }
    {
        self.machine.now_at
    }

    /// Whether the caller is idle: it waits for no reply, and has not crashed.
    pub fn idle(&self, caller: u64) -> bool
        ensures { (size : Size) (events : List Event) → IsAfter size events self.now → IsTrue result ↔ ((after size opening events).phase caller ≡ Idle) }
    {
        self.machine.callers.is_idle(caller)
    }

    /// The run so far. It takes no memory.
    pub fn finish(self) -> Run
        ensures { (size : Size) (events : List Event) → IsAfter size events self → IsRunOf size events result }
    {
        let Replay { machine, names } = self;
        drop(names);
        let Machine {
            capacity,
            shards,
            holders,
            callers,
            places,
            parking,
            frontier: _,
            floor: _,
            compacted: _,
            now_at: _,
            items,
            order,
            alloc: _,
        } = machine;
        drop(shards);
        drop(holders);
        drop(callers);
        drop(places);
        drop(parking);
        Run {
            trace: Trace { capacity, items },
            order,
        }
    }
}

/// So many shards with no records.
fn new_shards(alloc: Global, shards: usize) -> Result<Vec<Shard>, ReplayError>
    ensures made { IfOk result (λ held. (length held.items ≡ shards) × ((s : ℕ) → shard_at held.items s ≡ fresh)) }
    ensures memory { IfErr result (λ reason. reason ≡ OutOfMemory) }
{
    let mut held = Vec::new(alloc);
    for _ in 0..shards {
        held.push(Shard::new(alloc))?;
    }
    Ok(held)
}

/// The pieces of a world in which nothing has happened.
fn opened(alloc: Global, shards: usize, capacity: u64) -> Result<Machine, ReplayError>
    requires { (0 < shards) × (capacity ≤ most_revisions) }
    ensures opened { IfOk result (λ machine. IsRun (record { capacity = capacity; shards = shards }) [] machine) }
    ensures memory { IfErr result (λ reason. reason ≡ OutOfMemory) }
{
    let held = new_shards(alloc, shards)?;
    let holders = vec![in alloc; None; shards]?;
    Ok(Machine {
        capacity,
        shards: held,
        holders,
        callers: CallerPhases::new(alloc),
        places: Vec::new(alloc),
        parking: Parking::new(alloc),
        frontier: 0,
        floor: 0,
        compacted: 0,
        now_at: 0,
        items: Vec::new(alloc),
        order: Vec::new(alloc),
        alloc,
    })
}

impl Machine {
    /// One event, and the place of the next one. After a refusal nothing has changed.
    pub(crate) fn step(&mut self, event: &Event) -> Result<Option<Reply>, Memory>
        requires stands { Stands self.old }
        requires room { self.old.now_at < 2 ^ 64 - 1 }
        ensures done { OnOk result (Steps event.now self.old self.new) }
        ensures count { OnOk result (self.new.now_at ≡ self.old.now_at + 1) }
        ensures delivered { IfOk result (λ delivered. IsAnswer event.now self.old self.new delivered) }
        ensures memory { OnErr result (Stays self.old self.new) }
    {
        let delivered = self.dispatch(event)?;
        self.now_at += 1;
        self.compact_shards();
        Ok(delivered)
    }

    /// One event, of any caller or of none.
    fn dispatch(&mut self, event: &Event) -> Result<Option<Reply>, Memory>
        requires { Stands self.old }
        ensures done { OnOk result (Does event.now self.old self.new) }
        ensures place { self.new.now_at ≡ self.old.now_at }
        ensures delivered { IfOk result (λ delivered. IsAnswer event.now self.old self.new delivered) }
        ensures memory { OnErr result (Stays self.old self.new) }
    {
        match event.caller() {
            Some(caller) => self.step_of(caller, event),
            None => self.take(event),
        }
    }

    /// An event of a caller. One that is named for the first time is admitted, and forgotten if the event is refused.
    fn step_of(&mut self, caller: u64, event: &Event) -> Result<Option<Reply>, Memory>
        requires stands { Stands self.old }
        requires caller { named_by event.now ≡ Some caller }
        ensures done { OnOk result (Does event.now self.old self.new) }
        ensures place { self.new.now_at ≡ self.old.now_at }
        ensures delivered { IfOk result (λ delivered. IsAnswer event.now self.old self.new delivered) }
        ensures memory { OnErr result (Stays self.old self.new) }
    {
        if self.callers.phase(caller).is_some() {
            return self.take(event);
        }
        self.callers.admit(caller)?;
        match self.take(event) {
            Ok(delivered) => Ok(delivered),
            Err(Memory) => {
                self.callers.dismiss(caller);
                Err(Memory)
            }
        }
    }

    /// An event whose caller, if it has one, is known.
    fn take(&mut self, event: &Event) -> Result<Option<Reply>, Memory>
        requires stands { Stands self.old }
        requires named { IfSome (named_by event.now) (λ c. named_phase self.old.callers c ≢ None) }
        ensures done { OnOk result (Does event.now self.old self.new) }
        ensures place { self.new.now_at ≡ self.old.now_at }
        ensures delivered { IfOk result (λ delivered. IsAnswer event.now self.old self.new delivered) }
        ensures memory { OnErr result (Stays self.old self.new) }
    {
        match event {
            Event::Call(caller, request) => self.call(*caller, request)?,
            Event::Check(caller) => self.check(*caller)?,
            Event::Reserve(caller) => self.reserve(*caller)?,
            Event::Publish(caller) => self.publish(*caller)?,
            Event::Raise => self.raise()?,
            Event::Read(caller) => self.read(*caller)?,
            Event::ReadAt(caller) => self.read_at(*caller)?,
            Event::Compact(caller) => self.compact(*caller)?,
            Event::Part(caller) => self.part(*caller),
            Event::Reply(caller) => return self.reply(*caller),
            Event::Crash(caller) => self.crash(*caller),
        }
        Ok(None)
    }
}
