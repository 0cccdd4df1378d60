// The phases of callers between two events.
ghost use Rattle.std.specs.Prelude.{◌≡◌, ◌<◌, List, length};
ghost use Rattle.plain_store.specs.Route.{route};
ghost use Rattle.history.specs.Replayed.{Stands, phase_at};
ghost use Rattle.history.specs.CallerPhase.{first_step, one_shard, caller_phase_in, caller_phase_of};
ghost use Rattle.history.specs.After.{IsAfter};
ghost use Rattle.interleavings.specs.declared.event.Event.{Event};
ghost use Rattle.interleavings.specs.Trace.{after};
ghost use Rattle.interleavings.specs.World.{Size, opening};

use crate::machine::Machine;
use crate::phase::Phase;
use crate::replaying::Replay;
use requests::Request;

/// The phase of a caller, as far as its next step depends on it. A shard is named by its index.
#[derive(Clone, Copy)]
pub enum CallerPhase {
    /// It has no request in progress.
    Idle,
    /// It has called a request, and has made no step of it.
    Called(FirstStep),
    /// Its write holds the shard of its key, and has allocated no number.
    Holding {
        shard: usize,
    },
    /// Its write has allocated a number, and holds its shard until that is published.
    Drawn {
        number: u64,
        shard: usize,
    },
    /// Its reply waits until the frontier has reached what it saw.
    Waiting {
        saw: u64,
    },
    /// It reads at the number, and so many shards are still to be read: for a get the one that it names, for a list the
    /// last ones of all.
    Reading {
        number: u64,
        shard: Option<usize>,
        left: usize,
    },
    /// It crashed.
    Gone,
    /// It crashed after its write had allocated a number, which is still to be published.
    Left {
        number: u64,
        shard: usize,
    },
}

/// The step that a request begins with.
#[derive(Clone, Copy)]
pub enum FirstStep {
    /// A write: the check, in the shard of its key.
    Write { shard: usize },
    /// A get or a list of now.
    Read,
    /// A list at an exact resource version.
    ReadAt,
    /// A compaction.
    Compaction,
}

impl Machine {
    /// The phase of the caller.
    pub(crate) fn caller_phase(&self, caller: u64) -> CallerPhase
        requires { Stands self.now }
        ensures { result ≡ caller_phase_in (length self.now.shards.items) (phase_at self.now.callers caller) }
    {
        match self.callers.phase(caller) {
            None | Some(Phase::Idle) => CallerPhase::Idle,
            Some(Phase::Called { place: _, request }) => CallerPhase::Called(self.first_step(
                request,
            )),
            Some(Phase::Holding(writing)) => CallerPhase::Holding {
                shard: self.shard_of(&writing.key),
            },
            Some(Phase::Drawn(draw)) => CallerPhase::Drawn {
                number: draw.index as u64 + 1,
                shard: self.shard_of(&draw.writing.key),
            },
            Some(
                Phase::Waiting {
                    saw,
                    place: _,
                    reply: _,
                },
            ) => CallerPhase::Waiting { saw: *saw },
            Some(
                Phase::Reading {
                    number,
                    place: _,
                    request,
                    left,
                },
            ) => CallerPhase::Reading {
                number: *number,
                shard: self.one_shard(request),
                left: *left,
            },
            Some(Phase::Gone | Phase::Dropped) => CallerPhase::Gone,
            Some(Phase::Left(draw)) => CallerPhase::Left {
                number: draw.index as u64 + 1,
                shard: self.shard_of(&draw.writing.key),
            },
        }
    }

    #[tactic(auto, unfolding(plain_store::specs::Route::route))]
    fn first_step(&self, request: &Request) -> FirstStep
        requires { 0 < length self.now.shards.items }
        ensures { result ≡ first_step (length self.now.shards.items) (route request.now) }
    {
        match request {
            Request::Create(draft) | Request::Update(draft) | Request::UpdateStatus(draft) => {
                FirstStep::Write {
                    shard: self.shard_of(&draft.object.key),
                }
            }
            Request::Delete {
                key,
                uid: _,
                version: _,
                at: _,
            } => FirstStep::Write {
                shard: self.shard_of(key),
            },
            Request::Get(_) => FirstStep::Read,
            Request::List {
                kind: _,
                namespace: _,
                exact,
            } => {
                // 0 means the objects as they are now.
                if *exact == 0 {
                    FirstStep::Read
                } else {
                    FirstStep::ReadAt
                }
            }
            Request::Compact { to: _ } => FirstStep::Compaction,
        }
    }

    /// The shard that a get reads.
    #[tactic(auto, unfolding(plain_store::specs::Route::route))]
    fn one_shard(&self, request: &Request) -> Option<usize>
        requires { 0 < length self.now.shards.items }
        ensures { result ≡ one_shard (length self.now.shards.items) (route request.now) }
    {
        match request {
            Request::Get(key) => Some(self.shard_of(key)),
            _ => None,
        }
    }
}

impl Replay {
    /// The phase of the caller.
    pub fn caller_phase(&self, caller: u64) -> CallerPhase
        ensures { (size : Size) (events : List Event) → IsAfter size events self.now
            → result ≡ caller_phase_of size.shards ((after size opening events).phase caller) }
    {
        self.machine.caller_phase(caller)
    }

    /// The frontier: all numbers up to it are filled, and reads of now begin at it.
    pub fn frontier(&self) -> u64
        ensures { (size : Size) (events : List Event) → IsAfter size events self.now → result ≡ (after size opening events).frontier }
    {
        self.machine.frontier
    }
}
