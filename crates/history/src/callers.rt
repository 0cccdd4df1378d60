ghost use Rattle.std.specs.Prelude.{◌≡◌, ◌≢◌, ◌==◌, ◌+◌, ◌<◌, ℕ, true, None, Some, IfSome, IsSomeAnd, OnOk, OnErr, option_map, if◌then◌else◌};
ghost use Rattle.std.specs.Option.{option_copied};
ghost use Rattle.requests.specs.Change.{version_of};
ghost use Rattle.plain_store.specs.Reached.{most_revisions};
ghost use Rattle.history.specs.declared.phase.Phase.TheVariants.{Idle};
ghost use Rattle.history.specs.Replayed.{Enters, IsTracked, Replaces, Same, begun_phase, called_in, drawn_in, drops, gone_phase, holding_in, is_called, is_idle, named_phase, parted, phase_at, published_phase, reading_in, waiting_in, with_draw};

use crate::open_reads::OpenReads;
use crate::phase::{Draw, Phase, Writing};
use objects::Memory;
use requests::{Reply, Request, Version};
use std::alloc::Global;
use std::collections::BTreeMap;

/// The phase of each caller. One that no event has named yet is idle.
#[derive(Drop)]
pub(crate) struct CallerPhases {
    pub phases: BTreeMap<u64, Phase>,
    pub open_reads: OpenReads,
}

impl CallerPhases {
    pub(crate) fn new(alloc: Global) -> CallerPhases
        ensures unnamed { (c : ℕ) → named_phase result c ≡ None }
        ensures tracked { IsTracked result }
    {
        CallerPhases {
            phases: BTreeMap::new(alloc),
            open_reads: OpenReads::new(alloc),
        }
    }

    /// The phase of a caller, if an event has named it.
    pub(crate) fn phase(&self, caller: u64) -> Option<&Phase>
        ensures { option_copied result ≡ named_phase self.now caller }
    {
        self.phases.get(&caller)
    }

    pub(crate) fn is_idle(&self, caller: u64) -> bool
        ensures { result ≡ is_idle (phase_at self.now caller) }
    {
        match self.phase(caller) {
            None | Some(Phase::Idle) => true,
            _ => false,
        }
    }

    /// Whether the caller crashed while its reply waited.
    pub(crate) fn is_dropped(&self, caller: u64) -> bool
        ensures { result ≡ drops self.now caller }
    {
        match self.phase(caller) {
            Some(Phase::Dropped) => true,
            _ => false,
        }
    }

    /// Makes room for a caller that is named for the first time.
    pub(crate) fn admit(&mut self, caller: u64) -> Result<(), Memory>
        requires { named_phase self.old caller ≡ None }
        ensures admitted { OnOk result (Enters self.old self.new caller Idle) }
        ensures memory { OnErr result (Same self.old self.new) }
    {
        drop(self.phases.insert(caller, Phase::Idle)?);
        Ok(())
    }

    /// Forgets a caller that is idle.
    pub(crate) fn dismiss(&mut self, caller: u64)
        ensures dismissed { (c : ℕ) → named_phase self.new c ≡ (if c == caller then None else named_phase self.old c) }
        ensures tracked { is_idle (phase_at self.old caller) ≡ true → IsTracked self.old → IsTracked self.new }
    {
        drop(self.phases.remove(&caller));
    }

    /// Puts the caller into its next phase, in which it reads nothing, and returns the phase before.
    pub(crate) fn enter(&mut self, caller: u64, phase: Phase) -> Phase
        requires named { named_phase self.old caller ≢ None }
        requires plain { reading_in phase ≡ None }
        ensures before { named_phase self.old caller ≡ Some result }
        ensures entered { Enters self.old self.new caller phase }
    {
        let before = self.replace(caller, phase);
        self.open_reads.leave(caller, &before);
        before
    }

    /// Puts the caller into its next phase, and returns the phase before. The open reads stay.
    fn replace(&mut self, caller: u64, phase: Phase) -> Phase
        requires { named_phase self.old caller ≢ None }
        ensures before { named_phase self.old caller ≡ Some result }
        ensures replaced { Replaces self.old self.new caller phase }
        ensures open_reads { self.new.open_reads ≡ self.old.open_reads }
    {
        match self.phases.insert(caller, phase) {
            Ok(Some(before)) => before,
            // The caller has a phase already, so the insert replaces it and needs no memory.
            _ => unreachable!(),
        }
    }
}

impl CallerPhases {
    /// The request of a caller, and the place of its call, before any step of it is made.
    pub(crate) fn called(&self, caller: u64) -> Option<(u64, &Request)>
        ensures { option_map (λ p. (p.0, p.1.now)) result ≡ called_in (phase_at self.now caller) }
    {
        match self.phase(caller) {
            Some(Phase::Called { place, request }) => Some((*place, request)),
            _ => None,
        }
    }

    /// The write of a caller that holds its shard and has allocated no number.
    pub(crate) fn holding(&self, caller: u64) -> Option<&Writing>
        ensures { option_copied result ≡ holding_in (phase_at self.now caller) }
    {
        match self.phase(caller) {
            Some(Phase::Holding(writing)) => Some(writing),
            _ => None,
        }
    }

    /// The number that a caller waits for, and its reply.
    pub(crate) fn waiting(&self, caller: u64) -> Option<(u64, &Reply)>
        ensures { option_map (λ p. (p.0, p.1.now)) result ≡ waiting_in (phase_at self.now caller) }
    {
        match self.phase(caller) {
            Some(
                Phase::Waiting {
                    saw,
                    place: _,
                    reply,
                },
            ) => Some((*saw, reply)),
            _ => None,
        }
    }

    /// The number of a read, its request, and how many shards are still to be read.
    pub(crate) fn reading(&self, caller: u64) -> Option<(u64, &Request, usize)>
        ensures { option_map (λ p. (p.0, p.1.now, p.2)) result ≡ reading_in (phase_at self.now caller) }
    {
        match self.phase(caller) {
            Some(
                Phase::Reading {
                    number,
                    place: _,
                    request,
                    left,
                },
            ) => Some((*number, request, *left)),
            _ => None,
        }
    }

    /// The draw of a caller, also of one that has crashed, if it is not published yet.
    pub(crate) fn drawn(&self, caller: u64) -> Option<&Draw>
        ensures { option_copied result ≡ drawn_in (phase_at self.now caller) }
    {
        match self.phase(caller) {
            Some(Phase::Drawn(draw) | Phase::Left(draw)) => Some(draw),
            _ => None,
        }
    }

    /// The caller's write allocates an index.
    pub(crate) fn draw(&mut self, caller: u64, index: usize)
        requires { named_phase self.old caller ≢ None }
        ensures { Enters self.old self.new caller (with_draw index (phase_at self.old caller)) }
    {
        // Idle replaces the phase while it is taken apart, here and below, since the map only lends it.
        match self.replace(caller, Phase::Idle) {
            Phase::Holding(writing) => {
                drop(self.replace(caller, Phase::Drawn(Draw { index, writing })));
            }
            // Any other phase is put back, here and below.
            before => drop(self.replace(caller, before)),
        }
    }

    /// The caller's draw is published: returns what is stored, while the caller waits with its reply, or has crashed.
    #[tactic(auto, unfolding(interleavings::specs::Step::accepted_reply))]
    pub(crate) fn publish(&mut self, caller: u64) -> Version
        requires { IsSomeAnd (drawn_in (phase_at self.old caller)) (λ draw. draw.index < most_revisions) }
        ensures version { IfSome (drawn_in (phase_at self.old caller)) (λ draw. result ≡ version_of draw.writing.change (draw.index + 1)) }
        ensures entered { Enters self.old self.new caller (published_phase (phase_at self.old caller)) }
    {
        match self.enter(caller, Phase::Gone) {
            Phase::Drawn(draw) => {
                let Draw { index, writing } = draw;
                let Writing { place, key, change } = writing;
                drop(key);
                let saw = index as u64 + 1;
                let (version, reply) = change.stamp(saw);
                drop(self.enter(caller, Phase::Waiting { saw, place, reply }));
                version
            }
            Phase::Left(draw) => {
                let Draw { index, writing } = draw;
                let Writing {
                    place: _,
                    key,
                    change,
                } = writing;
                drop(key);
                let (version, reply) = change.stamp(index as u64 + 1);
                drop(reply);
                version
            }
            _ => unreachable!(),
        }
    }

    /// The caller's request begins to read at a number.
    pub(crate) fn begin(&mut self, caller: u64, number: u64, left: usize) -> Result<(), Memory>
        requires { is_called (phase_at self.old caller) ≡ true }
        ensures begun { OnOk result (Enters self.old self.new caller (begun_phase number left (phase_at self.old caller))) }
        ensures memory { OnErr result (Same self.old self.new) }
    {
        // First, as only this can need memory: a read that is not among the open ones does not begin.
        self.open_reads.begin(caller, number)?;
        match self.replace(caller, Phase::Idle) {
            Phase::Called { place, request } => {
                let begun = Phase::Reading {
                    number,
                    place,
                    request,
                    left,
                };
                drop(self.replace(caller, begun));
            }
            before => drop(self.replace(caller, before)),
        }
        Ok(())
    }

    /// One more shard of a read is read.
    pub(crate) fn part(&mut self, caller: u64)
        requires { named_phase self.old caller ≢ None }
        ensures { Enters self.old self.new caller (parted (phase_at self.old caller)) }
    {
        match self.replace(caller, Phase::Idle) {
            Phase::Reading {
                number,
                place,
                request,
                left,
            } => {
                let rest = Phase::Reading {
                    number,
                    place,
                    request,
                    left: left.saturating_sub(1),
                };
                drop(self.replace(caller, rest));
            }
            before => drop(self.replace(caller, before)),
        }
    }

    /// The caller crashes.
    pub(crate) fn crash(&mut self, caller: u64)
        requires { named_phase self.old caller ≢ None }
        ensures { Enters self.old self.new caller (gone_phase (phase_at self.old caller)) }
    {
        match self.enter(caller, Phase::Gone) {
            Phase::Drawn(draw) | Phase::Left(draw) => {
                drop(self.enter(caller, Phase::Left(draw)));
            }
            Phase::Waiting {
                saw: _,
                place: _,
                reply,
            } => {
                drop(reply);
                drop(self.enter(caller, Phase::Dropped));
            }
            Phase::Dropped => drop(self.enter(caller, Phase::Dropped)),
            before => drop(before),
        }
    }
}
