// The events of a write.
ghost use Rattle.std.specs.Prelude.{◌≡◌, ◌≢◌, ◌<◌, ◌+◌, ◌++◌, true, [], ◌∷◌, None, Some, length, get_or, is_some, OnOk, OnErr, IfOk, IfSome, option_map};
ghost use Rattle.requests.specs.Keys.{key_named};
ghost use Rattle.requests.specs.Verdict.{is_write, verdict};
ghost use Rattle.objects.specs.ShardOf.{shard_of};
ghost use Rattle.std.specs.Option.{option_map_or};
ghost use Rattle.versions.specs.Records.{IsAbove, current, newest};
ghost use Rattle.plain_store.specs.Reached.{most_revisions};
ghost use Rattle.interleavings.specs.declared.event.Event.TheVariants.{Call, Check, Publish, Raise, Reserve};
ghost use Rattle.history.specs.Replayed.{Does, Fills, Holds, IsDecision, Stands, Stays, drops, holding_in, is_called, lot_at, named_phase, phase_at, places_in, shard_at, staying, writing_of};

use crate::decision::Decision;
use crate::machine::Machine;
use crate::parking::Waiter;
use crate::phase::{Phase, Writing};
use interleavings::Item;
use objects::{Key, Memory, shard_of};
use requests::{Reason, Reply, Request, Verdict, Version};

impl Machine {
    pub(crate) fn call(&mut self, caller: u64, request: &Request) -> Result<(), Memory>
        requires { named_phase self.old.callers caller ≢ None }
        ensures done { OnOk result (Does (Call caller request.now) self.old self.new) }
        ensures memory { OnErr result (Stays self.old self.new) }
        ensures place { self.new.now_at ≡ self.old.now_at }
    {
        if !self.callers.is_idle(caller) {
            return Ok(());
        }
        let place = self.now_at;
        let called = Phase::Called {
            place,
            request: request.clone()?,
        };
        self.items.push(Item::Call {
            place,
            caller,
            request: request.clone()?,
        })?;
        // The phase before, here and below: it is not needed.
        drop(self.callers.enter(caller, called));
        Ok(())
    }

    pub(crate) fn check(&mut self, caller: u64) -> Result<(), Memory>
        requires { Stands self.old }
        ensures done { OnOk result (Does (Check caller) self.old self.new) }
        ensures memory { OnErr result (Stays self.old self.new) }
        ensures place { self.new.now_at ≡ self.old.now_at }
    {
        match self.decide(caller)? {
            None => Ok(()),
            Some(Decision::Wait { saw, place, reply }) => self.wait(caller, saw, place, reply),
            Some(Decision::Hold { shard, writing }) => {
                self.hold(caller, shard, writing);
                Ok(())
            }
        }
    }

    /// What the check of a caller decides; nothing if it is not enabled.
    fn decide(&self, caller: u64) -> Result<Option<Decision>, Memory>
        requires { Stands self.now }
        ensures { IfOk result (λ decision. IsDecision caller decision self.now) }
    {
        let Some((place, request)) = self.callers.called(caller) else {
            return Ok(None);
        };
        if !request.is_write() {
            return Ok(None);
        }
        let Some(key) = request.key() else {
            unreachable!();
        };
        let shard = self.shard_of(key);
        if self.is_held(shard) {
            return Ok(None);
        }
        let saw = self.seen(shard, key);
        match self.judge(shard, request)? {
            Verdict::Refuse(reason) => Ok(Some(Decision::Wait {
                saw,
                place,
                reply: Reply::Refused(reason),
            })),
            Verdict::Same(object) => Ok(Some(Decision::Wait {
                saw,
                place,
                reply: Reply::Unchanged(object),
            })),
            Verdict::Write(change) => {
                let key = key.clone()?;
                let writing = Writing { place, key, change };
                Ok(Some(Decision::Hold { shard, writing }))
            }
        }
    }

    fn is_held(&self, shard: usize) -> bool
        requires { shard < length self.now.holders.items }
        ensures { result ≡ is_some (get_or self.now.holders.items shard None) }
    {
        self.holders[shard].is_some()
    }

    /// What a write does, given what its key is now.
    fn judge(&self, shard: usize, request: &Request) -> Result<Verdict, Memory>
        requires below { shard < length self.now.shards.items }
        requires write { is_write request.now ≡ true }
        ensures { IfOk result (λ decided. IfSome (key_named request.now) (λ key. decided
            ≡ verdict request.now (current (shard_at self.now.shards.items shard).records key))) }
    {
        self.shards[shard].verdict(request)
    }

    /// The number of the last write of a key, 0 if there is none.
    fn seen(&self, shard: usize, key: &Key) -> u64
        requires { shard < length self.now.shards.items }
        ensures { result ≡ option_map_or (λ p. p.0) (newest (shard_at self.now.shards.items shard).records key.now) 0 }
    {
        match self.shards[shard].newest(key) {
            Some((number, _)) => number,
            None => 0,
        }
    }

    fn hold(&mut self, caller: u64, shard: usize, writing: Writing)
        requires shard { shard < length self.old.holders.items }
        requires called { is_called (phase_at self.old.callers caller) ≡ true }
        ensures holds { Holds caller shard (writing_of writing) self.old self.new }
        ensures place { self.new.now_at ≡ self.old.now_at }
    {
        self.holders[shard] = Some(caller);
        drop(self.callers.enter(caller, Phase::Holding(writing)));
    }

    pub(crate) fn reserve(&mut self, caller: u64) -> Result<(), Memory>
        requires { Stands self.old }
        ensures done { OnOk result (Does (Reserve caller) self.old self.new) }
        ensures memory { OnErr result (Stays self.old self.new) }
        ensures place { self.new.now_at ≡ self.old.now_at }
    {
        let Some((place, shard)) = self.held(caller) else {
            return Ok(());
        };
        let index = self.places.len();
        if (index as u64) < self.capacity {
            // Nothing is there until the publication, so the frontier waits before it.
            self.places.push(None)?;
            self.callers.draw(caller, index);
            return Ok(());
        }
        let saw = self.capacity;
        self.wait(caller, saw, place, Reply::Refused(Reason::StoreFull))?;
        self.holders[shard] = None;
        Ok(())
    }

    /// The place of the call of a caller's write, and the shard that it holds, before it has allocated a number.
    pub(crate) fn held(&self, caller: u64) -> Option<(u64, usize)>
        requires { 0 < length self.now.shards.items }
        ensures value { result ≡ option_map (λ t. (t.place, shard_of t.key (length self.now.shards.items))) (holding_in (phase_at self.now.callers caller)) }
        ensures below { IfSome result (λ p. p.1 < length self.now.shards.items) }
    {
        let writing = self.callers.holding(caller)?;
        Some((writing.place, self.shard_of(&writing.key)))
    }

    pub(crate) fn publish(&mut self, caller: u64) -> Result<(), Memory>
        requires { Stands self.old }
        ensures done { OnOk result (Does (Publish caller) self.old self.new) }
        ensures memory { OnErr result (Stays self.old self.new) }
        ensures place { self.new.now_at ≡ self.old.now_at }
    {
        let Some(draw) = self.callers.drawn(caller) else {
            return Ok(());
        };
        let index = draw.index;
        let place = draw.writing.place;
        let shard = shard_of(&draw.writing.key, self.shards.len());
        // First, as only this can need memory: a publication is not undone.
        self.shards[shard].make_room(&draw.writing.key)?;
        let version = self.callers.publish(caller);
        self.fill(shard, index, place, version);
        Ok(())
    }

    /// Puts the write of an index into its shard, notes its number as filled, and sets the shard free.
    fn fill(&mut self, shard: usize, index: usize, place: u64, version: Version)
        requires shard { shard < length self.old.shards.items }
        requires seat { shard < length self.old.holders.items }
        requires index { index < length self.old.places.items }
        requires small { index < most_revisions }
        requires room { (shard_at self.old.shards.items shard).room ≡ Some version.key }
        requires above { IsAbove (shard_at self.old.shards.items shard).records (index + 1) }
        ensures fills { Fills shard index place version self.old self.new }
        ensures place { self.new.now_at ≡ self.old.now_at }
    {
        self.shards[shard].push(index as u64 + 1, version);
        self.places[index] = Some(place);
        self.holders[shard] = None;
    }

    pub(crate) fn raise(&mut self) -> Result<(), Memory>
        requires { Stands self.old }
        ensures done { OnOk result (Does (Raise) self.old self.new) }
        ensures memory { OnErr result (Stays self.old self.new) }
        ensures place { self.new.now_at ≡ self.old.now_at }
    {
        let Some(place) = self.next_place() else {
            return Ok(());
        };
        let number = self.frontier + 1;
        let mut passed = self.places_raised(place, number)?;
        self.order.append(&mut passed)?;
        // Emptied by `append`.
        drop(passed);
        self.parking.clear(number);
        self.frontier = number;
        Ok(())
    }

    /// The place of the call of the next number's write, if that is filled.
    fn next_place(&self) -> Option<u64>
        ensures { result ≡ get_or self.now.places.items self.now.frontier None }
    {
        match self.places.get(self.frontier as usize) {
            Some(place) => *place,
            None => None,
        }
    }

    /// What joins the order when the frontier passes a number: its write, and then what is parked there, without those
    /// whose caller has crashed.
    fn places_raised(&self, place: u64, number: u64) -> Result<Vec<u64>, Memory>
        ensures { IfOk result (λ passed. passed.items ≡ place ∷ places_in (staying (drops self.now.callers) (lot_at self.now.parking number))) }
    {
        let mut passed = Vec::new(self.alloc);
        passed.push(place)?;
        let waiters = self.parking.at(number);
        for waiter in waiters {
            self.push_if_alive(&mut passed, *waiter)?;
        }
        Ok(passed)
    }

    fn push_if_alive(&self, passed: &mut Vec<u64>, waiter: Waiter) -> Result<(), Memory>
        ensures { OnOk result (passed.new.items ≡ passed.old.items ++ places_in (staying (drops self.now.callers) (waiter ∷ []))) }
    {
        if !self.callers.is_dropped(waiter.caller) {
            passed.push(waiter.place)?;
        }
        Ok(())
    }
}
