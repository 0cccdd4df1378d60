// The events of reads and compactions, replies and crashes.
ghost use Rattle.std.specs.Prelude.{◌≡◌, ◌≢◌, ◌++◌, ◌<◌, ◌≤◌, true, None, Some, length, OnOk, OnErr, IfOk};
ghost use Rattle.std.specs.Option.{option_copied};
ghost use Rattle.objects.specs.ShardOf.{shard_of};
ghost use Rattle.std.specs.FinMap as map;
ghost use Rattle.requests.specs.declared.reply.Reply.TheVariants.{Listed};
ghost use Rattle.version_map.specs.Keyed.{collection};
ghost use Rattle.versions.specs.Records.{state_at, value};
ghost use Rattle.history.specs.Mirrors.{found_in};
ghost use Rattle.requests.specs.declared.request.Request.TheVariants.{Get};
ghost use Rattle.plain_store.specs.Route.{route, writes};
ghost use Rattle.objects.specs.declared.key.Key.{Key};
ghost use Rattle.plain_store.specs.Store.{denied};
ghost use Rattle.interleavings.specs.declared.event.Event.TheVariants.{Compact, Crash, Part, Read, ReadAt};
ghost use Rattle.interleavings.specs.declared.event.Event.TheVariants as event;
ghost use Rattle.history.specs.Replayed.{Answers, Begins, Does, IsDue, IsNumbered, Stands, Stays, Tells, compaction_at, exact_in, floor_in, is_called, is_replying, named_phase, parts_in, phase_at, records_of, shard_at, delivered_at};

use crate::machine::Machine;
use crate::phase::Phase;
use interleavings::Item;
use objects::{Key, Kind, Memory, Object, Text};
use requests::{Listing, Reason, Reply, Request};
use versions::Gathered;

impl Machine {
    pub(crate) fn read(&mut self, caller: u64) -> Result<(), Memory>
        requires { Stands self.old }
        ensures done { OnOk result (Does (Read caller) self.old self.new) }
        ensures memory { OnErr result (Stays self.old self.new) }
        ensures place { self.new.now_at ≡ self.old.now_at }
    {
        let Some((place, request)) = self.callers.called(caller) else {
            return Ok(());
        };
        let Some(left) = parts_of(request, self.shards.len()) else {
            return Ok(());
        };
        let number = self.frontier;
        self.begin(caller, place, number, left)
    }

    /// A read begins, and is in the order from here on.
    fn begin(&mut self, caller: u64, place: u64, number: u64, left: usize) -> Result<(), Memory>
        requires called { is_called (phase_at self.old.callers caller) ≡ true }
        requires kept { self.old.compacted ≤ number }
        ensures begun { OnOk result (Begins caller place number left self.old self.new) }
        ensures memory { OnErr result (Stays self.old self.new) }
        ensures place { self.new.now_at ≡ self.old.now_at }
    {
        self.order.reserve(1)?;
        self.callers.begin(caller, number, left)?;
        self.order.push(place)?;
        Ok(())
    }

    pub(crate) fn read_at(&mut self, caller: u64) -> Result<(), Memory>
        requires { Stands self.old }
        ensures done { OnOk result (Does (ReadAt caller) self.old self.new) }
        ensures memory { OnErr result (Stays self.old self.new) }
        ensures place { self.new.now_at ≡ self.old.now_at }
    {
        let Some((place, request)) = self.callers.called(caller) else {
            return Ok(());
        };
        let Some(exact) = exact_of(request) else {
            return Ok(());
        };
        let shards = self.shards.len();
        match self.denied(exact) {
            Some(reason) => self.wait(caller, 0, place, Reply::Refused(reason)),
            None => self.begin(caller, place, exact, shards),
        }
    }

    /// Why a number can't be read at.
    fn denied(&self, number: u64) -> Option<Reason>
        ensures { result ≡ denied self.now.floor self.now.frontier number }
    {
        if self.frontier < number {
            Some(Reason::TooLarge)
        } else if number < self.floor {
            Some(Reason::Expired)
        } else {
            None
        }
    }

    pub(crate) fn compact(&mut self, caller: u64) -> Result<(), Memory>
        requires { Stands self.old }
        ensures done { OnOk result (Does (Compact caller) self.old self.new) }
        ensures memory { OnErr result (Stays self.old self.new) }
        ensures place { self.new.now_at ≡ self.old.now_at }
    {
        let Some((place, request)) = self.callers.called(caller) else {
            return Ok(());
        };
        let Some(to) = floor_of(request) else {
            return Ok(());
        };
        if let Some(reason) = self.denied(to) {
            return self.wait(caller, 0, place, Reply::Refused(reason));
        }
        self.wait(caller, 0, place, Reply::Compacted { revision: to })?;
        self.floor = to;
        Ok(())
    }

    pub(crate) fn part(&mut self, caller: u64)
        requires { named_phase self.old.callers caller ≢ None }
        ensures done { Does (Part caller) self.old self.new }
        ensures place { self.new.now_at ≡ self.old.now_at }
    {
        self.callers.part(caller);
    }

    pub(crate) fn reply(&mut self, caller: u64) -> Result<Option<Reply>, Memory>
        requires { Stands self.old }
        ensures done { OnOk result (Does (event.Reply caller) self.old self.new) }
        ensures delivered { IfOk result (λ delivered. self.new.items.items ≡ self.old.items.items ++ delivered_at self.old.now_at caller delivered) }
        ensures memory { OnErr result (Stays self.old self.new) }
        ensures place { self.new.now_at ≡ self.old.now_at }
    {
        match self.deliverable_reply(caller)? {
            Some(reply) => self.give(caller, reply),
            None => Ok(None),
        }
    }

    /// The reply that the caller can get now.
    fn deliverable_reply(&self, caller: u64) -> Result<Option<Reply>, Memory>
        requires { Stands self.now }
        ensures { IfOk result (λ due. IsDue caller due self.now) }
    {
        if let Some((saw, reply)) = self.callers.waiting(caller) {
            if self.frontier < saw {
                return Ok(None);
            }
            return Ok(Some(reply.clone()?));
        }
        let Some((number, request, left)) = self.callers.reading(caller) else {
            return Ok(None);
        };
        if 0 < left {
            return Ok(None);
        }
        Ok(Some(self.answer(number, request)?))
    }

    /// The caller gets its reply, which is returned.
    fn give(&mut self, caller: u64, reply: Reply) -> Result<Option<Reply>, Memory>
        requires { is_replying (phase_at self.old.callers caller) ≡ true }
        ensures delivered { OnOk result (Tells caller reply self.old self.new) }
        ensures items { IfOk result (λ delivered. self.new.items.items ≡ self.old.items.items ++ delivered_at self.old.now_at caller delivered) }
        ensures memory { OnErr result (Stays self.old self.new) }
        ensures place { self.new.now_at ≡ self.old.now_at }
    {
        match self.deliver(caller, &reply) {
            Ok(()) => Ok(Some(reply)),
            Err(error) => {
                drop(reply);
                Err(error)
            }
        }
    }

    /// The caller gets its reply, and is idle.
    fn deliver(&mut self, caller: u64, reply: &Reply) -> Result<(), Memory>
        requires { is_replying (phase_at self.old.callers caller) ≡ true }
        ensures delivered { OnOk result (Tells caller reply.now self.old self.new) }
        ensures items { OnOk result (self.new.items.items ≡ self.old.items.items ++ delivered_at self.old.now_at caller (Some reply.now)) }
        ensures memory { OnErr result (Stays self.old self.new) }
        ensures place { self.new.now_at ≡ self.old.now_at }
    {
        self.items.push(Item::Reply {
            place: self.now_at,
            caller,
            reply: reply.clone()?,
        })?;
        // The phase before, which is not needed.
        drop(self.callers.enter(caller, Phase::Idle));
        Ok(())
    }

    /// The reply to a read at a number.
    fn answer(&self, number: u64, request: &Request) -> Result<Reply, Memory>
        requires stands { Stands self.now }
        requires kept { self.now.compacted ≤ number }
        requires read { (key : Key) → route request.now ≡ writes key → ⊥ }
        requires numbered { IsNumbered number request.now }
        ensures { IfOk result (λ reply. Answers number request.now reply self.now) }
    {
        match request {
            Request::Get(key) => self.answer_get(number, key),
            Request::List {
                kind,
                namespace,
                exact: _,
            } => self.answer_list(number, *kind, namespace),
            Request::Compact { to } => Ok(answer_compaction(number, *to)),
            Request::Create(_)
            | Request::Update(_)
            | Request::UpdateStatus(_)
            | Request::Delete {
                key: _,
                uid: _,
                version: _,
                at: _,
            } => unreachable!(),
        }
    }

    fn answer_get(&self, number: u64, key: &Key) -> Result<Reply, Memory>
        requires stands { Stands self.now }
        requires kept { self.now.compacted ≤ number }
        ensures { IfOk result (λ reply. Answers number (Get key.now) reply self.now) }
    {
        match self.version_at(number, key) {
            Some(object) => Ok(Reply::Found(object.clone()?)),
            None => Ok(Reply::Refused(Reason::NotFound)),
        }
    }

    /// What a key was at a number.
    fn version_at(&self, number: u64, key: &Key) -> Option<&Object>
        requires stands { Stands self.now }
        requires kept { self.now.compacted ≤ number }
        ensures { option_copied result ≡ value (shard_at self.now.shards.items (shard_of key.now (length self.now.shards.items))).records number key.now }
    {
        self.shards[self.shard_of(key)].at(key, number)
    }

    fn answer_list(&self, number: u64, kind: Kind, namespace: &Text) -> Result<Reply, Memory>
        requires stands { Stands self.now }
        requires kept { self.now.compacted ≤ number }
        ensures { IfOk result (λ reply. reply
            ≡ Listed (map.values (found_in (records_of self.now) number kind namespace.now (length self.now.shards.items))) number) }
    {
        let objects = self.gather(number, kind, namespace)?.into_objects()?;
        Ok(Reply::Listed {
            objects: Listing::from(objects),
            revision: number,
        })
    }

    /// What all shards have of a kind in a namespace at a number.
    fn gather(&self, number: u64, kind: Kind, namespace: &Text) -> Result<Gathered, Memory>
        requires stands { Stands self.now }
        requires kept { self.now.compacted ≤ number }
        ensures { IfOk result (λ found. found ≡ found_in (records_of self.now) number kind namespace.now (length self.now.shards.items)) }
    {
        let mut found = Gathered::new(self.alloc);
        for shard in 0..self.shards.len() {
            found.put_all(self.listed(shard, number, kind, namespace)?)?;
        }
        Ok(found)
    }

    /// What one shard has of a kind in a namespace at a number.
    fn listed(
        &self,
        shard: usize,
        number: u64,
        kind: Kind,
        namespace: &Text,
    ) -> Result<Vec<Object>, Memory>
        requires stands { Stands self.now }
        requires below { shard < length self.now.shards.items }
        requires kept { self.now.compacted ≤ number }
        ensures { IfOk result (λ objects. objects.items ≡ collection (state_at (shard_at self.now.shards.items shard).records number) kind namespace.now) }
    {
        self.shards[shard].list_at(kind, namespace, number)
    }

    pub(crate) fn crash(&mut self, caller: u64)
        requires stands { Stands self.old }
        requires named { named_phase self.old.callers caller ≢ None }
        ensures done { Does (Crash caller) self.old self.new }
        ensures place { self.new.now_at ≡ self.old.now_at }
    {
        if let Some((_, shard)) = self.held(caller) {
            self.holders[shard] = None;
            self.callers.crash(caller);
            return;
        }
        self.callers.crash(caller);
    }
}

/// How many shards a read of now reads, of so many; nothing for any other request. A list is one of now if `exact` is
/// 0.
#[tactic(auto, unfolding(plain_store::specs::Route::route))]
fn parts_of(request: &Request, shards: usize) -> Option<usize>
    ensures { result ≡ parts_in shards (route request.now) }
{
    match request {
        Request::Get(_) => Some(1),
        Request::List {
            kind: _,
            namespace: _,
            exact,
        } => { if *exact == 0 { Some(shards) } else { None } }
        _ => None,
    }
}

/// The resource version that a list is to be read at, if it is not one of now.
#[tactic(auto, unfolding(plain_store::specs::Route::route))]
fn exact_of(request: &Request) -> Option<u64>
    ensures { result ≡ exact_in (route request.now) }
{
    match request {
        Request::List {
            kind: _,
            namespace: _,
            exact,
        } => { if *exact == 0 { None } else { Some(*exact) } }
        _ => None,
    }
}

/// The number below which a compaction drops the past.
#[tactic(auto, unfolding(plain_store::specs::Route::route))]
fn floor_of(request: &Request) -> Option<u64>
    ensures { result ≡ floor_in (route request.now) }
{
    match request {
        Request::Compact { to } => Some(*to),
        _ => None,
    }
}

/// The reply to a compaction of a store whose floor is a number and which has allocated no other.
fn answer_compaction(number: u64, to: u64) -> Reply
    ensures { result ≡ compaction_at number to (denied number number to) }
{
    if number < to {
        Reply::Refused(Reason::TooLarge)
    } else if to < number {
        Reply::Refused(Reason::Expired)
    } else {
        Reply::Compacted { revision: to }
    }
}
