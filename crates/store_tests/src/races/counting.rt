// A store that counts its requests.
use interleavings::Item;
use objects::{Key, Kind, Memory, Text};
use racing::SharedStore;
use requests::{Reason, Reply, Request};
use std::sync::Wait;
use std::sync::atomic::{AtomicU64, Ordering};
use std::thread::yield_now;
use store::{Gate, StoreError};

/// How often a thread looks for requests of others.
const TURNS: u64 = 1_000_000_000;

/// How many requests of four others come before the first compaction is carried out: one of these then has sent three,
/// and got the reply to the second in between.
const OTHERS: u64 = 9;

/// A store, how many requests of each of these kinds it got, how many compactions were accepted, and how many were
/// above the frontier.
pub(crate) struct Counting<'a, S> {
    store: &'a S,
    writes: AtomicU64,
    lists: AtomicU64,
    compactions: AtomicU64,
    compacted: AtomicU64,
    ahead: AtomicU64,
}

impl<S> Drop for Counting<'_, S> {
    fn drop(self) {
        let Counting {
            store: _,
            writes,
            lists,
            compactions,
            compacted,
            ahead,
        } = self;
        drop(writes);
        drop(lists);
        drop(compactions);
        drop(compacted);
        drop(ahead);
    }
}

fn add_one(count: &AtomicU64) {
    count.fetch_add(1, Ordering::SeqCst);
}

fn has_counted(count: &AtomicU64, expected: u64) -> bool {
    count.load(Ordering::SeqCst) == expected
}

impl<'a, S> Counting<'a, S> {
    pub(crate) fn of(store: &'a S) -> Counting<'a, S> {
        Counting {
            store,
            writes: AtomicU64::new(0),
            lists: AtomicU64::new(0),
            compactions: AtomicU64::new(0),
            compacted: AtomicU64::new(0),
            ahead: AtomicU64::new(0),
        }
    }

    /// Whether it got as many compactions, of which some were accepted and none was above the frontier, and as many
    /// writes and lists as were noted.
    pub(crate) fn agrees(&self, items: &[Item], compactions: u64) -> bool {
        has_counted(&self.compactions, compactions)
            && !has_counted(&self.compacted, 0)
            && has_counted(&self.ahead, 0)
            && has_counted(&self.writes, count_of(items, Wanted::Write))
            && has_counted(&self.lists, count_of(items, Wanted::List))
    }

    fn asked(&self) -> u64 {
        let writes = self.writes.load(Ordering::SeqCst);
        writes.wrapping_add(self.lists.load(Ordering::SeqCst))
    }

    /// Waits until so many more writes and lists have come.
    fn wait_for(&self, more: u64) {
        let last = self.asked().wrapping_add(more);
        for _ in 0..TURNS {
            if self.asked() >= last {
                return;
            }
            yield_now();
        }
    }

    fn note_compaction(&self, reply: &Reply) {
        match reply {
            Reply::Compacted { revision: _ } => add_one(&self.compacted),
            Reply::Refused(Reason::TooLarge) => add_one(&self.ahead),
            _ => {}
        }
    }
}

impl<S: SharedStore> SharedStore for Counting<'_, S> {
    type Caller = S::Caller;

    type Ticket = S::Ticket;

    ghost shards = { S.shards };

    ghost capacity = { S.capacity };

    ghost known = { S.known };

    ghost asked = { S.asked };

    ghost since_of = { S.since_of };

    ghost place_of = { S.place_of };

    ghost is_of = { S.is_of };

    fn caller<R: Wait>(&self, rt: &R) -> Result<S::Caller, StoreError> {
        self.store.caller(rt)
    }

    fn submit<R: Wait, G: Gate>(
        &self,
        rt: &R,
        caller: &mut S::Caller,
        request: Request,
        gate: &G,
    ) -> Result<S::Ticket, Memory> {
        add_one(&self.writes);
        self.store.submit(rt, caller, request, gate)
    }

    fn try_reply(&self, ticket: &mut S::Ticket, caller: &mut S::Caller) -> Option<Reply> {
        self.store.try_reply(ticket, caller)
    }

    fn place(&self, ticket: &S::Ticket) -> u64 {
        self.store.place(ticket)
    }

    fn get<R: Wait>(&self, rt: &R, caller: &mut S::Caller, key: &Key) -> Result<Reply, Memory> {
        self.store.get(rt, caller, key)
    }

    fn list<R: Wait>(
        &self,
        rt: &R,
        caller: &mut S::Caller,
        kind: Kind,
        namespace: &Text,
    ) -> Result<Reply, Memory> {
        add_one(&self.lists);
        self.store.list(rt, caller, kind, namespace)
    }

    fn list_at<R: Wait>(
        &self,
        rt: &R,
        caller: &mut S::Caller,
        kind: Kind,
        namespace: &Text,
        exact: u64,
    ) -> Result<Reply, Memory> {
        add_one(&self.lists);
        self.store.list_at(rt, caller, kind, namespace, exact)
    }

    /// The first one waits for requests of others.
    fn compact<R: Wait>(&self, rt: &R, caller: &mut S::Caller, to: u64) -> Reply {
        if self.compactions.fetch_add(1, Ordering::SeqCst) == 0 {
            self.wait_for(OTHERS);
        }
        let reply = self.store.compact(rt, caller, to);
        self.note_compaction(&reply);
        reply
    }

    fn seen(&self, caller: &S::Caller) -> u64 {
        self.store.seen(caller)
    }
}

#[derive(Clone, Copy, PartialEq)]
enum Wanted {
    Write,
    List,
}

fn is_wanted(item: &Item, wanted: Wanted) -> bool {
    match item {
        Item::Call {
            place: _,
            caller: _,
            request: Request::List {
                kind: _,
                namespace: _,
                exact: _,
            },
        } => wanted == Wanted::List,
        Item::Call {
            place: _,
            caller: _,
            request,
        } => wanted == Wanted::Write && request.is_write(),
        Item::Reply {
            place: _,
            caller: _,
            reply: _,
        } => false,
    }
}

/// How many there are of these.
fn count_of(items: &[Item], wanted: Wanted) -> u64 {
    let mut count = 0u64;
    for item in items {
        if is_wanted(item, wanted) {
            count = count.wrapping_add(1);
        }
    }
    count
}

fn is_by(item: &Item, asker: u64) -> bool {
    match item {
        Item::Call {
            place: _,
            caller,
            request: _,
        } => *caller == asker,
        Item::Reply {
            place: _,
            caller,
            reply: _,
        } => *caller == asker,
    }
}

fn is_call(item: &Item) -> bool {
    match item {
        Item::Call {
            place: _,
            caller: _,
            request: _,
        } => true,
        Item::Reply {
            place: _,
            caller: _,
            reply: _,
        } => false,
    }
}

/// The most calls and replies of others that came between a reply to a caller and its next call.
pub(crate) fn longest_pause(items: &[Item], asker: u64) -> u64 {
    let mut longest = 0u64;
    let mut others = 0u64;
    let mut replied = false;
    for item in items {
        if !is_by(item, asker) {
            others = others.wrapping_add(1);
        } else {
            if replied && is_call(item) {
                longest = longest.max(others);
            }
            replied = !is_call(item);
            others = 0;
        }
    }
    longest
}

/// How many calls and replies a caller has.
pub(crate) fn count_by(items: &[Item], asker: u64) -> u64 {
    let mut count = 0u64;
    for item in items {
        if is_by(item, asker) {
            count = count.wrapping_add(1);
        }
    }
    count
}
