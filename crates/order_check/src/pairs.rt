// The calls of a trace and their replies, by the places of the calls.
ghost use Rattle.std.specs.Prelude.{◌≡◌, ◌≢◌, ◌↔◌, ℕ, IfOk, IsTrue, None};
ghost use Rattle.std.specs.BTreeMap.{get};
ghost use Rattle.std.specs.Ordering.{nat_cmp};
ghost use Rattle.interleavings.specs.Linearization.{IsHistory};
ghost use Rattle.order_check.specs.Pairing.{AreFound, IsAfter, IsCall, IsRead, IsReply, MayCome, seen};

use interleavings::Item;
use objects::Memory;
use std::alloc::Global;
use std::collections::BTreeMap;

/// What is found of a trace as its items are read one after another.
#[derive(Drop)]
pub(crate) struct Pairs {
    /// The place of the last item.
    pub last: Option<u64>,
    /// By its caller, the place of each call that has no reply yet.
    pub awaited: BTreeMap<u64, u64>,
    /// By its place, the index of each call.
    pub calls: BTreeMap<u64, usize>,
    /// By the place of its call, the index of each reply.
    pub answers: BTreeMap<u64, usize>,
}

impl Pairs {
    pub(crate) fn new(alloc: Global) -> Pairs
        ensures last { result.last ≡ None }
        ensures awaited { (c : ℕ) → get nat_cmp result.awaited c ≡ None }
        ensures answers { (p : ℕ) → get nat_cmp result.answers p ≡ None }
    {
        Pairs {
            last: None,
            awaited: BTreeMap::new(alloc),
            calls: BTreeMap::new(alloc),
            answers: BTreeMap::new(alloc),
        }
    }

    /// Reads a trace from its first item on, and says whether it is a history.
    pub(crate) fn read(&mut self, items: &[Item]) -> Result<bool, Memory>
        requires last { self.old.last ≡ None }
        requires awaited { (c : ℕ) → get nat_cmp self.old.awaited c ≡ None }
        requires answers { (p : ℕ) → get nat_cmp self.old.answers p ≡ None }
        ensures history { IfOk result (λ yes. IsTrue yes ↔ IsHistory items.now) }
        ensures found { IfOk result (λ yes. IsTrue yes → AreFound items.now items.now (get nat_cmp self.new.calls) (get nat_cmp self.new.answers)) }
    {
        for index in 0..items.len() {
            if !self.put(index, &items[index])? {
                return Ok(false);
            }
        }
        Ok(true)
    }

    fn put(&mut self, index: usize, item: &Item) -> Result<bool, Memory>
        ensures read { IfOk result (λ yes. IsTrue yes → IsRead index item.now (seen self.old) (seen self.new)) }
        ensures may { IfOk result (λ yes. MayCome item.now (seen self.old) → IsTrue yes) }
    {
        match item {
            Item::Call {
                place,
                caller,
                request: _,
            } => self.put_call(index, *place, *caller),
            Item::Reply {
                place,
                caller,
                reply: _,
            } => self.put_reply(index, *place, *caller),
        }
    }

    fn put_call(&mut self, index: usize, place: u64, caller: u64) -> Result<bool, Memory>
        ensures read { IfOk result (λ yes. IsTrue yes → IsCall index place caller (seen self.old) (seen self.new)) }
        ensures may { IfOk result (λ yes. IsAfter self.old.last place → get nat_cmp self.old.awaited caller ≡ None → IsTrue yes) }
    {
        if !is_after(self.last, place) {
            return Ok(false);
        }
        if self.awaited.contains_key(&caller) {
            return Ok(false);
        }
        self.last = Some(place);
        self.awaited.insert(caller, place)?;
        self.calls.insert(place, index)?;
        Ok(true)
    }

    fn put_reply(&mut self, index: usize, place: u64, caller: u64) -> Result<bool, Memory>
        ensures read { IfOk result (λ yes. IsTrue yes → IsReply index place caller (seen self.old) (seen self.new)) }
        ensures may { IfOk result (λ yes. IsAfter self.old.last place → get nat_cmp self.old.awaited caller ≢ None → IsTrue yes) }
    {
        if !is_after(self.last, place) {
            return Ok(false);
        }
        let Some(called) = self.awaited.remove(&caller) else {
            return Ok(false);
        };
        self.last = Some(place);
        self.answers.insert(called, index)?;
        Ok(true)
    }
}

fn is_after(last: Option<u64>, place: u64) -> bool
    ensures { IsTrue result ↔ IsAfter last place }
{
    match last {
        Some(last) => last < place,
        None => true,
    }
}
