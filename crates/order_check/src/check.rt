ghost use Rattle.std.specs.Prelude.{◌≡◌, ◌≤◌, ℕ, IfOk, IsTrue};
ghost use Rattle.std.specs.BTreeMap.{get};
ghost use Rattle.std.specs.Ordering.{nat_cmp};
ghost use Rattle.plain_store.specs.Reached.{most_revisions};
ghost use Rattle.plain_store.specs.Store.{opening};
ghost use Rattle.interleavings.specs.Linearization.{IsHistory, IsLegal};
ghost use Rattle.order_check.specs.Pairing.{AreFound};

use crate::pairs::Pairs;
use crate::walk::Walk;
use interleavings::{Item, Trace};
use objects::{Memory, Printer};
use plain_store::Trees;
use std::alloc::Global;

/// Whether the order, by the places of the calls, explains the trace. A yes means that the trace is a history, and that
/// the order is a legal one of it. At a capacity that a plain store may have, a no means that one of the two does not
/// hold. So the answer is no if places do not rise, if a caller calls again before its reply or gets a reply that it
/// does not wait for, or if the order has a place at which nothing was called. Places may have gaps, and the order may
/// leave out a call without a reply. Neither the trace nor the order is trusted, whoever made them.
///
/// One plain store handles the requests in that order. All else takes time within n log n.
pub fn check_order(alloc: Global, trace: &Trace, order: &[u64]) -> Result<bool, Memory>
    ensures history { IfOk result (λ yes. IsTrue yes → IsHistory trace.now.items.items) }
    ensures legal { IfOk result (λ yes. IsTrue yes → IsLegal trace.now.capacity trace.now.items.items order.now) }
    ensures complete { 1 ≤ trace.now.capacity → trace.now.capacity ≤ most_revisions
        → IfOk result (λ yes. IsHistory trace.now.items.items → IsLegal trace.now.capacity trace.now.items.items order.now → IsTrue yes) }
{
    match Trees::new(alloc, trace.capacity) {
        Ok(store) => explains(alloc, store, trace.items.as_slice(), order),
        Err(_) => Ok(false),
    }
}

/// As `check_order`, by a store that has handled nothing yet.
fn explains(alloc: Global, store: Trees, items: &[Item], order: &[u64]) -> Result<bool, Memory>
    ensures history { IfOk result (λ yes. IsTrue yes → IsHistory items.now) }
    ensures legal { (capacity : ℕ) → store ≡ opening capacity → IfOk result (λ yes. IsTrue yes → IsLegal capacity items.now order.now) }
    ensures complete { (capacity : ℕ) → store ≡ opening capacity
        → IfOk result (λ yes. IsHistory items.now → IsLegal capacity items.now order.now → IsTrue yes) }
{
    let mut pairs = Pairs::new(alloc);
    match pairs.read(items) {
        Ok(true) => follows(alloc, store, pairs, items, order),
        refused => {
            drop(pairs);
            drop(store);
            refused
        }
    }
}

/// Whether the order is a legal one, by the calls and replies of a history.
fn follows(
    alloc: Global,
    store: Trees,
    pairs: Pairs,
    items: &[Item],
    order: &[u64],
) -> Result<bool, Memory>
    requires { AreFound items.now items.now (get nat_cmp pairs.calls) (get nat_cmp pairs.answers) }
    ensures legal { (capacity : ℕ) → store ≡ opening capacity → IfOk result (λ yes. IsTrue yes → IsLegal capacity items.now order.now) }
    ensures complete { (capacity : ℕ) → store ≡ opening capacity → IfOk result (λ yes. IsLegal capacity items.now order.now → IsTrue yes) }
{
    let Pairs {
        last: _,
        awaited,
        calls,
        answers,
    } = pairs;
    drop(awaited);
    let mut walk = Walk {
        calls,
        answers,
        store,
        latest: 0,
        printer: Printer::new(alloc),
    };
    let answer = walk.follow(items, order);
    drop(walk);
    answer
}
