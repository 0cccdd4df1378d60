// The objects at the beginning.
ghost use Rattle.std.specs.Prelude.{◌≡◌, ◌≤◌, ◌<◌, [], IfOk, IsErrOf, OnOk};
ghost use Rattle.race_lines.specs.Looks.{looks_of, objects_begun};
ghost use Rattle.plain_store.specs.Reached.{most_revisions};
ghost use Rattle.plain_store.specs.Run.{after, replies};

use crate::looks::looks_of;
use explorer::Refusal;
use objects::Memory;
use plain::{Reply, Request};
use plain_store::Trees;
use std::alloc::Global;

/// Lists of all objects that a store has after these requests.
///
/// # Errors
///
/// `BadCapacity` if the capacity is not from 1 to 1,048,576.
pub fn objects_begun(
    alloc: Global,
    capacity: u64,
    beginning: &[Request],
) -> Result<Vec<Reply>, Refusal>
    ensures begun { IfOk result (λ begun. begun.items ≡ objects_begun capacity beginning.now) }
    ensures refused { IsErrOf result Refusal.BadCapacity → 1 ≤ capacity → most_revisions < capacity }
    ensures few { IsErrOf result Refusal.TooManyOutcomes → ⊥ }
{
    let mut store = Trees::new(alloc, capacity)?;
    let begun = looked(alloc, &mut store, beginning);
    drop(store);
    Ok(begun?)
}

/// The replies to the looks, behind these requests.
fn looked(alloc: Global, store: &mut Trees, beginning: &[Request]) -> Result<Vec<Reply>, Memory>
    ensures { IfOk result (λ begun. begun.items ≡ replies (after store.old beginning.now) (looks_of beginning.now [])) }
{
    pass(store, beginning)?;
    let looks = looks_of(alloc, beginning, &[])?;
    let begun = replies_to(alloc, store, looks.as_slice());
    drop(looks);
    begun
}

fn pass(store: &mut Trees, requests: &[Request]) -> Result<(), Memory>
    ensures { OnOk result (store.new ≡ after store.old requests.now) }
{
    for request in requests {
        drop(store.take(request.clone()?)?);
    }
    Ok(())
}

fn replies_to(alloc: Global, store: &mut Trees, requests: &[Request]) -> Result<Vec<Reply>, Memory>
    ensures { IfOk result (λ told. told.items ≡ replies store.old requests.now) }
{
    let mut told = Vec::new(alloc);
    for request in requests {
        told.push(store.take(request.clone()?)?)?;
    }
    Ok(told)
}
