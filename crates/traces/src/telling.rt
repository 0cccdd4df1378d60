ghost use Rattle.std.specs.Prelude.{◌≡◌, ◌++◌, ℕ, Some, slice_get, IfOk, IfSome, OnOk};
ghost use Rattle.std.specs.BTreeMap.{get};
ghost use Rattle.std.specs.Ordering.{nat_cmp};
ghost use Rattle.rounds.specs.World.{put};
ghost use Rattle.cluster_runs.specs.Ran.{owner_in};
ghost use Rattle.traces.specs.RefusedPlans.{Owners, phase_after, phases_after, refusal_at, refused_plans, told, told_at};
ghost use Rattle.traces.specs.Standing.{AreMade, IsMadeOf, phases_in};

use crate::following::reason_at;
use crate::refused_plan::RefusedPlan;
use controllers::{Controller, SetSpec};
use interleavings::Item;
use objects::Memory;
use requests::Reply;
use set_views::PlanError;
use std::alloc::{AllocError, Global};
use std::collections::BTreeMap;

/// The plans that were refused in a cluster's run, in order, each at the index of the reply that completed its reading,
/// given what the run showed, for each caller the controller that it is or was, and what the controllers are made of. A
/// plan that is refused again in a later round is listed again. A caller that is no controller, or none of these, has
/// no plans.
pub fn refused_plans(
    alloc: Global,
    items: &[Item],
    owners: &BTreeMap<u64, Option<usize>>,
    sets: &[SetSpec],
) -> Result<Vec<RefusedPlan>, Memory>
    ensures { IfOk result (λ found. found.items ≡ refused_plans (owner_in owners.now) sets.now items.now) }
{
    let mut standing = BTreeMap::new(alloc);
    let mut found = Vec::new(alloc);
    for item in items {
        put_item(alloc, owners, sets, &mut standing, item, &mut found)?;
    }
    Ok(found)
}

/// Appends the refused plan of an item, if it has one. `standing` has the controllers that follow the callers.
fn put_item(
    alloc: Global,
    owners: &BTreeMap<u64, Option<usize>>,
    sets: &[SetSpec],
    standing: &mut BTreeMap<u64, Controller>,
    item: &Item,
    found: &mut Vec<RefusedPlan>,
) -> Result<(), Memory>
    requires { AreMade (owner_in owners.now) sets.now standing.old }
    ensures told { OnOk result (found.new.items ≡ found.old.items ++ told_at (owner_in owners.now) sets.now (phases_in standing.old) item.now) }
    ensures phases { OnOk result ((n : ℕ) → phases_in standing.new n ≡ phases_after (owner_in owners.now) sets.now (phases_in standing.old) item.now n) }
    ensures made { OnOk result (AreMade (owner_in owners.now) sets.now standing.new) }
{
    let Item::Reply {
        place,
        caller,
        reply,
    } = item
    else {
        return Ok(());
    };
    let Some(controller) = owner_of(owners, *caller) else {
        return Ok(());
    };
    let reason = reason_of(alloc, sets, controller, standing, *caller, reply)?;
    tell(*place, controller, reason, found)?;
    Ok(())
}

/// The controller that a caller is or was.
fn owner_of(owners: &BTreeMap<u64, Option<usize>>, caller: u64) -> Option<usize>
    ensures { result ≡ owner_in owners.now caller }
{
    *owners.get(&caller)?
}

/// Lets a caller of the controller handle a reply, and returns why the plan is refused, if the reply completes the
/// reading for a plan that is.
fn reason_of(
    alloc: Global,
    sets: &[SetSpec],
    controller: usize,
    standing: &mut BTreeMap<u64, Controller>,
    caller: u64,
    reply: &Reply,
) -> Result<Option<PlanError>, Memory>
    requires { IfSome (get nat_cmp standing.old caller) (IsMadeOf (slice_get sets.now controller)) }
    ensures reason { IfOk result (λ reason. reason ≡ refusal_at (slice_get sets.now controller) (phases_in standing.old caller) reply.now) }
    ensures phases { OnOk result ((n : ℕ) → phases_in standing.new n
        ≡ put (phases_in standing.old) caller (phase_after (slice_get sets.now controller) (phases_in standing.old caller) reply.now) n) }
    ensures made { OnOk result ((owners : Owners) → owners caller ≡ Some controller
        → AreMade owners sets.now standing.old → AreMade owners sets.now standing.new) }
{
    match sets.get(controller) {
        Some(spec) => reason_at(alloc, spec, standing, caller, reply),
        None => Ok(None),
    }
}

fn tell(
    place: u64,
    controller: usize,
    reason: Option<PlanError>,
    found: &mut Vec<RefusedPlan>,
) -> Result<(), AllocError>
    ensures { OnOk result (found.new.items ≡ found.old.items ++ told place (Some controller) reason) }
{
    if let Some(reason) = reason {
        found.push(RefusedPlan {
            place,
            controller,
            reason,
        })?;
    }
    Ok(())
}
