ghost use Rattle.std.specs.Prelude.{◌≡◌, IfOk};
ghost use Rattle.first_rounds.specs.Obstacles.{first_obstacle};

use crate::planning::refusal_over;
use controllers::SetSpec;
use objects::{Key, Kind, Memory};
use plain_store::Trees;
use sets::PlanError;
use std::alloc::Global;

/// What stops a controller before it plans anything.
#[derive(Drop)]
pub enum Obstacle {
    /// Its set is not there.
    NoSet,
    /// The plan for its set is refused.
    NoPlan(PlanError),
}

/// What stops the first round of a controller of the set over the store, if nothing else changes the store.
#[tactic(auto, unfolding(crate::specs::Obstacles::first_obstacle))]
pub fn first_obstacle(
    alloc: Global,
    set: &SetSpec,
    store: &Trees,
) -> Result<Option<Obstacle>, Memory>
    ensures { IfOk result (λ obstacle. obstacle ≡ first_obstacle set.now store.now) }
{
    let namespace = set.namespace.clone()?;
    let name = set.name.clone()?;
    let key = Key {
        kind: Kind::StatefulSet,
        namespace,
        name,
    };
    match store.find(&key) {
        Some(object) => match refusal_over(alloc, set, store, object)? {
            Some(error) => Ok(Some(Obstacle::NoPlan(error))),
            None => Ok(None),
        },
        None => Ok(Some(Obstacle::NoSet)),
    }
}
