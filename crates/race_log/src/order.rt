// The order of a race.
ghost use Rattle.std.specs.Prelude.{◌≡◌, IfOk, map};
ghost use Rattle.race_log.specs.Order.{IsOrderOf};
ghost use Rattle.race_log.specs.declared.stamp.Stamp.{Stamp};

use crate::stamp::Stamp;
use objects::Memory;
use std::alloc::Global;

/// The stamps in the order of the race.
pub(crate) fn in_order(stamps: Vec<Stamp>) -> Result<Vec<Stamp>, Memory>
    ensures { IfOk result (λ order. IsOrderOf stamps.items order.items) }
{
    let mut order = stamps;
    order.sort()?;
    Ok(order)
}

/// The indices of their calls.
pub(crate) fn calls_of(alloc: Global, stamps: &[Stamp]) -> Result<Vec<u64>, Memory>
    ensures { IfOk result (λ calls. calls.items ≡ map (λ (s : Stamp). s.call) stamps.now) }
{
    Ok(stamps.iter().map(|stamp| stamp.call).collect(alloc)?)
}
