// The operator's turns.
ghost use Rattle.std.specs.Prelude.{IfOk};
ghost use Rattle.racing.specs.Parts.{HasOperated};

use crate::field::RaceContext;
use crate::shared::SharedStore;
use objects::Memory;
use race_log::{TimedExchange, operator_request};
use std::sync::Wait;
use store::Gate;

/// As many turns as each controller makes rounds. Each turn waits until the controllers together have begun as many
/// rounds as they would have by then at an even pace. A refusal is ignored.
#[tactic(auto, using(crate::proofs::Operating::operated_first))]
pub(crate) fn run_operator<S: SharedStore, R: Wait, G: Gate>(
    rt: &R,
    field: &RaceContext<'_, S, G>,
    mut caller: S::Caller,
) -> Result<Vec<TimedExchange>, Memory>
    ensures { IfOk result (λ exchanges. HasOperated S.shards S.capacity field.now.course.now.spec.replicas field.now.course.now.spec.rounds exchanges.items) }
{
    let controllers = field.course.spec.controllers;
    let mut exchanges = Vec::new(field.course.alloc);
    for turn in 0..field.course.spec.rounds {
        field
            .course
            .wait_for_rounds(rt, turn.saturating_mul(controllers));
        let request = operator_request(field.course.alloc, field.course.spec.replicas, turn)?;
        field.ask(rt, &mut caller, &mut exchanges, request)?;
    }
    Ok(exchanges)
}
