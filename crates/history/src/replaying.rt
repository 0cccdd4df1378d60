use crate::machine::Machine;
use crate::names::NamedCallers;
use std::marker::Model;

/// A run so far, one event after another. Some list of events leads to each, so a step requires only room for one more
/// event.
#[derive(Drop)]
pub struct Replay {
    pub(crate) machine: Machine,
    pub(crate) names: NamedCallers,
}

impl Model for Replay {
    ghost use Rattle.history.specs.After.{IsReached, ReplayParts, replay_coded};

    ghost Value = { ReplayParts };

    ghost coded = { replay_coded };

    ghost view = { λ r. record { machine = r.machine; names = r.names } };

    ghost invariant = { λ r. IsReached (record { machine = r.machine; names = r.names }) };
}
