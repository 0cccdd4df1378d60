// The roles of callers in a race.
ghost use Rattle.std.specs.Prelude.{◌≡◌};
ghost use Rattle.scripts.specs.RaceHistory.{role_of};

use race_log::RaceSpec;

/// The role of a caller in a race.
#[derive(Clone, Copy, Drop)]
pub(crate) enum Role {
    Controller,
    Kubelet,
    Operator,
    /// The caller that creates the set, or one that has no part in the race.
    Other,
}

/// Callers are known by their numbers: first come the controllers', then the kubelet's, then that of the caller that
/// creates the set, and the operator's.
pub(crate) fn role_of(spec: &RaceSpec, caller: u64) -> Role
    ensures { result ≡ role_of spec.now caller }
{
    if caller < spec.controllers {
        Role::Controller
    } else if caller == spec.controllers {
        Role::Kubelet
    } else if spec.operator && caller - spec.controllers == 2 {
        Role::Operator
    } else {
        Role::Other
    }
}
