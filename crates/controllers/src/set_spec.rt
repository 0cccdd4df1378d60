ghost use Rattle.std.specs.Prelude.{◌≡◌, ◌≤◌, ◌<◌, true, false, length, IfOk, None};
ghost use Rattle.objects.specs.Names.{is_dns_label};

use crate::controller::Controller;
use objects::{Memory, Text};
use std::alloc::Global;

/// What a controller is made of: what `Controller::new` takes.
#[derive(Drop)]
pub struct SetSpec {
    /// The namespace of its StatefulSet, a DNS label (RFC 1123).
    pub namespace: Text,
    /// The name of its StatefulSet, a DNS label (RFC 1123).
    pub name: Text,
    /// How many digits the names of new revisions have, from 1 to 64.
    pub digits: usize,
    /// What pods are marked with for deletion (`metadata.deletionTimestamp`); not empty.
    pub moment: Text,
    ghost namespace_is: { is_dns_label namespace ≡ true },
    ghost name_is: { is_dns_label name ≡ true },
    ghost some: { 1 ≤ digits },
    ghost most: { digits ≤ 64 },
    ghost moment_is: { 0 < length moment },
}

impl SetSpec {
    /// Copies of these values.
    pub fn new(
        alloc: Global,
        namespace: &str,
        name: &str,
        digits: usize,
        moment: &str,
    ) -> Result<SetSpec, Memory>
        requires namespace { is_dns_label namespace.now ≡ true }
        requires name { is_dns_label name.now ≡ true }
        requires some { 1 ≤ digits }
        requires most { digits ≤ 64 }
        requires moment { 0 < length moment.now }
        ensures namespace { IfOk result (λ spec. spec.namespace ≡ namespace.now) }
        ensures name { IfOk result (λ spec. spec.name ≡ name.now) }
        ensures digits { IfOk result (λ spec. spec.digits ≡ digits) }
        ensures moment { IfOk result (λ spec. spec.moment ≡ moment.now) }
    {
        let namespace = Text::copy_of(alloc, namespace)?;
        let name = Text::copy_of(alloc, name)?;
        let moment = Text::copy_of(alloc, moment)?;
        Ok(SetSpec {
            namespace,
            name,
            digits,
            moment,
        })
    }
}

impl Controller {
    ghost use Rattle.rounds.specs.Phase.{reading_set};
    ghost use Rattle.controllers.specs.Controller.{is_waiting, phase_of, reconciler_of, refusal_of, refusals_of, refusals_with};
    ghost use Rattle.controllers.specs.Cluster.{reconciler_for};

    /// A controller that has read nothing.
    pub fn of(alloc: Global, spec: &SetSpec) -> Result<Controller, Memory>
        ensures reconciler { IfOk result (λ controller. reconciler_of controller ≡ reconciler_for spec.now) }
        ensures phase { IfOk result (λ controller. phase_of controller ≡ reading_set) }
        ensures idle { IfOk result (λ controller. is_waiting controller ≡ false) }
        ensures refusal { IfOk result (λ controller. refusal_of controller ≡ None) }
        ensures refusals { IfOk result (λ controller. refusals_of controller ≡ refusals_with spec.now.digits spec.now.moment) }
    {
        Controller::new(
            alloc,
            spec.namespace.as_str(),
            spec.name.as_str(),
            spec.digits,
            spec.moment.as_str(),
        )
    }
}
