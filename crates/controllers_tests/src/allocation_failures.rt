//! Allocation failures. `checks/allocations` refuses each allocation of each test in turn, and each test has to pass. A
//! test says nothing if its own setup is refused memory.
use crate::sample::{GET_SET, LIST_CLAIMS, LIST_PODS, LIST_REVISIONS, LIST_SETS, STATUS};
use crate::turns::{Turn, turns_hold};
use crate::{clusters, wholes};

/// One of two runs is refused no allocation, and reaches its end.
#[test]
fn a_run_ends_at_an_allocation_failure(rt: HostRuntime) {
    let (Ok(first), Ok(second)) = (wholes::ran(rt.alloc()), wholes::ran(rt.alloc())) else {
        return;
    };
    assert!(rt; first.0 && second.0);
    assert!(rt; first.1 || second.1);
}

/// One of two runs is refused no allocation.
#[test]
fn a_cluster_ends_at_an_allocation_failure(rt: HostRuntime) {
    let first = clusters::ran(rt.alloc());
    let second = clusters::ran(rt.alloc());
    assert!(rt; first.is_ok() || second.is_ok());
    assert!(rt; first.unwrap_or(true) && second.unwrap_or(true));
}

const MAKE: &str =
    r#"{"do":"create","object":{"kind":"StatefulSet","metadata":{"name":"web"},"spec":{"persistentVolumeClaimRetentionPolicy":{"whenDeleted":"Delete"},"replicas":1,"template":{},"volumeClaimTemplates":[{"metadata":{"name":"data"}}]}}}"#;

const DELETE: &str = r#"{"do":"delete","kind":"StatefulSet","name":"web"}"#;

/// The first two rounds of a set with a claim, the round after its deletion, and the start of the next one.
static PHASES: [Turn; 4] = [
    Turn::Line(MAKE),
    Turn::Asks(&[
        GET_SET,
        LIST_REVISIONS,
        LIST_PODS,
        LIST_CLAIMS,
        ("create", "ControllerRevision", "web-10203acf9b"),
        LIST_CLAIMS,
        LIST_SETS,
        LIST_PODS,
        LIST_REVISIONS,
        LIST_CLAIMS,
        GET_SET,
        LIST_REVISIONS,
        LIST_PODS,
        LIST_CLAIMS,
        ("create", "PersistentVolumeClaim", "data-web-0"),
        ("create", "Pod", "web-0"),
        STATUS,
        LIST_CLAIMS,
        LIST_SETS,
        LIST_PODS,
        LIST_REVISIONS,
        LIST_CLAIMS,
    ]),
    Turn::Line(DELETE),
    Turn::Asks(&[
        GET_SET,
        LIST_CLAIMS,
        LIST_SETS,
        LIST_PODS,
        LIST_REVISIONS,
        LIST_CLAIMS,
        ("delete", "PersistentVolumeClaim", "data-web-0"),
        GET_SET,
    ]),
];

#[test]
fn a_controller_goes_on_after_an_allocation_failure(rt: HostRuntime) {
    assert!(rt; turns_hold(rt.alloc(), PHASES.as_slice()).unwrap_or(true));
}
