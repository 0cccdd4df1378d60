//! What one controller sends, and what it does after replies that a store does not give, or that it does not wait for.
use crate::sample::{GET_SET, LIST_CLAIMS, LIST_SETS, Named, ONE, STATUS};
use crate::turns::{Turn, turns_hold};
use std::process::Abort;
use std::test::Fail;

const BAD: &str =
    r#"{"do":"create","object":{"kind":"StatefulSet","metadata":{"name":"web"},"spec":{"replicas":-1,"template":{}}}}"#;

const GOOD: &str =
    r#"{"do":"update","object":{"kind":"StatefulSet","metadata":{"name":"web"},"spec":{"replicas":1,"template":{}}}}"#;

const TOO_LARGE: &str =
    r#"{"do":"update","object":{"kind":"StatefulSet","metadata":{"name":"web"},"spec":{"ordinals":{"start":2147483647},"replicas":2,"template":{}}}}"#;

const TO_NONE: &str =
    r#"{"do":"update","object":{"kind":"StatefulSet","metadata":{"name":"web"},"spec":{"replicas":0,"template":{}}}}"#;

const TWO_CLAIMS: &str =
    r#"{"do":"create","object":{"kind":"StatefulSet","metadata":{"name":"web"},"spec":{"persistentVolumeClaimRetentionPolicy":{"whenDeleted":"Delete"},"replicas":1,"template":{},"volumeClaimTemplates":[{"metadata":{"name":"data"}},{"metadata":{"name":"logs"}}]}}}"#;

const DELETE: &str = r#"{"do":"delete","kind":"StatefulSet","name":"web"}"#;

const DELETE_POD: Named = ("delete", "Pod", "web-0");

const DELETE_DATA: Named = ("delete", "PersistentVolumeClaim", "data-web-0");

const DELETE_LOGS: Named = ("delete", "PersistentVolumeClaim", "logs-web-0");

/// The idea, and what happens. If the set does not exist, a controller has listed the claims after two requests, and
/// waits for the list of sets.
static ROWS: [(&str, &[Turn]); 4] = [
    (
        "a reply is taken once; one of another kind ends the round, and so does a crash",
        &[
            Turn::Next(GET_SET),
            Turn::Next(GET_SET),
            Turn::Told("NotFound"),
            Turn::Next(LIST_CLAIMS),
            Turn::Goes(1),
            Turn::Told("NotFound"),
            Turn::Next(LIST_SETS),
            Turn::Told("Compacted"),
            Turn::Next(GET_SET),
            Turn::Goes(2),
            Turn::Next(LIST_SETS),
            Turn::Crash,
            Turn::Next(GET_SET),
        ],
    ),
    (
        // Nine requests after a refusal are the five lists of the collection, and a get and three lists of the next round.
        "a refused plan is told until the next one is made or refused, or a crash",
        &[
            Turn::Line(BAD),
            Turn::Refused("none"),
            Turn::Goes(4),
            Turn::Refused("BadSpec"),
            Turn::Line(TOO_LARGE),
            Turn::Goes(8),
            Turn::Refused("BadSpec"),
            Turn::Goes(1),
            Turn::Refused("OrdinalTooLarge"),
            Turn::Crash,
            Turn::Refused("none"),
            Turn::Goes(4),
            Turn::Refused("OrdinalTooLarge"),
            Turn::Line(GOOD),
            Turn::Goes(8),
            Turn::Refused("OrdinalTooLarge"),
            Turn::Goes(1),
            Turn::Refused("none"),
        ],
    ),
    (
        // Ten requests make the revision, and eleven the pod and the status. The deletes are not passed to the store.
        "a pod may be removed, be marked or stay as it is",
        &[
            Turn::Line(ONE),
            Turn::Goes(21),
            Turn::Line(TO_NONE),
            Turn::Goes(4),
            Turn::Next(DELETE_POD),
            Turn::Told("Removed"),
            Turn::Next(STATUS),
            Turn::Crash,
            Turn::Goes(4),
            Turn::Next(DELETE_POD),
            Turn::Told("Marked"),
            Turn::Next(STATUS),
            Turn::Crash,
            Turn::Goes(4),
            Turn::Next(DELETE_POD),
            Turn::Told("Unchanged"),
            Turn::Next(STATUS),
        ],
    ),
    (
        // Ten requests make the revision, and thirteen two claims, the pod and the status.
        "a claim may be removed, be marked or stay as it is",
        &[
            Turn::Line(TWO_CLAIMS),
            Turn::Goes(23),
            Turn::Line(DELETE),
            Turn::Goes(6),
            Turn::Next(DELETE_DATA),
            Turn::Told("Removed"),
            Turn::Next(DELETE_LOGS),
            Turn::Crash,
            Turn::Goes(6),
            Turn::Next(DELETE_DATA),
            Turn::Told("Marked"),
            Turn::Next(DELETE_LOGS),
            Turn::Crash,
            Turn::Goes(6),
            Turn::Next(DELETE_DATA),
            Turn::Told("Unchanged"),
            Turn::Next(DELETE_LOGS),
        ],
    ),
];

fn assert_so(rt: &impl Abort, is_so: bool, row: &str) {
    assert!(rt; is_so, "of {row}");
}

#[test]
fn a_controller_asks_in_turn(rt: HostRuntime) -> Result<(), Fail> {
    for row in ROWS.iter() {
        assert_so(&rt, turns_hold(rt.alloc(), row.1)?, row.0);
    }
    Ok(())
}
