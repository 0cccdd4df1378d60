//! What tests assert of a row.
use std::process::Abort;

pub(crate) fn assert_so(rt: &impl Abort, is_so: bool, row: &str) {
    assert!(rt; is_so, "{row}");
}
