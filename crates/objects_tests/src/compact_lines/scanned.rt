// What a scanner makes of a line, and what a row must be.
use compact::Scanner;
use std::alloc::{AllocError, Global};
use std::process::Abort;

/// The text that a scanner makes of a line, if it accepts it.
pub(crate) fn scanned(
    alloc: Global,
    scanner: &mut Scanner,
    line: &str,
) -> Result<Option<Vec<u8>>, AllocError> {
    let mut text = Vec::from_slice(alloc, line.as_bytes())?;
    if scanner.scan(&mut text) {
        Ok(Some(text))
    } else {
        Ok(None)
    }
}

pub(crate) fn assert_so(rt: &impl Abort, is_so: bool, row: &str) {
    assert!(rt; is_so, "of {row}");
}
