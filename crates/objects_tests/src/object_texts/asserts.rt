//! What tests share: objects of texts, texts of objects, and what is asserted of a row.
use objects::{Object, Printed, Printer, ReadError, print_object, read_object};
use std::alloc::Global;
use std::process::Abort;

/// The object of that text.
pub(crate) fn read(alloc: Global, text: &str) -> Result<Object, ReadError> {
    let draft = read_object(alloc, text.as_bytes())?;
    Ok(draft.object)
}

/// Whether the object is printed so.
pub(crate) fn is_printed(
    alloc: Global,
    object: &Object,
    expected: &str,
) -> Result<bool, ReadError> {
    let text = print_object(alloc, object)?;
    Ok(text.as_str() == expected)
}

/// The object as its text, by a printer, or without one.
pub(crate) fn printed(
    alloc: Global,
    printer: Option<&mut Printer>,
    object: Object,
) -> Result<Printed, ReadError> {
    let printed = match printer {
        Some(printer) => printer.print(&object),
        None => Printed::of(alloc, &object),
    };
    drop(object);
    Ok(printed?)
}

/// Asserts that the condition of a row holds.
pub(crate) fn assert_so(rt: &impl Abort, answer: Result<bool, ReadError>, row: &str) {
    match answer {
        Ok(is_so) => assert!(rt; is_so, "of {row}"),
        Err(error) => panic!(rt; "{error:?} of {row}"),
    }
}
