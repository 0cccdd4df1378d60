//! Allocation failures. `rt try --test --fail-alloc N` refuses the Nth allocation of each test. From 1 on, up to an N
//! that no test of this file reaches, each has to pass: one call may run out of memory, and the same call after it has
//! enough.
use crate::object_texts::asserts::{printed, read};
use objects::{Printed, Printer, ReadError, TreeReader, print_object};
use std::alloc::Global;
use std::process::Abort;

/// A pod with each kind of value, and a map of more members than are put in order one by one.
static TEXT: &str =
    r#"{"kind":"Pod","spec":{"r":"\n","q":1,"p":1,"o":1,"n":1,"m":1,"l":1,"k":1,"j":1,"i":1,"h":[[1],[2,3]],"g":"","f":true,"e":null,"d":{},"c":[],"b":-2,"a":1},"metadata":{"uid":"00000000-0000-4000-8000-0000000000ff","resourceVersion":"7","deletionTimestamp":"d","generation":3,"labels":{"tier":"\u00e9","app":"web"},"name":"a","ownerReferences":[{"uid":"x"}]},"status":[1,{"x":"y"}],"apiVersion":"v1"}"#;

/// The same as it is printed.
static PRINTED: &str =
    r#"{"apiVersion":"v1","kind":"Pod","metadata":{"deletionTimestamp":"d","generation":3,"labels":{"app":"web","tier":"é"},"name":"a","namespace":"default","ownerReferences":[{"uid":"x"}],"resourceVersion":"7","uid":"00000000-0000-4000-8000-0000000000ff"},"spec":{"a":1,"b":-2,"c":[],"d":{},"e":null,"f":true,"g":"","h":[[1],[2,3]],"i":1,"j":1,"k":1,"l":1,"m":1,"n":1,"o":1,"p":1,"q":1,"r":"\n"},"status":[1,{"x":"y"}]}"#;

/// The text of the object that is read back from a copy of a printed object.
fn read_back(
    alloc: Global,
    reader: &mut TreeReader,
    printed: &Printed,
) -> Result<String, ReadError> {
    let object = printed.clone()?.object(reader)?;
    let text = print_object(alloc, &object);
    drop(object);
    Ok(text?)
}

fn printed_and_read_back(
    alloc: Global,
    reader: &mut TreeReader,
    printer: Option<&mut Printer>,
) -> Result<String, ReadError> {
    let printed = printed(alloc, printer, read(alloc, TEXT)?)?;
    read_back(alloc, reader, &printed)
}

/// Asserts that the result is `PRINTED`, or that memory ran out; returns whether it is `PRINTED`.
fn is_ample(rt: &impl Abort, answer: Result<String, ReadError>) -> bool {
    match answer {
        Ok(found) => {
            assert!(rt; found.as_str() == PRINTED);
            true
        }
        Err(error) => {
            assert!(rt; error == ReadError::Memory);
            false
        }
    }
}

/// Whether the printing by that printer, or without one, had enough memory.
fn is_ample_by(
    rt: &impl Abort,
    alloc: Global,
    reader: &mut TreeReader,
    printer: Option<&mut Printer>,
) -> bool {
    is_ample(rt, printed_and_read_back(alloc, reader, printer))
}

#[test]
fn objects_are_printed_and_read_back(rt: HostRuntime) {
    let mut reader = TreeReader::new(rt.alloc());
    let mut printer = Printer::new(rt.alloc());
    let first = is_ample_by(&rt, rt.alloc(), &mut reader, Some(&mut printer));
    let second = is_ample_by(&rt, rt.alloc(), &mut reader, Some(&mut printer));
    let third = is_ample_by(&rt, rt.alloc(), &mut reader, None);
    let fourth = is_ample_by(&rt, rt.alloc(), &mut reader, None);
    assert!(rt; (first || second) && (third || fourth));
}
