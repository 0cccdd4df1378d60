//! Printed objects at another resource version, with another status, and with an update in their place, if no line
//! makes such an object: one without a version or a generation, and generations above 32 bits. Some texts have an
//! offset where a version and a status can be put in, and others have to be read.
use crate::object_texts::asserts::{assert_so, is_printed, printed, read};
use objects::{Object, Printed, Printer, ReadError, Tree, TreeReader, read_tree};
use std::alloc::Global;

/// An object, what is printed of it once a write gives it a status and a version, and then at version 65536.
struct Rewrite {
    before: &'static str,
    status: &'static str,
    revision: u64,
    after: &'static str,
    moved: &'static str,
}

static REWRITES: [Rewrite; 4] = [
    // from no version, and to none
    Rewrite {
        before: r#"{"kind":"Pod","metadata":{"name":"b"},"status":1}"#,
        status: "true",
        revision: 1,
        after: r#"{"kind":"Pod","metadata":{"name":"b","namespace":"default","resourceVersion":"1"},"status":true}"#,
        moved: r#"{"kind":"Pod","metadata":{"name":"b","namespace":"default","resourceVersion":"65536"},"status":true}"#,
    },
    Rewrite {
        before: r#"{"kind":"Pod","metadata":{"name":"b","resourceVersion":"2"},"status":1}"#,
        status: "-1",
        revision: 0,
        after: r#"{"kind":"Pod","metadata":{"name":"b","namespace":"default"},"status":-1}"#,
        moved: r#"{"kind":"Pod","metadata":{"name":"b","namespace":"default","resourceVersion":"65536"},"status":-1}"#,
    },
    // the greatest version, with a member after the status, and without
    Rewrite {
        before: r#"{"kind":"Pod","metadata":{"name":"b","resourceVersion":"8"},"status":1,"zone":2}"#,
        status: "3",
        revision: 18_446_744_073_709_551_615,
        after: r#"{"kind":"Pod","metadata":{"name":"b","namespace":"default","resourceVersion":"18446744073709551615"},"status":3,"zone":2}"#,
        moved: r#"{"kind":"Pod","metadata":{"name":"b","namespace":"default","resourceVersion":"65536"},"status":3,"zone":2}"#,
    },
    Rewrite {
        before: r#"{"kind":"Pod","metadata":{"name":"b","resourceVersion":"8","uid":"00000000-0000-4000-8000-0000000000ff"},"status":1}"#,
        status: "3",
        revision: 18_446_744_073_709_551_615,
        after: r#"{"kind":"Pod","metadata":{"name":"b","namespace":"default","resourceVersion":"18446744073709551615","uid":"00000000-0000-4000-8000-0000000000ff"},"status":3}"#,
        moved: r#"{"kind":"Pod","metadata":{"name":"b","namespace":"default","resourceVersion":"65536","uid":"00000000-0000-4000-8000-0000000000ff"},"status":3}"#,
    },
];

/// What reads and prints.
#[derive(Drop)]
struct Tools {
    reader: TreeReader,
    printer: Printer,
}

fn new_tools(alloc: Global) -> Tools {
    Tools {
        reader: TreeReader::new(alloc),
        printer: Printer::new(alloc),
    }
}

/// The object of the text, printed.
fn text_of(alloc: Global, tools: &mut Tools, text: &str) -> Result<Printed, ReadError> {
    printed(alloc, Some(&mut tools.printer), read(alloc, text)?)
}

/// Whether the text is that of the object that is read back from it, with that version.
fn is_text(
    alloc: Global,
    tools: &mut Tools,
    printed: &Printed,
    text: &str,
    revision: u64,
) -> Result<bool, ReadError> {
    let object = printed.object(&mut tools.reader)?;
    let same_uid = object.meta.uid == printed.uid();
    let again = is_printed(alloc, &object, text);
    drop(object);
    Ok(again? && same_uid && printed.as_str() == text && printed.revision() == revision)
}

/// Whether that status is found different from the one that the object had before.
fn is_told(
    tools: &mut Tools,
    before: &Printed,
    after: &Printed,
    status: &Tree,
) -> Result<bool, ReadError> {
    let had = before.has_status(&mut tools.reader, Some(status))?;
    Ok(!had && after.has_status(&mut tools.reader, Some(status))?)
}

fn is_moved(
    alloc: Global,
    tools: &mut Tools,
    after: &Printed,
    row: &Rewrite,
) -> Result<bool, ReadError> {
    let moved = after.at_version(&mut tools.reader, &mut tools.printer, 65_536)?;
    is_text(alloc, tools, &moved, row.moved, 65_536)
}

/// The text with that status at that version.
fn with_status(
    alloc: Global,
    tools: &mut Tools,
    before: &Printed,
    row: &Rewrite,
) -> Result<Printed, ReadError> {
    let status = read_tree(alloc, row.status.as_bytes())?;
    Ok(before.with_status(
        &mut tools.reader,
        &mut tools.printer,
        Some(status),
        row.revision,
    )?)
}

fn has_its_status(
    alloc: Global,
    tools: &mut Tools,
    before: &Printed,
    after: &Printed,
    row: &Rewrite,
) -> Result<bool, ReadError> {
    let status = read_tree(alloc, row.status.as_bytes())?;
    let is_so = is_told(tools, before, after, &status);
    drop(status);
    is_so
}

fn is_rewritten(alloc: Global, tools: &mut Tools, row: &Rewrite) -> Result<bool, ReadError> {
    let before = text_of(alloc, tools, row.before)?;
    let after = with_status(alloc, tools, &before, row)?;
    Ok(
        is_text(alloc, tools, &after, row.after, row.revision)?
            && has_its_status(alloc, tools, &before, &after, row)?
            && is_moved(alloc, tools, &after, row)?,
    )
}

#[test]
fn a_status_and_a_version_are_put_in(rt: HostRuntime) {
    let mut tools = new_tools(rt.alloc());
    for row in REWRITES.iter() {
        assert_so(&rt, is_rewritten(rt.alloc(), &mut tools, row), row.before);
    }
}

/// An object, and what an update with another spec makes of it at version 9.
struct Update {
    current: &'static str,
    after: &'static str,
}

const UPDATE: &str =
    r#"{"kind":"Pod","metadata":{"name":"b","resourceVersion":"7"},"spec":3,"status":4}"#;

static UPDATES: [Update; 4] = [
    // no resource version, and no generation
    Update {
        current: r#"{"kind":"Pod","metadata":{"generation":2,"name":"b"},"spec":1,"status":2}"#,
        after: r#"{"kind":"Pod","metadata":{"generation":3,"name":"b","namespace":"default","resourceVersion":"9"},"spec":3,"status":2}"#,
    },
    Update {
        current: r#"{"kind":"Pod","metadata":{"name":"b","resourceVersion":"8"},"spec":1,"status":2}"#,
        after: r#"{"kind":"Pod","metadata":{"generation":1,"name":"b","namespace":"default","resourceVersion":"9"},"spec":3,"status":2}"#,
    },
    // a generation above 32 bits, and one at its limit
    Update {
        current: r#"{"kind":"Pod","metadata":{"generation":4294967295,"name":"b","resourceVersion":"8"},"spec":1,"status":2}"#,
        after: r#"{"kind":"Pod","metadata":{"generation":4294967296,"name":"b","namespace":"default","resourceVersion":"9"},"spec":3,"status":2}"#,
    },
    Update {
        current: r#"{"kind":"Pod","metadata":{"generation":9223372036854775807,"name":"b","resourceVersion":"8"},"spec":1,"status":2}"#,
        after: r#"{"kind":"Pod","metadata":{"generation":9223372036854775807,"name":"b","namespace":"default","resourceVersion":"9"},"spec":3,"status":2}"#,
    },
];

/// What the update makes of the object.
fn updated(
    alloc: Global,
    tools: &mut Tools,
    current: &Printed,
) -> Result<Option<Printed>, ReadError> {
    let by: Object = read(alloc, UPDATE)?;
    Ok(current.replaced(&mut tools.reader, &mut tools.printer, by, 9)?)
}

/// Whether the update does what the row says, and then nothing more.
fn is_updated(alloc: Global, tools: &mut Tools, row: &Update) -> Result<bool, ReadError> {
    let current = text_of(alloc, tools, row.current)?;
    let Some(once) = updated(alloc, tools, &current)? else {
        return Ok(false);
    };
    Ok(is_text(alloc, tools, &once, row.after, 9)? && updated(alloc, tools, &once)?.is_none())
}

#[test]
fn an_update_is_put_in_the_place_of_an_object(rt: HostRuntime) {
    let mut tools = new_tools(rt.alloc());
    for row in UPDATES.iter() {
        assert_so(&rt, is_updated(rt.alloc(), &mut tools, row), row.current);
    }
}
