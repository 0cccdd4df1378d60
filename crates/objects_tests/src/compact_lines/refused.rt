// Lines that are not accepted, though a reader of JSON may read them.
use crate::compact_lines::scanned::{assert_so, scanned};
use compact::Scanner;
use std::alloc::{AllocError, Global};

// What a row shows, and a line.
const ROWS: [(&str, &str); 24] = [
    ("nothing", ""),
    ("a space", "{\"a\": 1}"),
    ("a key twice", "{\"a\":1,\"b\":2,\"a\":3}"),
    ("a key twice in a row", "{\"a\":1,\"a\":1}"),
    ("a key with an escape", "{\"a\\n\":1}"),
    ("no brace at the end", "{\"a\":1"),
    ("no value at the end", "{\"a\":"),
    ("no quote at the end", "{\"a"),
    ("a comma at the end", "{\"a\":1,}"),
    ("a bracket for a brace", "{\"a\":1]"),
    ("more behind", "{}{}"),
    ("a leading zero", "[01]"),
    ("zero below zero", "[-0]"),
    ("a point", "[1.0]"),
    ("19 digits", "[1000000000000000000]"),
    ("a sign alone", "[-]"),
    ("a word cut short", "[tru]"),
    ("an escape of a letter", "[\"\\u0041\"]"),
    ("an escape of a slash", "[\"\\/\"]"),
    ("a long escape for a short one", "[\"\\u000a\"]"),
    ("capital digits", "[\"\\u001F\"]"),
    ("a control byte", "[\"\u{1}\"]"),
    (
        "17 members",
        "{\"a\":1,\"b\":1,\"c\":1,\"d\":1,\"e\":1,\"f\":1,\"g\":1,\"h\":1,\"i\":1,\"j\":1,\"k\":1,\"l\":1,\"m\":1,\"n\":1,\"o\":1,\"p\":1,\"q\":1}",
    ),
    ("17 levels", "[[[[[[[[[[[[[[[[[]]]]]]]]]]]]]]]]]"),
];

fn is_refused(alloc: Global, scanner: &mut Scanner, line: &str) -> Result<bool, AllocError> {
    Ok(scanned(alloc, scanner, line)?.is_none())
}

#[test]
fn what_is_written_otherwise_is_not_taken(rt: HostRuntime) -> Result<(), AllocError> {
    let mut scanner = Scanner::new(rt.alloc());
    for row in ROWS.iter() {
        assert_so(&rt, is_refused(rt.alloc(), &mut scanner, row.1)?, row.0);
    }
    Ok(())
}
