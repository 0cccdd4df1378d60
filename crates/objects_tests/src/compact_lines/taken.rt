// Lines that are accepted, in whichever order their members are.
use crate::compact_lines::scanned::{assert_so, scanned};
use compact::Scanner;
use std::alloc::{AllocError, Global};

// What a row shows, a line, and its text in byte order.
const ROWS: [(&str, &str, &str); 12] = [
    ("two members", "{\"b\":1,\"a\":2}", "{\"a\":2,\"b\":1}"),
    (
        "maps in maps",
        "{\"object\":{\"kind\":\"Pod\",\"metadata\":{\"name\":\"db-0\",\"labels\":{\"role\":\"x\",\"app\":\"db\"}},\"apiVersion\":\"v1\"},\"do\":\"create\"}",
        "{\"do\":\"create\",\"object\":{\"apiVersion\":\"v1\",\"kind\":\"Pod\",\"metadata\":{\"labels\":{\"app\":\"db\",\"role\":\"x\"},\"name\":\"db-0\"}}}",
    ),
    (
        "maps in a list",
        "[{\"b\":[],\"a\":{}},{\"d\":null,\"c\":[true,false]}]",
        "[{\"a\":{},\"b\":[]},{\"c\":[true,false],\"d\":null}]",
    ),
    (
        "short escapes",
        "{\"b\":\"\\\"\\\\\\b\\f\\n\\r\\t\",\"a\":\"x\"}",
        "{\"a\":\"x\",\"b\":\"\\\"\\\\\\b\\f\\n\\r\\t\"}",
    ),
    (
        "control bytes",
        "[\"\\u0000\\u0007\\u000b\\u000e\\u0010\\u001f and more than sixteen bytes\"]",
        "[\"\\u0000\\u0007\\u000b\\u000e\\u0010\\u001f and more than sixteen bytes\"]",
    ),
    (
        "numbers",
        "[0,-1,999999999999999999,-999999999999999999]",
        "[0,-1,999999999999999999,-999999999999999999]",
    ),
    ("an empty key", "{\"a\":1,\"\":2}", "{\"\":2,\"a\":1}"),
    (
        "keys above ASCII",
        "{\"\u{e9}\":1,\"z\":2}",
        "{\"z\":2,\"\u{e9}\":1}",
    ),
    (
        "long keys",
        "{\"terminationGracePeriodSeconds\":30,\"restartPolicy\":\"Always\",\"template\":[]}",
        "{\"restartPolicy\":\"Always\",\"template\":[],\"terminationGracePeriodSeconds\":30}",
    ),
    (
        "16 members",
        "{\"p\":1,\"o\":2,\"n\":3,\"m\":4,\"l\":5,\"k\":6,\"j\":7,\"i\":8,\"h\":9,\"g\":10,\"f\":11,\"e\":12,\"d\":13,\"c\":14,\"b\":15,\"a\":16}",
        "{\"a\":16,\"b\":15,\"c\":14,\"d\":13,\"e\":12,\"f\":11,\"g\":10,\"h\":9,\"i\":8,\"j\":7,\"k\":6,\"l\":5,\"m\":4,\"n\":3,\"o\":2,\"p\":1}",
    ),
    (
        "16 levels",
        "[[[[[[[[[[[[[[[[]]]]]]]]]]]]]]]]",
        "[[[[[[[[[[[[[[[[]]]]]]]]]]]]]]]]",
    ),
    ("a text alone", "\"x\"", "\"x\""),
];

fn becomes(
    alloc: Global,
    scanner: &mut Scanner,
    line: &str,
    ordered: &str,
) -> Result<bool, AllocError> {
    Ok(match scanned(alloc, scanner, line)? {
        Some(text) => text.as_slice() == ordered.as_bytes(),
        None => false,
    })
}

#[test]
fn lines_are_put_into_byte_order(rt: HostRuntime) -> Result<(), AllocError> {
    let mut scanner = Scanner::new(rt.alloc());
    for row in ROWS.iter() {
        assert_so(&rt, becomes(rt.alloc(), &mut scanner, row.1, row.2)?, row.0);
    }
    Ok(())
}
