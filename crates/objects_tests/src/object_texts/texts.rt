//! What a store knows of an object, as it is read and printed. A created object keeps none of it, so no reply shows it.
use crate::object_texts::asserts::{assert_so, is_printed, read};
use objects::ReadError;
use std::alloc::{AllocError, Global};

/// The metadata of a pod without a UID or a version of the store's form.
const BARE: &str = r#"{"name":"a","namespace":"default"}"#;

/// Values of a pod's `metadata`, and what is printed of them.
static METADATA: [(&str, &str); 15] = [
    // All members that are held, with others between them.
    (
        r#"{"zone":1,"uid":"00000000-0000-4000-8000-000000000001","resourceVersion":"2","owner":{},"namespace":"n","name":"a","labels":{"b":"c"},"generation":3,"deletionTimestamp":"d","annotations":{}}"#,
        r#"{"annotations":{},"deletionTimestamp":"d","generation":3,"labels":{"b":"c"},"name":"a","namespace":"n","owner":{},"resourceVersion":"2","uid":"00000000-0000-4000-8000-000000000001","zone":1}"#,
    ),
    // The greatest of each.
    (
        r#"{"name":"a","generation":9223372036854775807,"resourceVersion":"18446744073709551615","uid":"00000000-0000-4000-8000-ffffffffffff"}"#,
        r#"{"generation":9223372036854775807,"name":"a","namespace":"default","resourceVersion":"18446744073709551615","uid":"00000000-0000-4000-8000-ffffffffffff"}"#,
    ),
    (
        r#"{"name":"a","uid":null,"resourceVersion":null,"generation":null,"deletionTimestamp":null}"#,
        BARE,
    ),
    (
        r#"{"name":"a","uid":"","resourceVersion":"","generation":0}"#,
        BARE,
    ),
    // UIDs of other forms.
    (
        r#"{"name":"a","uid":"00000000-0000-4000-8000-000000000000"}"#,
        BARE,
    ),
    (
        r#"{"name":"a","uid":"00000000-0000-4000-8000-00000000000A"}"#,
        BARE,
    ),
    (
        r#"{"name":"a","uid":"00000000-0000-4000-8000-00000000000g"}"#,
        BARE,
    ),
    (
        r#"{"name":"a","uid":"00000000-0000-4000-9000-000000000001"}"#,
        BARE,
    ),
    (
        r#"{"name":"a","uid":"00000000-0000-4000-8000-00000000001"}"#,
        BARE,
    ),
    (r#"{"name":"a","uid":"1"}"#, BARE),
    // Versions of other forms.
    (
        r#"{"name":"a","resourceVersion":"18446744073709551616"}"#,
        BARE,
    ),
    (r#"{"name":"a","resourceVersion":"0"}"#, BARE),
    (r#"{"name":"a","resourceVersion":"01"}"#, BARE),
    (r#"{"name":"a","resourceVersion":"+1"}"#, BARE),
    (r#"{"name":"a","resourceVersion":"1 "}"#, BARE),
];

fn pod_of(alloc: Global, metadata: &str) -> Result<String, AllocError> {
    let mut text = String::from_str(alloc, r#"{"kind":"Pod","metadata":"#)?;
    text.push_str(metadata)?;
    text.push_str("}")?;
    Ok(text)
}

fn comes_to(alloc: Global, metadata: &str, expected: &str) -> Result<bool, ReadError> {
    let text = pod_of(alloc, metadata)?;
    let expected = pod_of(alloc, expected)?;
    let object = read(alloc, text.as_str())?;
    let is_so = is_printed(alloc, &object, expected.as_str());
    drop(object);
    is_so
}

#[test]
fn metadata_is_read_and_printed(rt: HostRuntime) {
    for (metadata, expected) in METADATA.iter() {
        assert_so(&rt, comes_to(rt.alloc(), metadata, expected), metadata);
    }
}
