// Lines whose object is found, and lines whose object is not.
use crate::compact_lines::scanned::assert_so;
use compact::Scanner;
use compact_objects::CompactDraft;
use objects::{Key, Kind, Memory};
use std::alloc::Global;

// What a row shows, and a line whose object is a pod `web-0`.
const TOLD: [(&str, &str); 6] = [
    (
        "no more than is needed",
        "{\"do\":\"create\",\"object\":{\"kind\":\"Pod\",\"metadata\":{\"name\":\"web-0\"}}}",
    ),
    (
        "members in any order",
        "{\"object\":{\"metadata\":{\"name\":\"web-0\",\"namespace\":\"default\"},\"kind\":\"Pod\",\"apiVersion\":\"v1\"},\"do\":\"create\"}",
    ),
    (
        "labels",
        "{\"object\":{\"kind\":\"Pod\",\"metadata\":{\"name\":\"web-0\",\"labels\":{\"role\":\"x\",\"app\":\"web\"}}}}",
    ),
    (
        "an owner",
        "{\"object\":{\"kind\":\"Pod\",\"metadata\":{\"name\":\"web-0\",\"ownerReferences\":[{\"apiVersion\":\"apps/v1\",\"kind\":\"StatefulSet\",\"name\":\"web\",\"uid\":\"u\",\"controller\":true,\"blockOwnerDeletion\":false}]}}}",
    ),
    (
        "no labels",
        "{\"object\":{\"kind\":\"Pod\",\"metadata\":{\"name\":\"web-0\",\"labels\":{}}}}",
    ),
    (
        "all that the store sets",
        "{\"object\":{\"kind\":\"Pod\",\"metadata\":{\"generation\":7,\"name\":\"web-0\",\"namespace\":\"\",\"resourceVersion\":\"12\",\"uid\":\"u\"},\"spec\":{\"a\":1},\"status\":{}}}",
    ),
];

// What a row shows, and a line.
const NOT_TOLD: [(&str, &str); 10] = [
    ("no object", "{\"do\":\"create\"}"),
    ("no map", "{\"object\":[]}"),
    ("no metadata", "{\"object\":{\"kind\":\"Pod\"}}"),
    (
        "no kind that is known",
        "{\"object\":{\"kind\":\"Job\",\"metadata\":{\"name\":\"web-0\"}}}",
    ),
    (
        "another API version",
        "{\"object\":{\"apiVersion\":\"v2\",\"kind\":\"Pod\",\"metadata\":{\"name\":\"web-0\"}}}",
    ),
    (
        "a name that is none",
        "{\"object\":{\"kind\":\"Pod\",\"metadata\":{\"name\":\"Web\"}}}",
    ),
    (
        "a label that is no text",
        "{\"object\":{\"kind\":\"Pod\",\"metadata\":{\"labels\":{\"a\":1},\"name\":\"web-0\"}}}",
    ),
    (
        "an owner with no UID",
        "{\"object\":{\"kind\":\"Pod\",\"metadata\":{\"name\":\"web-0\",\"ownerReferences\":[{\"name\":\"web\"}]}}}",
    ),
    (
        "an object that is being deleted",
        "{\"object\":{\"kind\":\"Pod\",\"metadata\":{\"deletionTimestamp\":\"t\",\"name\":\"web-0\"}}}",
    ),
    (
        "a generation below zero",
        "{\"object\":{\"kind\":\"Pod\",\"metadata\":{\"generation\":-1,\"name\":\"web-0\"}}}",
    ),
];

// The key found for a line's object.
fn key_told(alloc: Global, line: &str) -> Result<Option<Key>, Memory> {
    let mut scanner = Scanner::new(alloc);
    let mut text = Vec::from_slice(alloc, line.as_bytes())?;
    if !scanner.scan(&mut text) {
        return Ok(None);
    }
    Ok(CompactDraft::of(alloc, &text, scanner.tables())?.map(|draft| draft.key))
}

#[test]
fn the_key_of_an_object_is_told(rt: HostRuntime) -> Result<(), Memory> {
    for row in TOLD.iter() {
        let is_so = match key_told(rt.alloc(), row.1)? {
            Some(key) => {
                key.kind == Kind::Pod
                    && key.namespace.as_str() == "default"
                    && key.name.as_str() == "web-0"
            }
            None => false,
        };
        assert_so(&rt, is_so, row.0);
    }
    Ok(())
}

#[test]
fn what_is_unusual_is_not_told(rt: HostRuntime) -> Result<(), Memory> {
    for row in NOT_TOLD.iter() {
        assert_so(&rt, key_told(rt.alloc(), row.1)?.is_none(), row.0);
    }
    Ok(())
}

#[test]
fn the_parts_of_an_object_are_at_hand(rt: HostRuntime) -> Result<(), Memory> {
    let mut scanner = Scanner::new(rt.alloc());
    let mut text = Vec::from_slice(rt.alloc(), TOLD[5].1.as_bytes())?;
    assert_so(&rt, scanner.scan(&mut text), "the line");
    let Some(draft) = CompactDraft::of(rt.alloc(), &text, scanner.tables())? else {
        assert_so(&rt, false, "the draft");
        return Ok(());
    };
    assert_so(&rt, draft.uid == Some("u"), "the UID");
    assert_so(&rt, draft.version == Some("12"), "the version");
    assert_so(&rt, draft.spec == Some(b"{\"a\":1}".as_slice()), "the spec");
    assert_so(&rt, draft.status == Some(b"{}".as_slice()), "the status");
    Ok(())
}
