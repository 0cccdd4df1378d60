// Lines, and the texts of their objects as the store would keep them.
use crate::compact_lines::scanned::assert_so;
use compact::Scanner;
use compact_objects::{draft_of_line, indexed};
use objects::{IndexedText, Memory, Meta};
use std::alloc::Global;
use trees::Text;

const CREATE: &[u8] =
    b"{\"do\":\"create\",\"object\":{\"kind\":\"Pod\",\"metadata\":{\"uid\":\"u\",\"name\":\"web-0\",\"labels\":{\"role\":\"x\",\"app\":\"web\"},\"annotations\":{\"a\":\"b\"}},\"spec\":{\"a\":1},\"status\":{\"phase\":\"Running\"},\"apiVersion\":\"v1\"}}";

const CREATED: &str =
    "{\"apiVersion\":\"v1\",\"kind\":\"Pod\",\"metadata\":{\"annotations\":{\"a\":\"b\"},\"generation\":1,\"labels\":{\"app\":\"web\",\"role\":\"x\"},\"name\":\"web-0\",\"namespace\":\"default\",\"resourceVersion\":\"5\",\"uid\":\"00000000-0000-4000-8000-000000000001\"},\"spec\":{\"a\":1}}";

const UPDATE: &[u8] =
    b"{\"object\":{\"spec\":{},\"kind\":\"Pod\",\"metadata\":{\"zz\":[],\"name\":\"web-0\",\"namespace\":\"a\",\"generation\":9,\"resourceVersion\":\"7\"}}}";

const UPDATED: &str =
    "{\"kind\":\"Pod\",\"metadata\":{\"deletionTimestamp\":\"2026-01-01T00:00:00Z\",\"name\":\"web-0\",\"namespace\":\"a\",\"resourceVersion\":\"12\",\"uid\":\"00000000-0000-4000-8000-00000000001a\",\"zz\":[]},\"spec\":{},\"status\":{\"phase\":\"Failed\"}}";

const WITH_NOTES: &[u8] =
    b"{\"object\":{\"spec\":{},\"notes\":[1],\"kind\":\"Pod\",\"metadata\":{\"name\":\"web-0\",\"namespace\":\"a\"}}}";

const NOTED: &str =
    "{\"kind\":\"Pod\",\"metadata\":{\"generation\":3,\"name\":\"web-0\",\"namespace\":\"a\",\"resourceVersion\":\"12\",\"uid\":\"00000000-0000-4000-8000-00000000001a\"},\"notes\":[1],\"spec\":{},\"status\":{\"phase\":\"Failed\"}}";

const WITH_ZONE: &[u8] =
    b"{\"object\":{\"zone\":1,\"kind\":\"Pod\",\"metadata\":{\"name\":\"web-0\"}}}";

const NO_TEXT: &[u8] =
    b"{\"object\":{\"kind\":\"Pod\",\"metadata\":{\"name\":\"web-0\"},\"spec\":\"\xff\"}}";

const FAILED: &[u8] = b",\"status\":{\"phase\":\"Failed\"}}";

// The indexed text of a line's object, with that meta and that end.
fn indexed_of(
    alloc: Global,
    line: &[u8],
    meta: &Meta,
    end: &[u8],
) -> Result<Option<IndexedText>, Memory> {
    let mut scanner = Scanner::new(alloc);
    let mut text = Vec::from_slice(alloc, line)?;
    if !scanner.scan(&mut text) {
        return Ok(None);
    }
    match draft_of_line(alloc, &text, scanner.tables())? {
        Some(draft) => indexed(alloc, &draft, meta, end),
        None => Ok(None),
    }
}

// Whether that text was found, with its version and its status at those offsets.
fn has_seams(found: &Option<IndexedText>, text: &str, version: u32, status: u32) -> bool {
    match found {
        Some(found) => {
            found.text.as_str() == text && found.version == version && found.status == status
        }
        None => false,
    }
}

// Whether it has that many bytes of spec and that generation.
fn knows(found: &Option<IndexedText>, spec: u32, generation: u32) -> bool {
    match found {
        Some(found) => found.spec == spec && found.generation == generation,
        None => false,
    }
}

#[test]
fn a_create_has_what_the_store_gives_and_no_status(rt: HostRuntime) -> Result<(), Memory> {
    let meta = Meta {
        uid: 1,
        revision: 5,
        generation: 1,
        deletion: None,
    };
    let found = indexed_of(rt.alloc(), CREATE, &meta, b"}")?;
    assert_so(&rt, has_seams(&found, CREATED, 172, 236), "a create");
    assert_so(&rt, knows(&found, 15, 1), "its spec");
    let none = indexed_of(rt.alloc(), NO_TEXT, &meta, b"}")?;
    assert_so(&rt, none.is_none(), "a line that is no UTF-8");
    Ok(())
}

#[test]
fn an_update_has_the_status_that_is_handed_in(rt: HostRuntime) -> Result<(), Memory> {
    let deletion = Text::copy_of(rt.alloc(), "2026-01-01T00:00:00Z")?;
    let meta = Meta {
        uid: 26,
        revision: 12,
        generation: 0,
        deletion: Some(deletion),
    };
    let found = indexed_of(rt.alloc(), UPDATE, &meta, FAILED)?;
    assert_so(&rt, has_seams(&found, UPDATED, 118, 186), "an update");
    assert_so(&rt, knows(&found, 0, 0), "an object that is being deleted");
    Ok(())
}

#[test]
fn a_member_beside_the_spec_hides_it(rt: HostRuntime) -> Result<(), Memory> {
    let meta = Meta {
        uid: 26,
        revision: 12,
        generation: 3,
        deletion: None,
    };
    let found = indexed_of(rt.alloc(), WITH_NOTES, &meta, FAILED)?;
    assert_so(&rt, has_seams(&found, NOTED, 90, 162), "notes");
    assert_so(&rt, knows(&found, 0, 0), "notes beside a spec");
    let none = indexed_of(rt.alloc(), WITH_ZONE, &meta, b"}")?;
    assert_so(&rt, none.is_none(), "a member behind the status");
    Ok(())
}
