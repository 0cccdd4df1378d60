//! Which base an object is packed with, and how many bytes that takes.
use crate::packed_texts::asserts::assert_so;
use crate::packed_texts::packing::packed;
use objects::ReadError;
use packed::{Packed, Packer};
use std::alloc::Global;
use std::test::Fail;

const DB_0: &str =
    r#"{"kind":"Pod","metadata":{"generation":1,"labels":{"app":"db"},"name":"db-0","namespace":"default","resourceVersion":"1","uid":"00000000-0000-4000-8000-000000000001"},"spec":{"image":"database:16"}}"#;

const WEB_0: &str =
    r#"{"kind":"Pod","metadata":{"annotations":{"note":"what the shop shows by day and by night"},"generation":1,"name":"web-0","namespace":"default","resourceVersion":"2","uid":"00000000-0000-4000-8000-000000000002"},"spec":{"containers":[{"image":"web:1","name":"web"}],"hostname":"front"}}"#;

const LONG_0: &str =
    r#"{"kind":"Pod","metadata":{"annotations":{"note":"abcdefghijabcdefghijabcdefghijabcdefghijabcdefghijabcdefghijabcdefghijabcdefghijabcdefghijabcdefghijabcdefghijabcdefghijabcdefghijabcdefghijabcdefghijabcdefghijabcdefghijabcdefghijabcdefghijabcdefghijabcdefghijabcdefghijabcdefghijabcdefghij"},"generation":1,"name":"long-0","namespace":"default","resourceVersion":"8","uid":"00000000-0000-4000-8000-000000000008"},"spec":{"image":"registry/database:1.2.3"}}"#;

/// A text, that of its base, and how many bytes the object takes.
type Row = (&'static str, &'static str, usize);

/// Objects of three sets in turn. The first of a set takes its own text. Of the others a delta has a piece for each number that
/// differs, of three bytes and the digit that it adds, and a piece of three bytes for the rest.
static IN_TURN: [Row; 8] = [
    (DB_0, DB_0, 198),
    (WEB_0, WEB_0, 285),
    (
        r#"{"kind":"Pod","metadata":{"generation":1,"labels":{"app":"db"},"name":"db-1","namespace":"default","resourceVersion":"3","uid":"00000000-0000-4000-8000-000000000003"},"spec":{"image":"database:16"}}"#,
        DB_0,
        3 * 4 + 3,
    ),
    (
        r#"{"kind":"Pod","metadata":{"annotations":{"note":"what the shop shows by day and by night"},"generation":1,"name":"web-1","namespace":"default","resourceVersion":"4","uid":"00000000-0000-4000-8000-000000000004"},"spec":{"containers":[{"image":"web:1","name":"web"}],"hostname":"front"}}"#,
        WEB_0,
        3 * 4 + 3,
    ),
    (
        r#"{"kind":"Pod","metadata":{"generation":1,"labels":{"app":"db"},"name":"db-2","namespace":"default","resourceVersion":"5","uid":"00000000-0000-4000-8000-000000000005"},"spec":{"image":"database:16"}}"#,
        DB_0,
        3 * 4 + 3,
    ),
    // Its image has a digit more.
    (
        r#"{"kind":"Pod","metadata":{"annotations":{"note":"what the shop shows by day and by night"},"generation":1,"name":"web-2","namespace":"default","resourceVersion":"6","uid":"00000000-0000-4000-8000-000000000006"},"spec":{"containers":[{"image":"web:12","name":"web"}],"hostname":"front"}}"#,
        WEB_0,
        4 * 4 + 3,
    ),
    (LONG_0, LONG_0, 456),
    // A delta too long for the value itself. A piece copies the first 255 bytes, and the last one adds an image of 72
    // bytes and the three after it, which are too few to be looked for.
    (
        r#"{"kind":"Pod","metadata":{"annotations":{"note":"abcdefghijabcdefghijabcdefghijabcdefghijabcdefghijabcdefghijabcdefghijabcdefghijabcdefghijabcdefghijabcdefghijabcdefghijabcdefghijabcdefghijabcdefghijabcdefghijabcdefghijabcdefghijabcdefghijabcdefghijabcdefghijabcdefghijabcdefghijabcdefghij"},"generation":1,"name":"long-1","namespace":"default","resourceVersion":"9","uid":"00000000-0000-4000-8000-000000000009"},"spec":{"image":"0123456789abcdefghijklmnopqrstuvwxyz0123456789abcdefghijklmnopqrstuvwxyz"}}"#,
        LONG_0,
        3 + 3 * 4 + 3 + 72 + 3,
    ),
];

/// The first pod of `DB_0`, with a later resource version.
const DB_0_LATER: &str =
    r#"{"kind":"Pod","metadata":{"generation":1,"labels":{"app":"db"},"name":"db-0","namespace":"default","resourceVersion":"7","uid":"00000000-0000-4000-8000-000000000001"},"spec":{"image":"database:16"}}"#;

/// Whether the object has that base, and takes so many bytes: those of its delta, and those of the base if it is its own text.
fn is_kept(packed: &Packed, row: &Row) -> bool {
    let (text, expected, bytes) = *row;
    let (base, delta) = packed.parts();
    let own = if base == text { base.len() } else { 0 };
    base == expected && own + delta.len() == bytes
}

/// The objects of the rows, packed in turn.
fn in_turn(alloc: Global, packer: &mut Packer) -> Result<Vec<Packed>, ReadError> {
    let mut objects = Vec::new(alloc);
    for (text, _, _) in IN_TURN.iter() {
        objects.push(packed(alloc, packer, text, None)?)?;
    }
    Ok(objects)
}

#[test]
fn objects_find_the_bases_of_their_sets(rt: HostRuntime) -> Result<(), Fail> {
    let mut packer = Packer::new(rt.alloc());
    let objects = in_turn(rt.alloc(), &mut packer)?;
    for (object, row) in objects.iter().zip(IN_TURN.iter()) {
        assert_so(&rt, is_kept(object, row), row.0);
        // The objects of the set, three or two, and the packer.
        let sharers = if row.1 == LONG_0 { 3 } else { 4 };
        assert_so(&rt, object.sharers() == sharers, row.0);
    }
    Ok(())
}

#[test]
fn a_later_version_takes_the_base_of_the_one_before(rt: HostRuntime) -> Result<(), Fail> {
    let first = packed(rt.alloc(), &mut Packer::new(rt.alloc()), DB_0, None)?;
    let mut other = Packer::new(rt.alloc());
    let next = packed(rt.alloc(), &mut other, DB_0_LATER, Some(&first))?;
    assert!(rt; is_kept(&next, &(DB_0_LATER, DB_0, 4 + 3)));
    // The first packer is dropped, and the other one has another base or none.
    assert!(rt; next.sharers() == 2);
    Ok(())
}
