//! Objects that are packed, and come back as their texts, as printed objects and as objects.
use crate::packed_texts::asserts::assert_so;
use objects::{Key, Memory, Printed, Printer, ReadError, TreeReader, read_object};
use packed::{Packed, Packer};
use std::alloc::{AllocError, Global};
use std::test::Fail;

/// Objects whose numbers no run of requests reaches soon: a generation above 16 bits, the last UID of 32 bits and the
/// last of all.
static TEXTS: [&str; 3] = [
    r#"{"kind":"Pod","metadata":{"generation":70000,"name":"db-2","namespace":"default","resourceVersion":"4","uid":"00000000-0000-4000-8000-0000000000ff"}}"#,
    r#"{"kind":"Pod","metadata":{"generation":1,"name":"db-3","namespace":"default","resourceVersion":"5","uid":"00000000-0000-4000-8000-0000ffffffff"}}"#,
    r#"{"kind":"Pod","metadata":{"generation":1,"name":"db-4","namespace":"default","resourceVersion":"6","uid":"00000000-0000-4000-8000-ffffffffffff"}}"#,
];

/// The key of the object of the text, and the object, printed.
fn printed(alloc: Global, text: &str) -> Result<(Key, Printed), ReadError> {
    let draft = read_object(alloc, text.as_bytes())?;
    let printed = Printed::of(alloc, &draft.object);
    let key: Result<Key, AllocError> = draft.object.key.clone();
    drop(draft);
    let key = key?;
    Ok((key, printed?))
}

/// The object of the text, packed with those that were packed before.
pub(crate) fn packed(
    alloc: Global,
    packer: &mut Packer,
    text: &str,
    before: Option<&Packed>,
) -> Result<Packed, ReadError> {
    let (key, printed) = printed(alloc, text)?;
    let packed = packed_of(packer, &key, &printed, before);
    drop(key);
    drop(printed);
    Ok(packed?)
}

fn packed_of(
    packer: &mut Packer,
    key: &Key,
    printed: &Printed,
    before: Option<&Packed>,
) -> Result<Packed, Memory> {
    match packer.pack_in_set(key, printed)? {
        Some(packed) => Ok(packed),
        None => packer.pack(key, printed, before),
    }
}

/// Whether it has that text, as bytes, as a printed object and as an object.
fn is_packed_as(alloc: Global, packed: &Packed, text: &str) -> Result<bool, Memory> {
    let mut reader = TreeReader::new(alloc);
    let mut printer = Printer::new(alloc);
    Ok(
        has_bytes(alloc, packed, text)?
            && comes_back(alloc, &mut reader, &mut printer, packed, text)?,
    )
}

fn has_bytes(alloc: Global, packed: &Packed, text: &str) -> Result<bool, Memory> {
    let mut bytes = Vec::new(alloc);
    packed.write_text(&mut bytes)?;
    Ok(bytes.as_slice() == text.as_bytes())
}

fn comes_back(
    alloc: Global,
    reader: &mut TreeReader,
    printer: &mut Printer,
    packed: &Packed,
    text: &str,
) -> Result<bool, Memory> {
    let printed = packed.printed(reader, printer)?;
    let again = printed_again(alloc, reader, printer, packed)?;
    Ok(printed.as_str() == text && again.as_str() == text && printed.uid() == again.uid())
}

/// The object, read back, and printed.
fn printed_again(
    alloc: Global,
    reader: &mut TreeReader,
    printer: &mut Printer,
    packed: &Packed,
) -> Result<Printed, Memory> {
    let object = packed.object(reader, printer)?;
    let again = Printed::of(alloc, &object);
    drop(object);
    Ok(again?)
}

#[test]
fn objects_come_back_as_they_were(rt: HostRuntime) -> Result<(), Fail> {
    let mut packer = Packer::new(rt.alloc());
    for text in TEXTS.iter() {
        let packed = packed(rt.alloc(), &mut packer, text, None)?;
        assert_so(&rt, is_packed_as(rt.alloc(), &packed, text)?, text);
    }
    Ok(())
}
