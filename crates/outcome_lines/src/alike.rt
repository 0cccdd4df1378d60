// Objects without their versions and UIDs, as texts by which they are compared.
ghost use Rattle.std.specs.Prelude.{◌≡◌, ◌++◌, ◌∷◌, [], if◌then◌else◌, IfOk};
ghost use Rattle.objects.specs.Text.{text};
ghost use Rattle.outcome_lines.specs.Brief.{alike_texts};
ghost use Rattle.outcome_lines.specs.ObjectWords.{alike, known_of};

use crate::known::{KnownNumbers, is_anew};
use crate::object_texts::name_of;
use json::Writer;
use objects::{Object, write_object};
use plain::end_line;
use std::alloc::{AllocError, Global};

/// The texts of the objects, each on a line.
pub(crate) fn alike_texts(
    alloc: Global,
    known: KnownNumbers<'_>,
    objects: &[Object],
) -> Result<Vec<u8>, AllocError>
    ensures { IfOk result (λ all. all.items ≡ alike_texts (known_of known.entry) objects.now) }
{
    put_alike(alloc, known, objects, Vec::new(alloc))
}

/// Appends the texts of the objects, each on a line.
pub(crate) fn put_alike(
    alloc: Global,
    known: KnownNumbers<'_>,
    objects: &[Object],
    out: Vec<u8>,
) -> Result<Vec<u8>, AllocError>
    ensures { IfOk result (λ all. all.items ≡ out.items ++ alike_texts (known_of known.entry) objects.now) }
{
    let mut all = out;
    for object in objects {
        all = put_object(alloc, known, object, all)?;
    }
    Ok(all)
}

fn put_object(
    alloc: Global,
    known: KnownNumbers<'_>,
    object: &Object,
    out: Vec<u8>,
) -> Result<Vec<u8>, AllocError>
    ensures { IfOk result (λ line. line.items ≡ out.items ++ (text (alike (known_of known.entry) object.now) ++ 10 ∷ [])) }
{
    let copy = alike(alloc, known, object)?;
    put_text(&copy, out)
}

fn put_text(object: &Object, out: Vec<u8>) -> Result<Vec<u8>, AllocError>
    ensures { IfOk result (λ line. line.items ≡ out.items ++ (text object.now ++ 10 ∷ [])) }
{
    let mut writer = Writer::new(out);
    write_object(object, &mut writer)?;
    end_line(writer)
}

/// The object without its version, and with 1 for its UID if it is made anew, else 0.
fn alike(alloc: Global, known: KnownNumbers<'_>, object: &Object) -> Result<Object, AllocError>
    ensures { IfOk result (λ copy. copy ≡ alike (known_of known.entry) object.now) }
{
    let name = name_of(alloc, object)?;
    let mut copy = object.clone()?;
    copy.meta.uid = uid_told(is_anew(known, name.as_slice(), object.meta.uid));
    copy.meta.revision = 0;
    Ok(copy)
}

fn uid_told(anew: bool) -> u64
    ensures { result ≡ (if anew then 1 else 0) }
{
    if anew { 1 } else { 0 }
}
