// What is said of an object beside its name.
ghost use Rattle.std.specs.Prelude.{◌≡◌, ◌++◌, codes, IfOk, OnOk};
ghost use Rattle.objects.specs.Kind.{kind_name};
ghost use Rattle.outcome_lines.specs.ObjectWords.{anew_marks, deletion_marks, if_told, in_brackets, is_anew, joined, kind_words, known_of, lists_in, marks_of, named, differs, marks_words, name_words, object_leaves, place_words, time_leaf, told_leaves};

use crate::known::{KnownNumbers, differs, is_anew};
use crate::leaves::{object_leaves, time_leaf, with_words};
use crate::object_texts::name_of;
use objects::{Kind, Object, Text};
use std::alloc::{AllocError, Global};

/// Appends the kind, the namespace if it is another than `default`, the name, and what is said of the object.
pub(crate) fn put_kind_and_name(
    alloc: Global,
    known: KnownNumbers<'_>,
    object: &Object,
    out: &mut Vec<u8>,
) -> Result<(), AllocError>
    ensures { OnOk result (out.new.items ≡ out.old.items ++ kind_words (known_of known.entry) object.now) }
{
    put_kind(object.key.kind, out)?;
    put_place(object.key.namespace.as_str(), out)?;
    put_name(alloc, known, object, out)
}

fn put_kind(kind: Kind, out: &mut Vec<u8>) -> Result<(), AllocError>
    ensures { OnOk result (out.new.items ≡ out.old.items ++ (kind_name kind ++ codes " ")) }
{
    out.extend_from_slice(kind.name().as_bytes())?;
    out.extend_from_slice(" ".as_bytes())
}

fn put_place(namespace: &str, out: &mut Vec<u8>) -> Result<(), AllocError>
    ensures { OnOk result (out.new.items ≡ out.old.items ++ place_words namespace.now) }
{
    if namespace == "default" {
        return Ok(());
    }
    out.extend_from_slice(namespace.as_bytes())?;
    out.extend_from_slice("/".as_bytes())
}

/// Appends the name, and what is said of the object.
pub(crate) fn put_name(
    alloc: Global,
    known: KnownNumbers<'_>,
    object: &Object,
    out: &mut Vec<u8>,
) -> Result<(), AllocError>
    ensures { OnOk result (out.new.items ≡ out.old.items ++ name_words (known_of known.entry) object.now) }
{
    out.extend_from_slice(object.key.name.as_str().as_bytes())?;
    put_marks(alloc, known, object, out)
}

/// Appends what is said of the object, in brackets.
pub(crate) fn put_marks(
    alloc: Global,
    known: KnownNumbers<'_>,
    object: &Object,
    out: &mut Vec<u8>,
) -> Result<(), AllocError>
    ensures { OnOk result (out.new.items ≡ out.old.items ++ marks_words (known_of known.entry) object.now) }
{
    let marks = marks_of(alloc, known, object)?;
    put_in_brackets(marks.as_slice(), out)
}

fn put_in_brackets(marks: &[Vec<u8>], out: &mut Vec<u8>) -> Result<(), AllocError>
    ensures { OnOk result (out.new.items ≡ out.old.items ++ in_brackets (lists_in marks.now)) }
{
    let Some((first, others)) = marks.split_first() else {
        return Ok(());
    };
    out.extend_from_slice(" (".as_bytes())?;
    out.extend_from_slice(first.as_slice())?;
    put_joined(others, out)?;
    out.extend_from_slice(")".as_bytes())
}

fn put_joined(marks: &[Vec<u8>], out: &mut Vec<u8>) -> Result<(), AllocError>
    ensures { OnOk result (out.new.items ≡ out.old.items ++ joined (lists_in marks.now)) }
{
    for mark in marks {
        out.extend_from_slice(", ".as_bytes())?;
        out.extend_from_slice(mark.as_slice())?;
    }
    Ok(())
}

#[tactic(auto, using(crate::proofs::Stored::lists_push))]
fn marks_of(
    alloc: Global,
    known: KnownNumbers<'_>,
    object: &Object,
) -> Result<Vec<Vec<u8>>, AllocError>
    ensures { IfOk result (λ marks. lists_in marks.items ≡ marks_of (known_of known.entry) object.now) }
{
    let name = name_of(alloc, object)?;
    let leaves = object_leaves(alloc, object)?;
    let anew = is_anew(known, name.as_slice(), object.meta.uid);
    let mut marks = Vec::new(alloc);
    add_anew(alloc, anew, &mut marks)?;
    add_deletion(
        alloc,
        known,
        name.as_slice(),
        &object.meta.deletion,
        &mut marks,
    )?;
    add_told(alloc, known, name.as_slice(), leaves.as_slice(), &mut marks)?;
    Ok(marks)
}

#[tactic(auto, using(crate::proofs::Stored::lists_push))]
fn add_anew(alloc: Global, anew: bool, marks: &mut Vec<Vec<u8>>) -> Result<(), AllocError>
    ensures { OnOk result (lists_in marks.new.items ≡ lists_in marks.old.items ++ anew_marks anew) }
{
    if !anew {
        return Ok(());
    }
    Ok(marks.push("made anew".as_bytes().to_vec(alloc)?)?)
}

#[tactic(auto, using(crate::proofs::Stored::lists_push))]
fn add_deletion(
    alloc: Global,
    known: KnownNumbers<'_>,
    name: &[u8],
    deletion: &Option<Text>,
    marks: &mut Vec<Vec<u8>>,
) -> Result<(), AllocError>
    ensures { OnOk result (lists_in marks.new.items ≡ lists_in marks.old.items ++ deletion_marks (known_of known.entry) name.now deletion.now) }
{
    let Some(at) = deletion else {
        return Ok(());
    };
    marks.push("marked".as_bytes().to_vec(alloc)?)?;
    add_time(alloc, known, name, at, marks)
}

/// Adds the time if not all marked objects of the name have it.
fn add_time(
    alloc: Global,
    known: KnownNumbers<'_>,
    name: &[u8],
    at: &Text,
    marks: &mut Vec<Vec<u8>>,
) -> Result<(), AllocError>
    ensures { OnOk result (lists_in marks.new.items
        ≡ lists_in marks.old.items ++ if_told (differs (known_of known.entry) (named name.now (codes "marked")) (named name.now (time_leaf at.now))) (time_leaf at.now)) }
{
    let marked = with_words(alloc, name, "marked".as_bytes())?;
    let time = time_leaf(alloc, at)?;
    add_if_told(
        alloc,
        known,
        name,
        marked.as_slice(),
        time.as_slice(),
        marks,
    )
}

/// Adds the text if not all of which the other is true have it.
#[tactic(auto, using(crate::proofs::Stored::lists_push))]
fn add_if_told(
    alloc: Global,
    known: KnownNumbers<'_>,
    name: &[u8],
    base: &[u8],
    text: &[u8],
    marks: &mut Vec<Vec<u8>>,
) -> Result<(), AllocError>
    ensures { OnOk result (lists_in marks.new.items
        ≡ lists_in marks.old.items ++ if_told (differs (known_of known.entry) base.now (named name.now text.now)) text.now) }
{
    let whole = with_words(alloc, name, text)?;
    if !differs(known, base, whole.as_slice()) {
        return Ok(());
    }
    Ok(marks.push(text.to_vec(alloc)?)?)
}

/// Adds the members that not all objects of the name have.
#[tactic(auto, using(crate::proofs::Stored::lists_push))]
fn add_told(
    alloc: Global,
    known: KnownNumbers<'_>,
    name: &[u8],
    leaves: &[Vec<u8>],
    marks: &mut Vec<Vec<u8>>,
) -> Result<(), AllocError>
    ensures { OnOk result (lists_in marks.new.items ≡ lists_in marks.old.items ++ told_leaves (known_of known.entry) name.now (lists_in leaves.now)) }
{
    for text in leaves {
        add_if_told(alloc, known, name, name, text.as_slice(), marks)?;
    }
    Ok(())
}
