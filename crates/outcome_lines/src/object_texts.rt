// What is true of objects, by texts, and of how many of them.
ghost use Rattle.std.specs.Prelude.{◌≡◌, ◌+◌, ◌++◌, ◌∷◌, ℕ, List, [], bytes_eq, IfOk, OnOk};
ghost use Rattle.objects.specs.ShardOf.{key_text};
ghost use Rattle.outcome_lines.specs.ObjectWords.{all_named, deletion_texts, first_among, lists_in, lower, named, number_in, object_texts, times, times_among, times_in, uid_if};

use crate::leaves::{object_leaves, time_leaf, with_words};
use crate::numbers::{Numbers, count, lower};
use objects::{Key, Object, Text};
use std::alloc::{AllocError, Global};

/// Counts what is true of each of the objects.
pub(crate) fn count_objects(
    alloc: Global,
    objects: &[Object],
    counts: &mut Numbers,
) -> Result<(), AllocError>
    ensures { OnOk result ((t : List ℕ) → times_in counts.new.entries t ≡ times_among objects.now t + times_in counts.old.entries t) }
{
    for object in objects {
        count_object(alloc, object, counts)?;
    }
    Ok(())
}

fn count_object(alloc: Global, object: &Object, counts: &mut Numbers) -> Result<(), AllocError>
    ensures { OnOk result ((t : List ℕ) → times_in counts.new.entries t ≡ times (object_texts object.now) t + times_in counts.old.entries t) }
{
    let texts = object_texts(alloc, object)?;
    count_texts(alloc, texts.as_slice(), counts)
}

fn count_texts(alloc: Global, texts: &[Vec<u8>], counts: &mut Numbers) -> Result<(), AllocError>
    ensures { OnOk result ((t : List ℕ) → times_in counts.new.entries t ≡ times (lists_in texts.now) t + times_in counts.old.entries t) }
{
    for text in texts {
        count(alloc, text.as_slice(), counts)?;
    }
    Ok(())
}

#[tactic(auto, using(crate::proofs::Stored::lists_push))]
fn object_texts(alloc: Global, object: &Object) -> Result<Vec<Vec<u8>>, AllocError>
    ensures { IfOk result (λ texts. lists_in texts.items ≡ object_texts object.now) }
{
    let name = name_of(alloc, object)?;
    let leaves = object_leaves(alloc, object)?;
    let mut texts = Vec::new(alloc);
    texts.push(with_nothing(alloc, name.as_slice())?)?;
    add_deletion(alloc, name.as_slice(), &object.meta.deletion, &mut texts)?;
    add_named(alloc, name.as_slice(), leaves.as_slice(), &mut texts)?;
    Ok(texts)
}

fn with_nothing(alloc: Global, name: &[u8]) -> Result<Vec<u8>, AllocError>
    ensures { IfOk result (λ text. text.items ≡ name.now) }
{
    Ok(name.to_vec(alloc)?)
}

fn add_deletion(
    alloc: Global,
    name: &[u8],
    deletion: &Option<Text>,
    texts: &mut Vec<Vec<u8>>,
) -> Result<(), AllocError>
    ensures { OnOk result (lists_in texts.new.items ≡ lists_in texts.old.items ++ deletion_texts name.now deletion.now) }
{
    let Some(at) = deletion else {
        return Ok(());
    };
    let time = time_leaf(alloc, at)?;
    add_text(alloc, name, "marked".as_bytes(), texts)?;
    add_text(alloc, name, time.as_slice(), texts)
}

#[tactic(auto, using(crate::proofs::Stored::lists_push))]
fn add_text(
    alloc: Global,
    name: &[u8],
    words: &[u8],
    texts: &mut Vec<Vec<u8>>,
) -> Result<(), AllocError>
    ensures { OnOk result (lists_in texts.new.items ≡ lists_in texts.old.items ++ named name.now words.now ∷ []) }
{
    texts.push(with_words(alloc, name, words)?)?;
    Ok(())
}

fn add_named(
    alloc: Global,
    name: &[u8],
    leaves: &[Vec<u8>],
    texts: &mut Vec<Vec<u8>>,
) -> Result<(), AllocError>
    ensures { OnOk result (lists_in texts.new.items ≡ lists_in texts.old.items ++ all_named name.now (lists_in leaves.now)) }
{
    for text in leaves {
        add_text(alloc, name, text.as_slice(), texts)?;
    }
    Ok(())
}

/// The text of the object's key, as `Pod/default/web-0`.
pub(crate) fn name_of(alloc: Global, object: &Object) -> Result<Vec<u8>, AllocError>
    ensures { IfOk result (λ text. text.items ≡ key_text object.now.key) }
{
    key_text(alloc, &object.key)
}

fn key_text(alloc: Global, key: &Key) -> Result<Vec<u8>, AllocError>
    ensures { IfOk result (λ text. text.items ≡ key_text key.now) }
{
    let kind = key.kind.name();
    let namespace = key.namespace.as_str();
    let name = key.name.as_str();
    Ok(format!(in alloc; "{kind}/{namespace}/{name}")?.into_bytes())
}

/// Notes the lowest UID of each name.
pub(crate) fn note_firsts(
    alloc: Global,
    objects: &[Object],
    firsts: &mut Numbers,
) -> Result<(), AllocError>
    ensures { OnOk result ((t : List ℕ) → number_in firsts.new.entries t ≡ lower (number_in firsts.old.entries t) (first_among objects.now t)) }
{
    for object in objects {
        note_first(alloc, object, firsts)?;
    }
    Ok(())
}

fn note_first(alloc: Global, object: &Object, firsts: &mut Numbers) -> Result<(), AllocError>
    ensures { OnOk result ((t : List ℕ) → number_in firsts.new.entries t
        ≡ lower (number_in firsts.old.entries t) (uid_if (bytes_eq (key_text object.now.key) t) object.now.meta.uid)) }
{
    let name = name_of(alloc, object)?;
    let uid = uid_of(object);
    lower(alloc, name.as_slice(), uid, firsts)
}

fn uid_of(object: &Object) -> u64
    ensures { result ≡ object.now.meta.uid }
{
    object.meta.uid
}
