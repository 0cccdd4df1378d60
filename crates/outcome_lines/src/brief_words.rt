// What callers are told, in words.
ghost use Rattle.std.specs.Prelude.{◌≡◌, ◌++◌, codes, OnOk};
ghost use Rattle.outcome_lines.specs.Brief.{answer_words, exchanges_words, listed_words, names_words, told_words};
ghost use Rattle.outcome_lines.specs.ObjectWords.{known_of, lists_in, marks_words};

use crate::known::KnownNumbers;
use crate::marks::{put_marks, put_name};
use objects::Object;
use participants::Told;
use plain::Reply;
use std::alloc::{AllocError, Global};

/// Appends requests, by the words of each, and what became of them.
pub(crate) fn put_exchanges(
    alloc: Global,
    known: KnownNumbers<'_>,
    requests: &[Vec<u8>],
    told: &[Told],
    out: &mut Vec<u8>,
) -> Result<(), AllocError>
    ensures { OnOk result (out.new.items ≡ out.old.items ++ exchanges_words (known_of known.entry) (codes " ") (lists_in requests.now) told.now) }
{
    let mut lead = " ".as_bytes();
    let mut requests_left = requests;
    let mut told_left = told;
    'exchanges: while let Some((words, requests_behind)) = requests_left.split_first() {
        let Some((one, told_behind)) = told_left.split_first() else {
            return Ok(());
        };
        out.extend_from_slice(lead)?;
        put_exchange(alloc, known, words.as_slice(), one, out)?;
        lead = "; ".as_bytes();
        requests_left = requests_behind;
        told_left = told_behind;
    }
    Ok(())
}

fn put_exchange(
    alloc: Global,
    known: KnownNumbers<'_>,
    words: &[u8],
    told: &Told,
    out: &mut Vec<u8>,
) -> Result<(), AllocError>
    ensures { OnOk result (out.new.items ≡ out.old.items ++ (words.now ++ told_words (known_of known.entry) told.now)) }
{
    out.extend_from_slice(words)?;
    put_told(alloc, known, told, out)
}

fn put_told(
    alloc: Global,
    known: KnownNumbers<'_>,
    told: &Told,
    out: &mut Vec<u8>,
) -> Result<(), AllocError>
    ensures { OnOk result (out.new.items ≡ out.old.items ++ told_words (known_of known.entry) told.now) }
{
    match told {
        Told::Heard(reply) => put_answer(alloc, known, reply, out),
        Told::Unasked => out.extend_from_slice("not sent".as_bytes()),
        Told::Unheard => out.extend_from_slice("no reply".as_bytes()),
    }
}

fn put_answer(
    alloc: Global,
    known: KnownNumbers<'_>,
    reply: &Reply,
    out: &mut Vec<u8>,
) -> Result<(), AllocError>
    ensures { OnOk result (out.new.items ≡ out.old.items ++ answer_words (known_of known.entry) reply.now) }
{
    match reply {
        Reply::Created(object) => put_object(alloc, known, "Created", object, out),
        Reply::Found(object) => put_object(alloc, known, "Found", object, out),
        Reply::Listed {
            objects,
            revision: _,
        } => put_listed(alloc, known, objects.as_slice(), out),
        Reply::Updated(object) => put_object(alloc, known, "Updated", object, out),
        Reply::Unchanged(object) => put_object(alloc, known, "Unchanged", object, out),
        Reply::Marked(object) => put_object(alloc, known, "Marked", object, out),
        Reply::Removed(object) => put_object(alloc, known, "Removed", object, out),
        Reply::Compacted { revision: _ } => out.extend_from_slice("Compacted".as_bytes()),
        Reply::Refused(reason) => out.extend_from_slice(reason.name().as_bytes()),
    }
}

fn put_object(
    alloc: Global,
    known: KnownNumbers<'_>,
    word: &str,
    object: &Object,
    out: &mut Vec<u8>,
) -> Result<(), AllocError>
    ensures { OnOk result (out.new.items ≡ out.old.items ++ (word.now ++ marks_words (known_of known.entry) object.now)) }
{
    out.extend_from_slice(word.as_bytes())?;
    put_marks(alloc, known, object, out)
}

fn put_listed(
    alloc: Global,
    known: KnownNumbers<'_>,
    objects: &[Object],
    out: &mut Vec<u8>,
) -> Result<(), AllocError>
    ensures { OnOk result (out.new.items ≡ out.old.items ++ listed_words (known_of known.entry) objects.now) }
{
    if objects.is_empty() {
        return out.extend_from_slice("Listed no object".as_bytes());
    }
    out.extend_from_slice("Listed".as_bytes())?;
    put_names(alloc, known, objects, out)
}

fn put_names(
    alloc: Global,
    known: KnownNumbers<'_>,
    objects: &[Object],
    out: &mut Vec<u8>,
) -> Result<(), AllocError>
    ensures { OnOk result (out.new.items ≡ out.old.items ++ names_words (known_of known.entry) (codes " ") objects.now) }
{
    let mut lead = " ".as_bytes();
    for object in objects {
        out.extend_from_slice(lead)?;
        put_name(alloc, known, object, out)?;
        lead = ", ".as_bytes();
    }
    Ok(())
}
