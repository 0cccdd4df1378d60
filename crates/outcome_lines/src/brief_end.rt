// What is said of one end.
ghost use Rattle.std.specs.Prelude.{◌≡◌, ◌++◌, List, [], codes, IfOk, OnOk};
ghost use Rattle.outcome_lines.specs.Brief.{both_words, exchanges_words, key_by, kinds_words, known_by, objects_words, store_lead, words_by};
ghost use Rattle.outcome_lines.specs.ObjectWords.{known_of, lists_in, number_in, times_in};
ghost use Rattle.outcome_lines.specs.Stores.{objects_in};

use crate::alike::put_alike;
use crate::brief_words::put_exchanges;
use crate::known::KnownNumbers;
use crate::marks::put_kind_and_name;
use crate::numbers::Numbers;
use crate::store_objects::listed_in;
use crate::told::{firsts_in, put_told_key};
use objects::Object;
use participants::Told;
use plain::Reply;
use race_lines::Question;
use std::alloc::{AllocError, Global};

/// The text by which an end is compared with others.
pub(crate) fn key_of(
    alloc: Global,
    counts: &Numbers,
    begun: &Numbers,
    told: &[Told],
    shown: &[Reply],
) -> Result<Vec<u8>, AllocError>
    ensures { IfOk result (λ key. key.items
        ≡ key_by (known_by (times_in counts.now.entries) (number_in begun.now.entries) told.now shown.now) told.now shown.now) }
{
    let here = firsts_in(alloc, told, shown)?;
    let known = KnownNumbers {
        counts,
        begun,
        here: &here,
    };
    key_by(alloc, known, told, shown)
}

fn key_by(
    alloc: Global,
    known: KnownNumbers<'_>,
    told: &[Told],
    shown: &[Reply],
) -> Result<Vec<u8>, AllocError>
    ensures { IfOk result (λ key. key.items ≡ key_by (known_of known.entry) told.now shown.now) }
{
    let mut key = put_told_key(alloc, known, told, Vec::new(alloc))?;
    key.extend_from_slice("store\n".as_bytes())?;
    let objects = objects_in(alloc, shown)?;
    put_alike(alloc, known, objects.as_slice(), key)
}

/// The objects that lists show, of one list after another.
fn objects_in(alloc: Global, shown: &[Reply]) -> Result<Vec<Object>, AllocError>
    ensures { IfOk result (λ objects. objects.items ≡ objects_in shown.now) }
{
    let mut objects = Vec::new(alloc);
    for reply in shown {
        add_copies(listed_in(reply), &mut objects)?;
    }
    Ok(objects)
}

fn add_copies(objects: &[Object], out: &mut Vec<Object>) -> Result<(), AllocError>
    ensures { OnOk result (out.new.items ≡ out.old.items ++ objects.now) }
{
    for object in objects {
        out.push(object.clone()?)?;
    }
    Ok(())
}

/// What is said of an end.
pub(crate) fn words_of(
    alloc: Global,
    question: Question,
    counts: &Numbers,
    begun: &Numbers,
    requests: &[Vec<u8>],
    told: &[Told],
    shown: &[Reply],
) -> Result<Vec<u8>, AllocError>
    ensures { IfOk result (λ words. words.items
        ≡ words_by question (known_by (times_in counts.now.entries) (number_in begun.now.entries) told.now shown.now) (lists_in requests.now) told.now shown.now) }
{
    let here = firsts_in(alloc, told, shown)?;
    let known = KnownNumbers {
        counts,
        begun,
        here: &here,
    };
    words_by(alloc, question, known, requests, told, shown)
}

fn words_by(
    alloc: Global,
    question: Question,
    known: KnownNumbers<'_>,
    requests: &[Vec<u8>],
    told: &[Told],
    shown: &[Reply],
) -> Result<Vec<u8>, AllocError>
    ensures { IfOk result (λ words. words.items ≡ words_by question (known_of known.entry) (lists_in requests.now) told.now shown.now) }
{
    let mut words = Vec::new(alloc);
    match question {
        Question::Told => put_exchanges(alloc, known, requests, told, &mut words)?,
        Question::Stores => put_store(alloc, known, shown, &mut words)?,
        Question::Both => put_both(alloc, known, requests, told, shown, &mut words)?,
    }
    Ok(words)
}

fn put_both(
    alloc: Global,
    known: KnownNumbers<'_>,
    requests: &[Vec<u8>],
    told: &[Told],
    shown: &[Reply],
    out: &mut Vec<u8>,
) -> Result<(), AllocError>
    ensures { OnOk result (out.new.items ≡ out.old.items ++ both_words (known_of known.entry) (lists_in requests.now) told.now shown.now) }
{
    put_exchanges(alloc, known, requests, told, out)?;
    out.extend_from_slice(store_lead(requests).as_bytes())?;
    put_store(alloc, known, shown, out)
}

fn store_lead(requests: &[Vec<u8>]) -> &'static str
    ensures { result.now ≡ store_lead (lists_in requests.now) }
{
    match requests.first() {
        Some(_) => "; store:",
        None => " store:",
    }
}

fn put_store(
    alloc: Global,
    known: KnownNumbers<'_>,
    shown: &[Reply],
    out: &mut Vec<u8>,
) -> Result<(), AllocError>
    ensures { OnOk result (out.new.items ≡ out.old.items ++ objects_words (known_of known.entry) (objects_in shown.now)) }
{
    let objects = objects_in(alloc, shown)?;
    put_objects(alloc, known, objects.as_slice(), out)
}

fn put_objects(
    alloc: Global,
    known: KnownNumbers<'_>,
    objects: &[Object],
    out: &mut Vec<u8>,
) -> Result<(), AllocError>
    ensures { OnOk result (out.new.items ≡ out.old.items ++ objects_words (known_of known.entry) objects.now) }
{
    if objects.is_empty() {
        return out.extend_from_slice(" no object".as_bytes());
    }
    put_kinds(alloc, known, objects, out)
}

fn put_kinds(
    alloc: Global,
    known: KnownNumbers<'_>,
    objects: &[Object],
    out: &mut Vec<u8>,
) -> Result<(), AllocError>
    ensures { OnOk result (out.new.items ≡ out.old.items ++ kinds_words (known_of known.entry) (codes " ") objects.now) }
{
    let mut lead = " ".as_bytes();
    for object in objects {
        out.extend_from_slice(lead)?;
        put_kind_and_name(alloc, known, object, out)?;
        lead = ", ".as_bytes();
    }
    Ok(())
}
