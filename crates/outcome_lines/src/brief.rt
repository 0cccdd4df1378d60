// Ends of a race, as lines for a person.
ghost use Rattle.std.specs.Prelude.{◌≡◌, ◌+◌, ◌++◌, ◌||◌, ℕ, List, [], length, not, bytes_eq, codes, if◌then◌else◌, IfOk, OnOk};
ghost use Rattle.outcome_lines.specs.AskedWords.{all_words};
ghost use Rattle.outcome_lines.specs.Brief.{brief_line, brief_text, end_said, ends_brief_text, ends_said, is_among, noun, said_by, times_found, times_shown, times_told, told_of};
ghost use Rattle.outcome_lines.specs.ObjectWords.{lists_in, number_in, times_in};

use crate::apart::{Keys, note_key, put_count, put_line};
use crate::asked_words::all_words;
use crate::brief_end::{key_of, words_of};
use crate::lined::every_told;
use crate::numbers::Numbers;
use crate::told::{count_shown, count_told, firsts_shown};
use explorer::End;
use objects::Memory;
use participants::Told;
use plain::Reply;
use race_lines::{AskedRace, Question};
use std::alloc::Global;

/// The ends of a race as lines for a person: what callers are told, as
/// `1: caller 1: create Pod/default/a: Created; caller 2: create Pod/default/a: AlreadyExists`, with `no reply` if a
/// caller crashes, and `not sent` if it leaves a request out; the store, as
/// `2: StatefulSet web (status.replicas 1), Pod web-0`, with the objects in the store's order; or both. Callers and
/// their requests are in the order of the text's lines. Of an object is said whether it is `made anew`, as an object of
/// its name was there before it, whether it is `marked`, and those of its members that not all shown objects of its name
/// have. Ends that are the same but for versions and UIDs are one line: its number, from 1, is that of the first of them
/// among the lines of [`ends_text`](crate::ends_text), so some numbers are missing. The last line says how many there
/// are, as `3 outcomes, 120 with their versions`. The replies `begun` list the objects at the beginning.
pub fn ends_brief_text(
    alloc: Global,
    question: Question,
    asked: &AskedRace,
    begun: &[Reply],
    found: &[End],
) -> Result<Vec<u8>, Memory>
    ensures { IfOk result (λ text. text.items ≡ ends_brief_text question asked.now begun.now found.now) }
{
    let firsts = firsts_shown(alloc, begun)?;
    let counts = counts_of(alloc, asked, found)?;
    let requests = all_words(
        alloc,
        asked.race.participants.as_slice(),
        asked.sent.as_slice(),
    )?;
    text_by(
        alloc,
        question,
        &counts,
        &firsts,
        asked,
        requests.as_slice(),
        found,
    )
}

/// Of how many of the objects that the ends show each text is true.
fn counts_of(alloc: Global, asked: &AskedRace, found: &[End]) -> Result<Numbers, Memory>
    ensures { IfOk result (λ counts. (t : List ℕ) → times_in counts.entries t ≡ times_found asked.now found.now t) }
{
    let mut counts = Numbers::new(alloc);
    for end in found {
        count_end(alloc, asked, end, &mut counts)?;
    }
    Ok(counts)
}

fn count_end(
    alloc: Global,
    asked: &AskedRace,
    end: &End,
    counts: &mut Numbers,
) -> Result<(), Memory>
    ensures { OnOk result ((t : List ℕ) → times_in counts.new.entries t
        ≡ (times_told (told_of asked.now end.now) t + times_shown end.now.looks.items t) + times_in counts.old.entries t) }
{
    let told = every_told(alloc, asked.sent.as_slice(), end.told.as_slice())?;
    let counted = count_both(alloc, told.as_slice(), end.looks.as_slice(), counts);
    drop(told);
    counted
}

fn count_both(
    alloc: Global,
    told: &[Told],
    shown: &[Reply],
    counts: &mut Numbers,
) -> Result<(), Memory>
    ensures { OnOk result ((t : List ℕ) → times_in counts.new.entries t
        ≡ (times_told told.now t + times_shown shown.now t) + times_in counts.old.entries t) }
{
    count_shown(alloc, shown, counts)?;
    count_told(alloc, told, counts)?;
    Ok(())
}

fn text_by(
    alloc: Global,
    question: Question,
    counts: &Numbers,
    begun: &Numbers,
    asked: &AskedRace,
    requests: &[Vec<u8>],
    found: &[End],
) -> Result<Vec<u8>, Memory>
    requires { lists_in requests.now ≡ all_words asked.now.race.participants.items asked.now.sent.items }
    ensures { IfOk result (λ text. text.items
        ≡ brief_text (noun question) (length found.now) (ends_said question (times_in counts.now.entries) (number_in begun.now.entries) asked.now found.now)) }
{
    let mut seen = Keys::new(alloc);
    let mut text = Vec::new(alloc);
    let mut apart = 0;
    for at in 0..found.len() {
        if put_end(
            alloc,
            question,
            counts,
            begun,
            asked,
            requests,
            at + 1,
            &found[at],
            &mut seen,
            &mut text,
        )? {
            apart += 1;
        }
    }
    drop(seen);
    put_count(alloc, noun(question), apart, found.len(), &mut text)?;
    Ok(text)
}

fn noun(question: Question) -> &'static str
    ensures { result.now ≡ noun question }
{
    match question {
        Question::Told => "outcome",
        Question::Stores => "store",
        Question::Both => "end",
    }
}

/// Appends the line of the end of this number, unless one that is alike was seen, and says whether it is new.
fn put_end(
    alloc: Global,
    question: Question,
    counts: &Numbers,
    begun: &Numbers,
    asked: &AskedRace,
    requests: &[Vec<u8>],
    number: usize,
    end: &End,
    seen: &mut Keys,
    out: &mut Vec<u8>,
) -> Result<bool, Memory>
    requires { lists_in requests.now ≡ all_words asked.now.race.participants.items asked.now.sent.items }
    ensures new { let said = end_said question (times_in counts.now.entries) (number_in begun.now.entries) asked.now end.now in
        IfOk result (λ new. new ≡ not (is_among (lists_in seen.old.keys) said.key)) }
    ensures seen { let said = end_said question (times_in counts.now.entries) (number_in begun.now.entries) asked.now end.now in
        OnOk result ((t : List ℕ) → is_among (lists_in seen.new.keys) t ≡ (bytes_eq t said.key || is_among (lists_in seen.old.keys) t)) }
    ensures line { let said = end_said question (times_in counts.now.entries) (number_in begun.now.entries) asked.now end.now in
        IfOk result (λ new. out.new.items ≡ out.old.items ++ (if new then brief_line number said.words else [])) }
{
    let told = every_told(alloc, asked.sent.as_slice(), end.told.as_slice())?;
    let new = put_said(
        alloc,
        question,
        counts,
        begun,
        requests,
        number,
        told.as_slice(),
        end.looks.as_slice(),
        seen,
        out,
    );
    drop(told);
    new
}

/// The same for an end in which callers are told this, and lists show that.
fn put_said(
    alloc: Global,
    question: Question,
    counts: &Numbers,
    begun: &Numbers,
    requests: &[Vec<u8>],
    number: usize,
    told: &[Told],
    shown: &[Reply],
    seen: &mut Keys,
    out: &mut Vec<u8>,
) -> Result<bool, Memory>
    ensures new { let said = said_by question (times_in counts.now.entries) (number_in begun.now.entries) (lists_in requests.now) told.now shown.now in
        IfOk result (λ new. new ≡ not (is_among (lists_in seen.old.keys) said.key)) }
    ensures seen { let said = said_by question (times_in counts.now.entries) (number_in begun.now.entries) (lists_in requests.now) told.now shown.now in
        OnOk result ((t : List ℕ) → is_among (lists_in seen.new.keys) t ≡ (bytes_eq t said.key || is_among (lists_in seen.old.keys) t)) }
    ensures line { let said = said_by question (times_in counts.now.entries) (number_in begun.now.entries) (lists_in requests.now) told.now shown.now in
        IfOk result (λ new. out.new.items ≡ out.old.items ++ (if new then brief_line number said.words else [])) }
{
    let key = key_of(alloc, counts, begun, told, shown)?;
    if !note_key(key, seen)? {
        return Ok(false);
    }
    let words = words_of(alloc, question, counts, begun, requests, told, shown)?;
    put_line(alloc, number, words.as_slice(), out)?;
    Ok(true)
}
