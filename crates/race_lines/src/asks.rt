// What a caller asks, as a line has it.
ghost use Rattle.std.specs.Prelude.{◌≡◌, codes, map, option_map};
ghost use Rattle.trees.specs.Tree.{data_of};
ghost use Rattle.scripts.specs.Events.{Reads, text_in};
ghost use Rattle.race_lines.specs.Asks.{are_named, asked_of, is_among, is_metadata_patch, is_patch, last_in, only_if_in, patch_of, reply_word, request_asked, verb_at, verb_in, verb_named};

use objects::{Members, Text, Tree};
use participants::{Asked, Verb};
use scripts::{ScriptError, request_in};
use std::alloc::Global;

/// What a patch may name of the metadata.
const PATCHED: [&str; 5] = [
    "annotations",
    "labels",
    "ownerReferences",
    "resourceVersion",
    "uid",
];

/// The results of requests, and the reasons of refusals.
const REPLY_WORDS: [&str; 15] = [
    "Created",
    "Found",
    "Listed",
    "Updated",
    "Unchanged",
    "Marked",
    "Removed",
    "Compacted",
    "NotFound",
    "AlreadyExists",
    "Conflict",
    "Invalid",
    "StoreFull",
    "Expired",
    "TooLarge",
];

/// What the value of `ask` says: a request line of `serve`, or what is done with the object that the caller was last
/// told.
#[tactic(auto, using(scripts::proofs::Readings::fails_bind), unfolding(crate::specs::Asks::asked_of))]
pub(crate) fn asked_of(alloc: Global, value: &Tree) -> Result<Asked, ScriptError>
    ensures { Reads (λ asked. asked) result (asked_of (data_of value.now)) }
{
    let Some(members) = value.as_map() else {
        return Err(ScriptError::BadScript);
    };
    match members.get("last") {
        Some(last) => last_in(alloc, members, last),
        None => request_asked(alloc, value),
    }
}

fn request_asked(alloc: Global, value: &Tree) -> Result<Asked, ScriptError>
    ensures { Reads (λ asked. asked) result (request_asked (data_of value.now)) }
{
    let line = Members::none(alloc)?.with("request", Some(value.clone()?))?;
    Ok(Asked::Request(request_in(alloc, line)?))
}

/// The object that the caller was last told, by a merge patch.
#[tactic(auto, using(scripts::proofs::Readings::fails_bind))]
fn last_in(alloc: Global, members: &Members, last: &Tree) -> Result<Asked, ScriptError>
    ensures { Reads (λ asked. asked) result (last_in members.now (data_of last.now)) }
{
    if !are_named(members, &["at", "do", "last"]) {
        return Err(ScriptError::BadScript);
    }
    let verb = verb_in(alloc, members)?;
    let patch = patch_of(last)?;
    Ok(Asked::Last { verb, patch })
}

fn verb_in(alloc: Global, members: &Members) -> Result<Verb, ScriptError>
    ensures { Reads (λ verb. verb) result (verb_in members.now) }
{
    match word_in(members) {
        Some(word) => verb_at(alloc, word, members.get("at")),
        None => Err(ScriptError::BadScript),
    }
}

fn word_in(members: &Members) -> Option<&str>
    ensures { option_map (λ word. word.now) result ≡ text_in (codes "do") members.now }
{
    members.get("do")?.as_text()
}

/// A delete may have a time.
fn verb_at(alloc: Global, word: &str, at: Option<&Tree>) -> Result<Verb, ScriptError>
    ensures { Reads (λ verb. verb) result (verb_at word.now (option_map (λ t. data_of t.now) at.entry)) }
{
    let Some(value) = at else {
        return verb_named(word);
    };
    match value.as_text() {
        Some(text) if word == "delete" => Ok(Verb::Delete {
            at: Some(Text::copy_of(alloc, text)?),
        }),
        _ => Err(ScriptError::BadScript),
    }
}

fn verb_named(word: &str) -> Result<Verb, ScriptError>
    ensures { Reads (λ verb. verb) result (verb_named word.now) }
{
    match word {
        "get" => Ok(Verb::Get),
        "update" => Ok(Verb::Update),
        "status" => Ok(Verb::UpdateStatus),
        "delete" => Ok(Verb::Delete { at: None }),
        _ => Err(ScriptError::BadScript),
    }
}

/// A merge patch that leaves what names the object, and its kind.
fn patch_of(value: &Tree) -> Result<Members, ScriptError>
    ensures { Reads (λ patch. patch) result (patch_of (data_of value.now)) }
{
    match value.as_map() {
        Some(members) if is_patch(members) => Ok(members.clone()?),
        _ => Err(ScriptError::BadScript),
    }
}

fn is_patch(patch: &Members) -> bool
    ensures { result ≡ is_patch patch.now }
{
    if patch.get("kind").is_some() || patch.get("apiVersion").is_some() {
        return false;
    }
    match patch.get("metadata") {
        Some(metadata) => is_metadata_patch(metadata),
        None => true,
    }
}

fn is_metadata_patch(metadata: &Tree) -> bool
    ensures { result ≡ is_metadata_patch (data_of metadata.now) }
{
    match metadata.as_map() {
        Some(members) => are_named(members, &PATCHED),
        None => false,
    }
}

/// Whether each member has one of these names.
pub(crate) fn are_named(members: &Members, names: &[&str]) -> bool
    ensures { result ≡ are_named (map (λ s. s.now) names.now) members.now }
{
    members
        .entries()
        .iter()
        .all(|(name, _)| is_among(name.as_str(), names))
}

fn is_among(name: &str, names: &[&str]) -> bool
    ensures { result ≡ is_among (map (λ s. s.now) names.now) name.now }
{
    names.iter().any(|one| name == *one)
}

/// What a request waits for: the result or the reason in `if`, if there is one.
pub(crate) fn only_if_in(alloc: Global, members: &Members) -> Result<Option<Text>, ScriptError>
    ensures { Reads (λ word. word) result (only_if_in members.now) }
{
    match members.get("if") {
        Some(value) => Ok(Some(reply_word(alloc, value)?)),
        None => Ok(None),
    }
}

fn reply_word(alloc: Global, value: &Tree) -> Result<Text, ScriptError>
    ensures { Reads (λ word. word) result (reply_word (data_of value.now)) }
{
    match value.as_text() {
        Some(word) if is_among(word, &REPLY_WORDS) => Ok(Text::copy_of(alloc, word)?),
        _ => Err(ScriptError::BadScript),
    }
}
