//! The object of a draft as a JSON value.
ghost use Rattle.std.specs.Prelude.{◌≡◌, ◌++◌, codes, decimal, option_map, IfOk, OnOk};
ghost use Rattle.std.specs.Option.{option_copied};
ghost use Rattle.json.specs.Tree.{json_tokens};
ghost use Rattle.serde_json.specs.Data.{number, string, unsigned};
ghost use Rattle.serde_json.specs.Written.{outline};
ghost use Rattle.trees.specs.Building.{put_some};
ghost use Rattle.trees.specs.Tree.{data_of};
ghost use Rattle.objects.specs.Text.{unless_zero};
ghost use Rattle.objects.specs.Uid.{uid_text};
ghost use Rattle.scripts.specs.RequestLine.{draft_metadata, has_own_texts, is_text_of, printed_draft};

use json::Writer;
use objects::{Draft, Members, Text, Tree, is_uid_text, is_version_text, write_object, write_tree};
use std::alloc::AllocError;

/// Writes the object of a draft where a value is expected, with the UID and the resource version that the draft gives.
/// A tree of it is made only if they are not the object's own.
#[tactic(auto, using(crate::proofs::DraftValues::own_printed))]
pub(crate) fn write_draft_value(draft: &Draft, out: &mut Writer) -> Result<(), AllocError>
    ensures tokens { OnOk result (out.new.tokens ≡ out.old.tokens ++ json_tokens (outline (printed_draft draft.now))) }
    ensures before { out.new.before ≡ out.old.before }
{
    if has_own_texts(draft) {
        return write_object(&draft.object, out);
    }
    let value = printed_draft(draft)?;
    write_tree(&value, out)
}

// Whether the texts of the draft are those of its object.
fn has_own_texts(draft: &Draft) -> bool
    ensures { result ≡ has_own_texts draft.now }
{
    let meta = &draft.object.meta;
    is_own_uid(draft.uid.as_ref(), meta.uid)
        && is_own_version(draft.version.as_ref(), meta.revision)
}

fn is_own_uid(uid: Option<&Text>, number: u64) -> bool
    ensures { result ≡ is_text_of number (uid_text number) (option_copied uid.entry) }
{
    match uid {
        Some(uid) => number != 0 && is_uid_text(uid.as_str(), number),
        None => number == 0,
    }
}

fn is_own_version(version: Option<&Text>, revision: u64) -> bool
    ensures { result ≡ is_text_of revision (decimal revision) (option_copied version.entry) }
{
    match version {
        Some(version) => revision != 0 && is_version_text(version.as_str(), revision),
        None => revision == 0,
    }
}

fn printed_draft(draft: &Draft) -> Result<Tree, AllocError>
    ensures { IfOk result (λ t. data_of t ≡ printed_draft draft.now) }
{
    let Tree::Map(members) = &draft.object.body else {
        unreachable!();
    };
    let Some(Tree::Map(metadata)) = members.get("metadata") else {
        unreachable!();
    };
    let full = draft_metadata(draft, metadata.clone()?)?;
    let whole = members.clone()?.with("metadata", Some(Tree::Map(full)))?;
    Ok(Tree::Map(whole))
}

// The metadata of a draft's object in full.
fn draft_metadata(draft: &Draft, metadata: Members) -> Result<Members, AllocError>
    ensures { IfOk result (λ ms. ms ≡ draft_metadata draft.now metadata) }
{
    let key = &draft.object.key;
    let meta = &draft.object.meta;
    let with_uid = with_text(metadata, "uid", draft.uid.as_ref())?;
    let with_version = with_text(with_uid, "resourceVersion", draft.version.as_ref())?;
    let with_namespace = with_text(with_version, "namespace", Some(&key.namespace))?;
    let with_name = with_text(with_namespace, "name", Some(&key.name))?;
    let with_generation = with_generation(with_name, meta.generation)?;
    let full = with_text(with_generation, "deletionTimestamp", meta.deletion.as_ref())?;
    Ok(full)
}

// The members with the text at the key, if there is one.
fn with_text(members: Members, key: &str, text: Option<&Text>) -> Result<Members, AllocError>
    ensures { IfOk result (λ ms. ms ≡ put_some key.now (option_map string (option_copied text.entry)) members) }
{
    match text {
        Some(text) => members.with(key, Some(Tree::Text(text.clone()?))),
        None => Ok(members),
    }
}

// The members with the generation, unless it is 0.
fn with_generation(members: Members, generation: u64) -> Result<Members, AllocError>
    ensures { IfOk result (λ ms. ms ≡ put_some (codes "generation") (unless_zero generation (number (unsigned generation))) members) }
{
    if generation == 0 {
        return Ok(members);
    }
    members.with_number("generation", generation)
}
