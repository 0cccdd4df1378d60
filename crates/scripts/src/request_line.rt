//! A request as a request line of `serve`.
ghost use Rattle.std.specs.Prelude.{◌≡◌, ◌++◌, ◌∷◌, [], codes, decimal, OnOk};
ghost use Rattle.std.specs.Option.{option_copied};
ghost use Rattle.json.specs.Token.{key as key_token, string as string_token};
ghost use Rattle.json.specs.Tree.{json_tokens};
ghost use Rattle.serde_json.specs.Written.{outline};
ghost use Rattle.objects.specs.Again.{text_unless_zero};
ghost use Rattle.objects.specs.Key.{key_parts};
ghost use Rattle.objects.specs.Kind.{kind_name};
ghost use Rattle.scripts.specs.RequestLine.{compaction_data, deletion_data, get_data, optional_tokens, key_tokens, list_data, request_data, with_draft};

use crate::draft_value::write_draft_value;
use json::Writer;
use objects::{Draft, Key, Kind, Text};
use plain::{Request, write_text_member};
use std::alloc::AllocError;

/// Writes the request as a request line of `serve`, as a JSON value. The UID and the resource version of a draft are
/// written as the draft has them, also if the store gives no such texts.
pub fn write_request(request: &Request, out: &mut Writer) -> Result<(), AllocError>
    ensures tokens { OnOk result (out.new.tokens ≡ out.old.tokens ++ json_tokens (outline (request_data request.now))) }
    ensures before { out.new.before ≡ out.old.before }
{
    match request {
        Request::Create(draft) => write_draft("create", draft, out),
        Request::Get(key) => write_get(key, out),
        Request::List {
            kind,
            namespace,
            exact,
        } => write_list(*kind, namespace.as_str(), *exact, out),
        Request::Update(draft) => write_draft("update", draft, out),
        Request::UpdateStatus(draft) => write_draft("status", draft, out),
        Request::Delete {
            key,
            uid,
            version,
            at,
        } => write_deletion(key, uid.as_ref(), version.as_ref(), at.as_ref(), out),
        Request::Compact { to } => write_compaction(*to, out),
    }
}

fn write_draft(verb: &str, draft: &Draft, out: &mut Writer) -> Result<(), AllocError>
    ensures tokens { OnOk result (out.new.tokens ≡ out.old.tokens ++ json_tokens (outline (with_draft verb.now draft.now))) }
    ensures before { out.new.before ≡ out.old.before }
{
    out.begin_object()?;
    write_text_member("do", verb, out)?;
    out.key("object")?;
    write_draft_value(draft, out)?;
    out.end_object()
}

fn write_get(key: &Key, out: &mut Writer) -> Result<(), AllocError>
    ensures tokens { OnOk result (out.new.tokens ≡ out.old.tokens ++ json_tokens (outline (get_data key.now))) }
    ensures before { out.new.before ≡ out.old.before }
{
    out.begin_object()?;
    write_text_member("do", "get", out)?;
    write_key(key, out)?;
    out.end_object()
}

fn write_list(kind: Kind, namespace: &str, exact: u64, out: &mut Writer) -> Result<(), AllocError>
    ensures tokens { OnOk result (out.new.tokens ≡ out.old.tokens ++ json_tokens (outline (list_data kind namespace.now exact))) }
    ensures before { out.new.before ≡ out.old.before }
{
    out.begin_object()?;
    write_text_member("do", "list", out)?;
    write_kind(kind, out)?;
    write_text_member("namespace", namespace, out)?;
    write_exact(exact, out)?;
    out.end_object()
}

// The resource version of a list; 0 means the newest, and is not written.
fn write_exact(exact: u64, out: &mut Writer) -> Result<(), AllocError>
    ensures tokens { OnOk result (out.new.tokens
        ≡ out.old.tokens ++ optional_tokens (codes "resourceVersion") (text_unless_zero exact (decimal exact))) }
    ensures before { out.new.before ≡ out.old.before }
{
    if exact == 0 {
        return Ok(());
    }
    write_version(exact, out)
}

fn write_version(revision: u64, out: &mut Writer) -> Result<(), AllocError>
    ensures tokens { OnOk result (out.new.tokens ≡ out.old.tokens ++ key_token (codes "resourceVersion") ∷ string_token (decimal revision) ∷ []) }
    ensures before { out.new.before ≡ out.old.before }
{
    out.key("resourceVersion")?;
    out.quoted_u64(revision)
}

fn write_deletion(
    key: &Key,
    uid: Option<&Text>,
    version: Option<&Text>,
    at: Option<&Text>,
    out: &mut Writer,
) -> Result<(), AllocError>
    ensures tokens { OnOk result (out.new.tokens ≡ out.old.tokens
        ++ json_tokens (outline (deletion_data key.now (option_copied uid.entry) (option_copied version.entry) (option_copied at.entry)))) }
    ensures before { out.new.before ≡ out.old.before }
{
    out.begin_object()?;
    write_optional("at", at, out)?;
    write_text_member("do", "delete", out)?;
    write_key(key, out)?;
    write_preconditions(uid, version, out)?;
    out.end_object()
}

// The preconditions of a delete.
fn write_preconditions(
    uid: Option<&Text>,
    version: Option<&Text>,
    out: &mut Writer,
) -> Result<(), AllocError>
    ensures tokens { OnOk result (out.new.tokens ≡ out.old.tokens
        ++ (optional_tokens (codes "resourceVersion") (option_copied version.entry) ++ optional_tokens (codes "uid") (option_copied uid.entry))) }
    ensures before { out.new.before ≡ out.old.before }
{
    write_optional("resourceVersion", version, out)?;
    write_optional("uid", uid, out)
}

fn write_compaction(to: u64, out: &mut Writer) -> Result<(), AllocError>
    ensures tokens { OnOk result (out.new.tokens ≡ out.old.tokens ++ json_tokens (outline (compaction_data to))) }
    ensures before { out.new.before ≡ out.old.before }
{
    out.begin_object()?;
    write_text_member("do", "compact", out)?;
    write_version(to, out)?;
    out.end_object()
}

fn write_key(key: &Key, out: &mut Writer) -> Result<(), AllocError>
    ensures tokens { OnOk result (out.new.tokens ≡ out.old.tokens ++ key_tokens key.now) }
    ensures before { out.new.before ≡ out.old.before }
{
    write_names(key.kind, key.name.as_str(), key.namespace.as_str(), out)
}

fn write_names(kind: Kind, name: &str, namespace: &str, out: &mut Writer) -> Result<(), AllocError>
    ensures tokens { OnOk result (out.new.tokens ≡ out.old.tokens ++ key_tokens (key_parts kind namespace.now name.now)) }
    ensures before { out.new.before ≡ out.old.before }
{
    write_kind(kind, out)?;
    write_text_member("name", name, out)?;
    write_text_member("namespace", namespace, out)
}

fn write_kind(kind: Kind, out: &mut Writer) -> Result<(), AllocError>
    ensures tokens { OnOk result (out.new.tokens ≡ out.old.tokens ++ key_token (codes "kind") ∷ string_token (kind_name kind) ∷ []) }
    ensures before { out.new.before ≡ out.old.before }
{
    write_text_member("kind", kind.name(), out)
}

// A text, if it is given.
fn write_optional(name: &str, text: Option<&Text>, out: &mut Writer) -> Result<(), AllocError>
    ensures tokens { OnOk result (out.new.tokens ≡ out.old.tokens ++ optional_tokens name.now (option_copied text.entry)) }
    ensures before { out.new.before ≡ out.old.before }
{
    match text {
        Some(text) => write_text_member(name, text.as_str(), out),
        None => Ok(()),
    }
}
