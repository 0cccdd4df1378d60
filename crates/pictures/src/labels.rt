//! What the lines of a picture, and of other accounts of a run, say of requests and replies.
ghost use Rattle.std.specs.Prelude.{◌≡◌, ◌++◌, ◌∷◌, length, string_bytes, OnOk};
ghost use Rattle.objects.specs.ShardOf.{key_text};
ghost use Rattle.pictures.specs.Labels.{count_words, list_words, number_words, object_words, reply_words, request_words, version_words};

use objects::{Key, Kind, Object, Text, version_number};
use requests::{Listing, Reply, Request};
use std::alloc::AllocError;

/// Appends a request, as `create Pod/default/web-0`, or `update Pod/default/web-0 at 7`.
pub fn put_request(request: &Request, out: &mut String) -> Result<(), AllocError>
    ensures { OnOk result (string_bytes out.new ≡ string_bytes out.old ++ request_words request.now) }
{
    match request {
        Request::Create(draft) => put_verb("create", &draft.object.key, out),
        Request::Get(key) => put_verb("get", key, out),
        Request::List {
            kind,
            namespace,
            exact,
        } => put_list(*kind, namespace.as_str(), *exact, out),
        Request::Update(draft) => put_verb_at("update", &draft.object.key, &draft.version, out),
        Request::UpdateStatus(draft) => {
            put_verb_at("status", &draft.object.key, &draft.version, out)
        }
        Request::Delete {
            key,
            uid: _,
            version,
            at: _,
        } => put_verb_at("delete", key, version, out),
        Request::Compact { to } => write!(out, "compact to {to}"),
    }
}

fn put_verb(verb: &str, key: &Key, out: &mut String) -> Result<(), AllocError>
    ensures { OnOk result (string_bytes out.new ≡ string_bytes out.old ++ (verb.now ++ 32 ∷ key_text key.now)) }
{
    let kind = key.kind.name();
    let namespace = key.namespace.as_str();
    let name = key.name.as_str();
    write!(out, "{verb} {kind}/{namespace}/{name}")
}

fn put_verb_at(
    verb: &str,
    key: &Key,
    version: &Option<Text>,
    out: &mut String,
) -> Result<(), AllocError>
    ensures { OnOk result (string_bytes out.new ≡ string_bytes out.old ++ ((verb.now ++ 32 ∷ key_text key.now) ++ version_words version.now)) }
{
    put_verb(verb, key, out)?;
    put_version(version, out)
}

/// Appends the version in the precondition.
fn put_version(version: &Option<Text>, out: &mut String) -> Result<(), AllocError>
    ensures { OnOk result (string_bytes out.new ≡ string_bytes out.old ++ version_words version.now) }
{
    match version {
        Some(version) => put_number(version_number(version.as_str()), out),
        None => Ok(()),
    }
}

fn put_number(number: u64, out: &mut String) -> Result<(), AllocError>
    ensures { OnOk result (string_bytes out.new ≡ string_bytes out.old ++ number_words number) }
{
    // A text that is no version counts as 0.
    if number == 0 {
        return out.push_str(" at an unknown version");
    }
    write!(out, " at {number}")
}

fn put_list(kind: Kind, namespace: &str, exact: u64, out: &mut String) -> Result<(), AllocError>
    ensures { OnOk result (string_bytes out.new ≡ string_bytes out.old ++ list_words kind namespace.now exact) }
{
    let kind = kind.name();
    // 0 means the list as it is now.
    if exact == 0 {
        return write!(out, "list {kind}/{namespace}");
    }
    write!(out, "list {kind}/{namespace} at {exact}")
}

/// Appends a reply, as `Created, version 7`.
pub fn put_reply(reply: &Reply, out: &mut String) -> Result<(), AllocError>
    ensures { OnOk result (string_bytes out.new ≡ string_bytes out.old ++ reply_words reply.now) }
{
    match reply {
        Reply::Created(object) => put_object("Created", object, out),
        Reply::Found(object) => put_object("Found", object, out),
        Reply::Listed { objects, revision } => put_listing(objects, *revision, out),
        Reply::Updated(object) => put_object("Updated", object, out),
        Reply::Unchanged(object) => put_object("Unchanged", object, out),
        Reply::Marked(object) => put_object("Marked", object, out),
        Reply::Removed(object) => put_object("Removed", object, out),
        Reply::Compacted { revision } => write!(out, "Compacted, version {revision}"),
        Reply::Refused(reason) => out.push_str(reason.name()),
    }
}

fn put_object(name: &str, object: &Object, out: &mut String) -> Result<(), AllocError>
    ensures { OnOk result (string_bytes out.new ≡ string_bytes out.old ++ object_words name.now object.now) }
{
    write!(out, "{name}, version {}", object.meta.revision)
}

fn put_listing(objects: &Listing, revision: u64, out: &mut String) -> Result<(), AllocError>
    ensures { OnOk result (string_bytes out.new ≡ string_bytes out.old ++ count_words (length objects.now) revision) }
{
    put_count(objects.as_slice().len(), revision, out)
}

fn put_count(count: usize, revision: u64, out: &mut String) -> Result<(), AllocError>
    ensures { OnOk result (string_bytes out.new ≡ string_bytes out.old ++ count_words count revision) }
{
    write!(out, "Listed {count}, version {revision}")
}
