// A reply as a JSON value.
ghost use Rattle.std.specs.Prelude.{◌≡◌, ◌++◌, ◌∷◌, [], codes, decimal, OnOk};
ghost use Rattle.json.specs.Token.{begin_array, key, string};
ghost use Rattle.json.specs.Tree.{json_tokens, items_tokens};
ghost use Rattle.serde_json.specs.Written.{outline, items_outline};
ghost use Rattle.plain.specs.Replies.{printed_items, reply_data, with_items, with_object, with_reason, with_revision};
ghost use Rattle.requests.specs.Reasons.{reason_code};

use crate::lines::members::{write_integer_member, write_object_member, write_text_member};
use json::Writer;
use objects::{Object, write_object};
use requests::{Reason, Reply};
use std::alloc::AllocError;

/// Writes the value that a reply line of `serve` is, where a value is expected.
pub fn write_reply(reply: &Reply, out: &mut Writer) -> Result<(), AllocError>
    ensures tokens { OnOk result (out.new.tokens ≡ out.old.tokens ++ json_tokens (outline (reply_data reply.now))) }
    ensures before { out.new.before ≡ out.old.before }
{
    match reply {
        Reply::Created(object) => write_changed(201, object, "Created", out),
        Reply::Found(object) => write_changed(200, object, "Found", out),
        Reply::Listed { objects, revision } => write_listed(objects.as_slice(), *revision, out),
        Reply::Updated(object) => write_changed(200, object, "Updated", out),
        Reply::Unchanged(object) => write_changed(200, object, "Unchanged", out),
        Reply::Marked(object) => write_changed(200, object, "Marked", out),
        Reply::Removed(object) => write_changed(200, object, "Removed", out),
        Reply::Compacted { revision } => write_compacted(*revision, out),
        Reply::Refused(reason) => write_refused(code_of(*reason), reason.name(), out),
    }
}

// A reply that has an object.
fn write_changed(
    code: u64,
    object: &Object,
    outcome: &str,
    out: &mut Writer,
) -> Result<(), AllocError>
    ensures tokens { OnOk result (out.new.tokens ≡ out.old.tokens ++ json_tokens (outline (with_object code object.now outcome.now))) }
    ensures before { out.new.before ≡ out.old.before }
{
    out.begin_object()?;
    write_integer_member("code", code, out)?;
    write_object_member("object", object, out)?;
    write_text_member("result", outcome, out)?;
    out.end_object()
}

fn write_listed(objects: &[Object], revision: u64, out: &mut Writer) -> Result<(), AllocError>
    ensures tokens { OnOk result (out.new.tokens ≡ out.old.tokens ++ json_tokens (outline (with_items objects.now revision))) }
    ensures before { out.new.before ≡ out.old.before }
{
    out.begin_object()?;
    write_integer_member("code", 200, out)?;
    write_items(objects, out)?;
    write_version(revision, out)?;
    write_text_member("result", "Listed", out)?;
    out.end_object()
}

fn write_items(objects: &[Object], out: &mut Writer) -> Result<(), AllocError>
    ensures tokens { OnOk result (out.new.tokens
        ≡ out.old.tokens ++ key (codes "items") ∷ begin_array ∷ items_tokens (items_outline (printed_items objects.now))) }
    ensures before { out.new.before ≡ out.old.before }
{
    out.key("items")?;
    out.begin_array()?;
    write_objects(objects, out)
}

// With the closing bracket.
fn write_objects(objects: &[Object], out: &mut Writer) -> Result<(), AllocError>
    ensures tokens { OnOk result (out.new.tokens ≡ out.old.tokens ++ items_tokens (items_outline (printed_items objects.now))) }
    ensures before { out.new.before ≡ out.old.before }
{
    for object in objects {
        write_object(object, out)?;
    }
    out.end_array()
}

fn write_version(revision: u64, out: &mut Writer) -> Result<(), AllocError>
    ensures tokens { OnOk result (out.new.tokens ≡ out.old.tokens ++ key (codes "resourceVersion") ∷ string (decimal revision) ∷ []) }
    ensures before { out.new.before ≡ out.old.before }
{
    out.key("resourceVersion")?;
    out.quoted_u64(revision)
}

fn write_compacted(revision: u64, out: &mut Writer) -> Result<(), AllocError>
    ensures tokens { OnOk result (out.new.tokens ≡ out.old.tokens ++ json_tokens (outline (with_revision revision))) }
    ensures before { out.new.before ≡ out.old.before }
{
    out.begin_object()?;
    write_integer_member("code", 200, out)?;
    write_version(revision, out)?;
    write_text_member("result", "Compacted", out)?;
    out.end_object()
}

fn code_of(reason: Reason) -> u64
    ensures { result ≡ reason_code reason }
{
    u64::from(reason.code())
}

fn write_refused(code: u64, reason: &str, out: &mut Writer) -> Result<(), AllocError>
    ensures tokens { OnOk result (out.new.tokens ≡ out.old.tokens ++ json_tokens (outline (with_reason code reason.now))) }
    ensures before { out.new.before ≡ out.old.before }
{
    out.begin_object()?;
    write_integer_member("code", code, out)?;
    write_text_member("reason", reason, out)?;
    out.end_object()
}
