// The line of an action.
ghost use Rattle.std.specs.Prelude.{◌≡◌, ◌++◌, ◌∷◌, [], codes, string_bytes, IfOk, OnOk};
ghost use Rattle.json.specs.Token.{key, string};
ghost use Rattle.json.specs.Tree.{json_tokens};
ghost use Rattle.serde_json.specs.Written.{compact_text, outline};
ghost use Rattle.sets.specs.Actions.{version_or_empty};
ghost use Rattle.plan_lines.specs.Actions.{action_data, cause_name, pod_deletion, revision_deletion, uid_or_empty, wait_data, with_object};

use json::Writer;
use objects::{Memory, Object, uid_text};
use plain::{end_line, write_object_member, write_text_member};
use sets::{Action, Cause};
use std::alloc::{AllocError, Global};

/// Appends the line of the action.
pub(crate) fn put_action(
    alloc: Global,
    action: &Action,
    out: Vec<u8>,
) -> Result<Vec<u8>, AllocError>
    ensures { IfOk result (λ text. text.items ≡ out.items ++ (compact_text (action_data action.now) ++ 10 ∷ [])) }
{
    let mut writer = Writer::new(out);
    write_action(alloc, action, &mut writer)?;
    end_line(writer)
}

fn write_action(alloc: Global, action: &Action, out: &mut Writer) -> Result<(), AllocError>
    ensures tokens { OnOk result (out.new.tokens ≡ out.old.tokens ++ json_tokens (outline (action_data action.now))) }
    ensures before { out.new.before ≡ out.old.before }
{
    match action {
        Action::CreateClaim(claim) => write_object_action("CreateClaim", claim, out),
        Action::CreatePod(pod) => write_object_action("CreatePod", pod, out),
        Action::DeletePod { name, uid } => write_pod_deletion(alloc, name.as_str(), *uid, out),
        Action::UpdateClaim(claim) => write_object_action("UpdateClaim", claim, out),
        Action::WriteRevision(revision) => write_object_action("WriteRevision", revision, out),
        Action::DeleteRevision { name, uid, version } => {
            write_revision_deletion(alloc, name.as_str(), *uid, *version, out)
        }
        Action::WriteStatus(set) => write_object_action("WriteStatus", set, out),
        Action::Wait(cause, name) => write_wait(*cause, name.as_str(), out),
    }
}

// An action that writes an object.
fn write_object_action(word: &str, object: &Object, out: &mut Writer) -> Result<(), AllocError>
    ensures tokens { OnOk result (out.new.tokens ≡ out.old.tokens ++ json_tokens (outline (with_object word.now object.now))) }
    ensures before { out.new.before ≡ out.old.before }
{
    out.begin_object()?;
    write_text_member("do", word, out)?;
    write_object_member("object", object, out)?;
    out.end_object()
}

fn write_pod_deletion(
    alloc: Global,
    name: &str,
    uid: u64,
    out: &mut Writer,
) -> Result<(), AllocError>
    ensures tokens { OnOk result (out.new.tokens ≡ out.old.tokens ++ json_tokens (outline (pod_deletion name.now uid))) }
    ensures before { out.new.before ≡ out.old.before }
{
    out.begin_object()?;
    write_text_member("do", "DeletePod", out)?;
    write_text_member("name", name, out)?;
    write_uid(alloc, uid, out)?;
    out.end_object()
}

fn write_revision_deletion(
    alloc: Global,
    name: &str,
    uid: u64,
    version: u64,
    out: &mut Writer,
) -> Result<(), AllocError>
    ensures tokens { OnOk result (out.new.tokens ≡ out.old.tokens ++ json_tokens (outline (revision_deletion name.now version uid))) }
    ensures before { out.new.before ≡ out.old.before }
{
    out.begin_object()?;
    write_text_member("do", "DeleteRevision", out)?;
    write_text_member("name", name, out)?;
    write_version(version, out)?;
    write_uid(alloc, uid, out)?;
    out.end_object()
}

fn write_wait(cause: Cause, name: &str, out: &mut Writer) -> Result<(), AllocError>
    ensures tokens { OnOk result (out.new.tokens ≡ out.old.tokens ++ json_tokens (outline (wait_data cause name.now))) }
    ensures before { out.new.before ≡ out.old.before }
{
    out.begin_object()?;
    write_cause(cause, out)?;
    write_text_member("do", "Wait", out)?;
    write_text_member("name", name, out)?;
    out.end_object()
}

fn write_cause(cause: Cause, out: &mut Writer) -> Result<(), AllocError>
    ensures tokens { OnOk result (out.new.tokens ≡ out.old.tokens ++ key (codes "cause") ∷ string (cause_name cause) ∷ []) }
    ensures before { out.new.before ≡ out.old.before }
{
    match cause {
        Cause::Terminating => write_text_member("cause", "Terminating", out),
        Cause::NotReady => write_text_member("cause", "NotReady", out),
    }
}

fn write_uid(alloc: Global, number: u64, out: &mut Writer) -> Result<(), AllocError>
    ensures tokens { OnOk result (out.new.tokens ≡ out.old.tokens ++ key (codes "uid") ∷ string (uid_or_empty number) ∷ []) }
    ensures before { out.new.before ≡ out.old.before }
{
    let text = uid_or_empty(alloc, number)?;
    write_text_member("uid", text.as_str(), out)
}

fn uid_or_empty(alloc: Global, number: u64) -> Result<String, AllocError>
    ensures { IfOk result (λ text. string_bytes text ≡ uid_or_empty number) }
{
    if number >= 1 << 48 {
        return Ok(String::new(alloc));
    }
    match uid_text(alloc, number) {
        Ok(text) => Ok(text),
        Err(Memory) => Err(AllocError),
    }
}

fn write_version(number: u64, out: &mut Writer) -> Result<(), AllocError>
    ensures tokens { OnOk result (out.new.tokens ≡ out.old.tokens ++ key (codes "resourceVersion") ∷ string (version_or_empty number) ∷ []) }
    ensures before { out.new.before ≡ out.old.before }
{
    let mut buffer = itoa::Buffer::new();
    write_text_member(
        "resourceVersion",
        version_or_empty(&mut buffer, number),
        out,
    )
}

fn version_or_empty<'a>(buffer: &'a mut itoa::Buffer, number: u64) -> &'a str
    ensures { result.now ≡ version_or_empty number }
{
    // 0 means that none was listed.
    if number == 0 {
        ""
    } else {
        buffer.format(number)
    }
}
