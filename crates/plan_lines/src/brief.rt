// The line of an action in words, and why it is done.
ghost use Rattle.std.specs.Prelude.{◌≡◌, ◌++◌, ◌∷◌, [], IfOk, OnOk};
ghost use Rattle.reasons.specs.Why.{grounds};
ghost use Rattle.plan_lines.specs.Brief.{action_words, brief_line, cause_words, pod_words, reason_words};

use objects::Object;
use reasons::{Reason, Why};
use sets::{Action, Cause};
use std::alloc::AllocError;

/// Appends the line of the action.
pub(crate) fn put_brief(why: &Why, action: &Action, out: Vec<u8>) -> Result<Vec<u8>, AllocError>
    ensures { IfOk result (λ text. text.items ≡ out.items ++ (brief_line (grounds why.now) action.now ++ 10 ∷ [])) }
{
    let mut text = out;
    put_line(why, action, &mut text)?;
    Ok(text)
}

fn put_line(why: &Why, action: &Action, text: &mut Vec<u8>) -> Result<(), AllocError>
    ensures { OnOk result (text.new.items ≡ text.old.items ++ (brief_line (grounds why.now) action.now ++ 10 ∷ [])) }
{
    put_action(action, text)?;
    put_reason(why, why.reason(action), text)?;
    put("\n", text)
}

// What is done to which object.
fn put_action(action: &Action, text: &mut Vec<u8>) -> Result<(), AllocError>
    ensures { OnOk result (text.new.items ≡ text.old.items ++ action_words action.now) }
{
    match action {
        Action::CreateClaim(claim) => put_object("Create PersistentVolumeClaim ", claim, text),
        Action::CreatePod(pod) => put_object("Create Pod ", pod, text),
        Action::DeletePod { name, .. } => put_two("Delete Pod ", name.as_str(), text),
        Action::UpdateClaim(claim) => put_object("Update PersistentVolumeClaim ", claim, text),
        Action::WriteRevision(revision) => put_object("Write ControllerRevision ", revision, text),
        Action::DeleteRevision { name, .. } => {
            put_two("Delete ControllerRevision ", name.as_str(), text)
        }
        Action::WriteStatus(set) => put_object("Write the status of StatefulSet ", set, text),
        Action::Wait(cause, name) => {
            put_three("Wait for Pod ", name.as_str(), cause_words(*cause), text)
        }
    }
}

fn put_reason(why: &Why, reason: Reason, text: &mut Vec<u8>) -> Result<(), AllocError>
    ensures { OnOk result (text.new.items ≡ text.old.items ++ reason_words (grounds why.now) reason) }
{
    match reason {
        Reason::Unstated => Ok(()),
        Reason::OutOfRange => put(": out of range", text),
        Reason::Failed => put(": failed", text),
        Reason::Outdated => put_two(": update to ", why.update(), text),
        Reason::Stays => put(": nobody will own it, and it stays", text),
        Reason::DeletedWithSet => put_set(why, text),
        Reason::DeletedWithPod(ordinal) => {
            let last = " will own it, and it goes with the pod";
            put_pod(": Pod ", why, ordinal, last, text)
        }
        Reason::HoldsUpItself => put(": it holds up its own update", text),
        Reason::HoldsUp(ordinal) => put_pod(": it holds up the update of ", why, ordinal, "", text),
    }
}

fn put_set(why: &Why, text: &mut Vec<u8>) -> Result<(), AllocError>
    ensures { OnOk result (text.new.items ≡ text.old.items ++ reason_words (grounds why.now) Reason.DeletedWithSet) }
{
    let name = why.set().object.key.name.as_str();
    let last = " will own it, and it goes with the set";
    put_three(": StatefulSet ", name, last, text)
}

// The set's pod of that ordinal among these words.
fn put_pod(
    before: &str,
    why: &Why,
    ordinal: u32,
    after: &str,
    text: &mut Vec<u8>,
) -> Result<(), AllocError>
    ensures { OnOk result (text.new.items ≡ text.old.items ++ pod_words before.now (grounds why.now) ordinal after.now) }
{
    let mut digits = itoa::Buffer::new();
    put_three(before, why.set().object.key.name.as_str(), "-", text)?;
    put_two(digits.format(ordinal), after, text)
}

fn put_object(words: &str, object: &Object, text: &mut Vec<u8>) -> Result<(), AllocError>
    ensures { OnOk result (text.new.items ≡ text.old.items ++ (words.now ++ object.now.key.name)) }
{
    put_two(words, object.key.name.as_str(), text)
}

fn put_three(first: &str, second: &str, third: &str, text: &mut Vec<u8>) -> Result<(), AllocError>
    ensures { OnOk result (text.new.items ≡ text.old.items ++ (first.now ++ (second.now ++ third.now))) }
{
    put_two(first, second, text)?;
    put(third, text)
}

pub(crate) fn put_two(first: &str, second: &str, text: &mut Vec<u8>) -> Result<(), AllocError>
    ensures { OnOk result (text.new.items ≡ text.old.items ++ (first.now ++ second.now)) }
{
    put(first, text)?;
    put(second, text)
}

pub(crate) fn put(words: &str, text: &mut Vec<u8>) -> Result<(), AllocError>
    ensures { OnOk result (text.new.items ≡ text.old.items ++ words.now) }
{
    text.extend_from_slice(words.as_bytes())
}

fn cause_words(cause: Cause) -> &'static str
    ensures { result.now ≡ cause_words cause }
{
    match cause {
        Cause::Terminating => ", which is terminating",
        Cause::NotReady => ", which is not ready",
    }
}
