// The line of a call or of a reply in a race's history.
ghost use Rattle.std.specs.Prelude.{◌≡◌, ◌++◌, ◌∷◌, [], IfOk, OnOk};
ghost use Rattle.json.specs.Tree.{json_tokens};
ghost use Rattle.serde_json.specs.Written.{compact_text, outline};
ghost use Rattle.scripts.specs.RaceHistory.{call_data, caller_tokens, flag_tokens, item_data, role_tokens};

use crate::printing::put_reply;
use crate::race_role::{Role, role_of};
use crate::request_line::write_request;
use interleavings::Item;
use json::Writer;
use plain::{Request, end_line, write_integer_member};
use race_log::RaceSpec;
use std::alloc::AllocError;

/// Appends the line of the item.
pub(crate) fn put_item(spec: &RaceSpec, item: &Item, out: Vec<u8>) -> Result<Vec<u8>, AllocError>
    ensures { IfOk result (λ text. text.items ≡ out.items ++ (compact_text (item_data spec.now item.now) ++ 10 ∷ [])) }
{
    match item {
        Item::Call {
            place,
            caller,
            request,
        } => put_call(*place, *caller, role_of(spec, *caller), request, out),
        Item::Reply {
            place,
            caller,
            reply,
        } => put_reply(*place, *caller, reply, out),
    }
}

fn put_call(
    place: u64,
    caller: u64,
    role: Role,
    request: &Request,
    out: Vec<u8>,
) -> Result<Vec<u8>, AllocError>
    ensures { IfOk result (λ text. text.items ≡ out.items ++ (compact_text (call_data place caller role request.now) ++ 10 ∷ [])) }
{
    let mut writer = Writer::new(out);
    write_call(place, caller, role, request, &mut writer)?;
    end_line(writer)
}

fn write_call(
    place: u64,
    caller: u64,
    role: Role,
    request: &Request,
    out: &mut Writer,
) -> Result<(), AllocError>
    ensures tokens { OnOk result (out.new.tokens ≡ out.old.tokens ++ json_tokens (outline (call_data place caller role request.now))) }
    ensures before { out.new.before ≡ out.old.before }
{
    out.begin_object()?;
    write_caller(place, caller, role, out)?;
    out.key("request")?;
    write_request(request, out)?;
    out.end_object()
}

// Who calls, and at which index.
fn write_caller(place: u64, caller: u64, role: Role, out: &mut Writer) -> Result<(), AllocError>
    ensures tokens { OnOk result (out.new.tokens ≡ out.old.tokens ++ caller_tokens place caller role) }
    ensures before { out.new.before ≡ out.old.before }
{
    write_integer_member("at", place, out)?;
    write_integer_member("caller", caller, out)?;
    write_role(caller, role, out)
}

fn write_role(caller: u64, role: Role, out: &mut Writer) -> Result<(), AllocError>
    ensures tokens { OnOk result (out.new.tokens ≡ out.old.tokens ++ role_tokens role caller) }
    ensures before { out.new.before ≡ out.old.before }
{
    match role {
        Role::Controller => write_integer_member("controller", caller, out),
        Role::Kubelet => write_flag("kubelet", out),
        Role::Operator => write_flag("operator", out),
        Role::Other => Ok(()),
    }
}

fn write_flag(name: &str, out: &mut Writer) -> Result<(), AllocError>
    ensures tokens { OnOk result (out.new.tokens ≡ out.old.tokens ++ flag_tokens name.now) }
    ensures before { out.new.before ≡ out.old.before }
{
    out.key(name)?;
    out.boolean(true)
}
