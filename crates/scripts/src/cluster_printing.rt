// What a run of a cluster shows, as lines of JSON.
ghost use Rattle.std.specs.Prelude.{◌≡◌, ◌++◌, ◌∷◌, [], IfOk, OnOk};
ghost use Rattle.json.specs.Tree.{json_tokens};
ghost use Rattle.serde_json.specs.Written.{compact_text, outline};
ghost use Rattle.plain.specs.ValueLines.{text_lines};
ghost use Rattle.scripts.specs.ClusterPrinting.{call_data_at, caller_tokens, cluster_text, controller_tokens, item_shown, owner_in, shown};

use crate::printing::{put_order, put_reply};
use crate::request_line::write_request;
use cluster_runs::ClusterRun;
use interleavings::Item;
use json::Writer;
use objects::Memory;
use plain::{Request, end_line, write_integer_member};
use std::alloc::{AllocError, Global};
use std::collections::BTreeMap;

/// The lines of a run, in the order of their indices: `{"at":P,"caller":N,"controller":I,"request":L}` for each call of
/// a controller, L as a request line of `serve`, `{"at":P,"caller":N,"request":L}` for each call of another client, and
/// `{"at":P,"caller":N,"reply":R}` for each reply, R as a reply line; last `{"order":[..]}` with the indices of the
/// calls in the order of the run.
pub fn cluster_text(alloc: Global, run: &ClusterRun) -> Result<Vec<u8>, Memory>
    ensures { IfOk result (λ text. text.items ≡ cluster_text (owner_in run.now.owners) run.now.run.trace.items.items run.now.run.order.items) }
{
    let items = put_items(&run.owners, run.run.trace.items.as_slice(), Vec::new(alloc))?;
    Ok(put_order(run.run.order.as_slice(), items)?)
}

fn put_items(
    owners: &BTreeMap<u64, Option<usize>>,
    items: &[Item],
    out: Vec<u8>,
) -> Result<Vec<u8>, AllocError>
    ensures { IfOk result (λ text. text.items ≡ out.items ++ text_lines (shown (owner_in owners.now) items.now)) }
{
    let mut text = out;
    for item in items {
        text = put_item(owners, item, text)?;
    }
    Ok(text)
}

fn put_item(
    owners: &BTreeMap<u64, Option<usize>>,
    item: &Item,
    out: Vec<u8>,
) -> Result<Vec<u8>, AllocError>
    ensures { IfOk result (λ text. text.items ≡ out.items ++ (compact_text (item_shown (owner_in owners.now) item.now) ++ 10 ∷ [])) }
{
    match item {
        Item::Call {
            place,
            caller,
            request,
        } => put_call(*place, *caller, owner_of(owners, *caller), request, out),
        Item::Reply {
            place,
            caller,
            reply,
        } => put_reply(*place, *caller, reply, out),
    }
}

// The controller that a caller is or was.
fn owner_of(owners: &BTreeMap<u64, Option<usize>>, caller: u64) -> Option<usize>
    ensures { result ≡ owner_in owners.now caller }
{
    *owners.get(&caller)?
}

fn put_call(
    place: u64,
    caller: u64,
    controller: Option<usize>,
    request: &Request,
    out: Vec<u8>,
) -> Result<Vec<u8>, AllocError>
    ensures { IfOk result (λ text. text.items ≡ out.items ++ (compact_text (call_data_at place caller controller request.now) ++ 10 ∷ [])) }
{
    let mut writer = Writer::new(out);
    write_call_at(place, caller, controller, request, &mut writer)?;
    end_line(writer)
}

fn write_call_at(
    place: u64,
    caller: u64,
    controller: Option<usize>,
    request: &Request,
    out: &mut Writer,
) -> Result<(), AllocError>
    ensures tokens { OnOk result (out.new.tokens
        ≡ out.old.tokens ++ json_tokens (outline (call_data_at place caller controller request.now))) }
    ensures before { out.new.before ≡ out.old.before }
{
    out.begin_object()?;
    write_caller(place, caller, controller, out)?;
    out.key("request")?;
    write_request(request, out)?;
    out.end_object()
}

// Who calls, and at which index.
fn write_caller(
    place: u64,
    caller: u64,
    controller: Option<usize>,
    out: &mut Writer,
) -> Result<(), AllocError>
    ensures tokens { OnOk result (out.new.tokens ≡ out.old.tokens ++ caller_tokens place caller controller) }
    ensures before { out.new.before ≡ out.old.before }
{
    write_integer_member("at", place, out)?;
    write_integer_member("caller", caller, out)?;
    write_controller(controller, out)
}

fn write_controller(controller: Option<usize>, out: &mut Writer) -> Result<(), AllocError>
    ensures tokens { OnOk result (out.new.tokens ≡ out.old.tokens ++ controller_tokens controller) }
    ensures before { out.new.before ≡ out.old.before }
{
    match controller {
        Some(controller) => write_integer_member("controller", controller as u64, out),
        None => Ok(()),
    }
}
