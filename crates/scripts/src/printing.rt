// What a run of a replay shows, as lines of JSON.
ghost use Rattle.std.specs.Prelude.{◌≡◌, ◌++◌, ◌∷◌, [], IfOk, OnOk};
ghost use Rattle.json.specs.Tree.{json_tokens, items_tokens};
ghost use Rattle.serde_json.specs.Written.{compact_text, outline, items_outline};
ghost use Rattle.plain.specs.ValueLines.{text_lines};
ghost use Rattle.scripts.specs.Printing.{numbers, order_data, reply_data_at, run_text, shown};

use history::{Item, Run};
use json::Writer;
use objects::Memory;
use plain::{Reply, end_line, write_integer_member, write_reply};
use std::alloc::{AllocError, Global};

/// The lines of a run: `{"at":P,"caller":N,"reply":R}` for each reply, P its index and R as a reply line of `serve`,
/// and last `{"order":[..]}` with the indices of the calls in the order of the run.
pub fn run_text(alloc: Global, run: &Run) -> Result<Vec<u8>, Memory>
    ensures { IfOk result (λ text. text.items ≡ run_text run.now.trace.items.items run.now.order.items) }
{
    let replies = put_replies(run.trace.items.as_slice(), Vec::new(alloc))?;
    Ok(put_order(run.order.as_slice(), replies)?)
}

fn put_replies(items: &[Item], out: Vec<u8>) -> Result<Vec<u8>, AllocError>
    ensures { IfOk result (λ text. text.items ≡ out.items ++ text_lines (shown items.now)) }
{
    let mut text = out;
    for item in items {
        text = put_item(item, text)?;
    }
    Ok(text)
}

fn put_item(item: &Item, out: Vec<u8>) -> Result<Vec<u8>, AllocError>
    ensures { IfOk result (λ text. text.items ≡ out.items ++ text_lines (shown (item.now ∷ []))) }
{
    match item {
        Item::Call {
            place: _,
            caller: _,
            request: _,
        } => Ok(out),
        Item::Reply {
            place,
            caller,
            reply,
        } => put_reply(*place, *caller, reply, out),
    }
}

/// Appends the line of a reply: `{"at":P,"caller":N,"reply":R}`, R as a reply line of `serve`.
pub(crate) fn put_reply(
    place: u64,
    caller: u64,
    reply: &Reply,
    out: Vec<u8>,
) -> Result<Vec<u8>, AllocError>
    ensures { IfOk result (λ text. text.items ≡ out.items ++ (compact_text (reply_data_at place caller reply.now) ++ 10 ∷ [])) }
{
    let mut writer = Writer::new(out);
    write_reply_at(place, caller, reply, &mut writer)?;
    end_line(writer)
}

fn write_reply_at(
    place: u64,
    caller: u64,
    reply: &Reply,
    out: &mut Writer,
) -> Result<(), AllocError>
    ensures tokens { OnOk result (out.new.tokens ≡ out.old.tokens ++ json_tokens (outline (reply_data_at place caller reply.now))) }
    ensures before { out.new.before ≡ out.old.before }
{
    out.begin_object()?;
    write_integer_member("at", place, out)?;
    write_integer_member("caller", caller, out)?;
    out.key("reply")?;
    write_reply(reply, out)?;
    out.end_object()
}

/// Appends the line of an order: `{"order":[P,..]}`.
pub(crate) fn put_order(order: &[u64], out: Vec<u8>) -> Result<Vec<u8>, AllocError>
    ensures { IfOk result (λ text. text.items ≡ out.items ++ (compact_text (order_data order.now) ++ 10 ∷ [])) }
{
    let mut writer = Writer::new(out);
    write_order(order, &mut writer)?;
    end_line(writer)
}

fn write_order(order: &[u64], out: &mut Writer) -> Result<(), AllocError>
    ensures tokens { OnOk result (out.new.tokens ≡ out.old.tokens ++ json_tokens (outline (order_data order.now))) }
    ensures before { out.new.before ≡ out.old.before }
{
    out.begin_object()?;
    out.key("order")?;
    out.begin_array()?;
    write_numbers(order, out)?;
    out.end_object()
}

// With the closing bracket.
fn write_numbers(places: &[u64], out: &mut Writer) -> Result<(), AllocError>
    ensures tokens { OnOk result (out.new.tokens ≡ out.old.tokens ++ items_tokens (items_outline (numbers places.now))) }
    ensures before { out.new.before ≡ out.old.before }
{
    for place in places {
        out.u64(*place)?;
    }
    out.end_array()
}
