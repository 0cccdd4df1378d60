// The line of a reply: its text, with those of its objects copied in, and a line feed.
ghost use Rattle.std.specs.Prelude.{◌≡◌, ◌++◌, ◌∷◌, [], true, false, codes, decimal, map, OnOk};
ghost use Rattle.json.specs.Print.{escape};
ghost use Rattle.serde_json.specs.Written.{compact_text, comma_if, items_text};
ghost use Rattle.objects.specs.Text.{text};
ghost use Rattle.plain.specs.Replies.{error_data, printed_items, reply_data, with_items, with_object, with_reason, with_revision};
ghost use Rattle.requests.specs.Reasons.{reason_code, reason_name};
ghost use Rattle.plain_store.specs.PrintedReplies.{reply_printed, reply_stored};

use crate::lines::request_error::RequestError;
use objects::Printed;
use packed::Packed;
use plain_store::{PrintedReply, StoredReply};
use requests::Reason;
use std::alloc::AllocError;

/// The start of the line of a reply with an object that the request made.
const MADE: &str = "{\"code\":201,\"object\":";

/// The start of the line of any other reply with an object.
const DONE: &str = "{\"code\":200,\"object\":";

/// Writes the line of the reply to a write.
pub(crate) fn printed_line(printed: &PrintedReply, out: &mut Vec<u8>) -> Result<(), AllocError>
    ensures { OnOk result (out.new.items ≡ out.old.items ++ (compact_text (reply_data (reply_printed printed.now)) ++ 10 ∷ [])) }
{
    match printed {
        PrintedReply::Created(text) => object_line(MADE, text, ",\"result\":\"Created\"}\n", out),
        PrintedReply::Updated(text) => object_line(DONE, text, ",\"result\":\"Updated\"}\n", out),
        PrintedReply::Unchanged(text) => {
            object_line(DONE, text, ",\"result\":\"Unchanged\"}\n", out)
        }
        PrintedReply::Marked(text) => object_line(DONE, text, ",\"result\":\"Marked\"}\n", out),
        PrintedReply::Removed(text) => object_line(DONE, text, ",\"result\":\"Removed\"}\n", out),
        PrintedReply::Refused(reason) => refused_line(*reason, out),
    }
}

/// Writes the line of the reply to a request that is no write.
pub(crate) fn stored_line(stored: &StoredReply, out: &mut Vec<u8>) -> Result<(), AllocError>
    ensures { OnOk result (out.new.items ≡ out.old.items ++ (compact_text (reply_data (reply_stored stored.now)) ++ 10 ∷ [])) }
{
    match stored {
        StoredReply::Found(packed) => packed_line(packed, out),
        StoredReply::Listed { objects, revision } => listed_line(
            objects.as_slice(),
            *revision,
            out,
        ),
        StoredReply::Compacted { revision } => compacted_line(*revision, out),
        StoredReply::Refused(reason) => refused_line(*reason, out),
    }
}

/// Writes the line of the refusal of a line that is no request.
pub(crate) fn error_line(error: RequestError, out: &mut Vec<u8>) -> Result<(), AllocError>
    ensures { OnOk result (out.new.items ≡ out.old.items ++ (compact_text (error_data error) ++ 10 ∷ [])) }
{
    reason_line(400, error.name(), out)
}

// The front, the object's text and the back.
fn object_line(
    front: &str,
    object: &Printed,
    back: &str,
    out: &mut Vec<u8>,
) -> Result<(), AllocError>
    ensures { OnOk result (out.new.items ≡ out.old.items ++ (front.now ++ (text object.now ++ back.now))) }
{
    put(front, out)?;
    put(object.as_str(), out)?;
    put(back, out)
}

fn packed_line(object: &Packed, out: &mut Vec<u8>) -> Result<(), AllocError>
    ensures { OnOk result (out.new.items ≡ out.old.items ++ (compact_text (with_object 200 object.now (codes "Found")) ++ 10 ∷ [])) }
{
    put(DONE, out)?;
    object.write_text(out)?;
    put(",\"result\":\"Found\"}\n", out)
}

fn listed_line(objects: &[&Packed], revision: u64, out: &mut Vec<u8>) -> Result<(), AllocError>
    ensures { OnOk result (out.new.items ≡ out.old.items ++ (compact_text (with_items (map (λ o. o.now) objects.now) revision) ++ 10 ∷ [])) }
{
    let mut buffer = itoa::Buffer::new();
    put_code(200, out)?;
    put(",\"items\":[", out)?;
    put_items(objects, out)?;
    put(",\"resourceVersion\":\"", out)?;
    put(buffer.format(revision), out)?;
    put_last("\",\"result\":\"", "Listed", out)
}

fn compacted_line(revision: u64, out: &mut Vec<u8>) -> Result<(), AllocError>
    ensures { OnOk result (out.new.items ≡ out.old.items ++ (compact_text (with_revision revision) ++ 10 ∷ [])) }
{
    let mut buffer = itoa::Buffer::new();
    put_code(200, out)?;
    put(",\"resourceVersion\":\"", out)?;
    put(buffer.format(revision), out)?;
    put_last("\",\"result\":\"", "Compacted", out)
}

fn refused_line(reason: Reason, out: &mut Vec<u8>) -> Result<(), AllocError>
    ensures { OnOk result (out.new.items ≡ out.old.items ++ (compact_text (with_reason (reason_code reason) (reason_name reason)) ++ 10 ∷ [])) }
{
    reason_line(reason.code(), reason.name(), out)
}

fn reason_line(code: u16, reason: &str, out: &mut Vec<u8>) -> Result<(), AllocError>
    requires { escape reason.now ≡ reason.now }
    ensures { OnOk result (out.new.items ≡ out.old.items ++ (compact_text (with_reason code reason.now) ++ 10 ∷ [])) }
{
    put_code(code, out)?;
    put_last(",\"reason\":\"", reason, out)
}

fn put_code(code: u16, out: &mut Vec<u8>) -> Result<(), AllocError>
    ensures { OnOk result (out.new.items ≡ out.old.items ++ (codes "{\"code\":" ++ decimal code)) }
{
    let mut buffer = itoa::Buffer::new();
    put("{\"code\":", out)?;
    put(buffer.format(code), out)
}

// Writes the start of the last member, its text and all that ends a line.
fn put_last(front: &str, text: &str, out: &mut Vec<u8>) -> Result<(), AllocError>
    ensures { OnOk result (out.new.items ≡ out.old.items ++ (front.now ++ (text.now ++ codes "\"}\n"))) }
{
    put(front, out)?;
    put(text, out)?;
    put("\"}\n", out)
}

// With the closing bracket.
fn put_items(objects: &[&Packed], out: &mut Vec<u8>) -> Result<(), AllocError>
    ensures { OnOk result (out.new.items ≡ out.old.items ++ items_text false (printed_items (map (λ o. o.now) objects.now))) }
{
    let mut later = false;
    for object in objects {
        put_item(later, object, out)?;
        later = true;
    }
    put("]", out)
}

fn put_item(later: bool, object: &Packed, out: &mut Vec<u8>) -> Result<(), AllocError>
    ensures { OnOk result (out.new.items ≡ out.old.items ++ (comma_if later ++ text object.now)) }
{
    if later {
        put(",", out)?;
    }
    object.write_text(out)
}

fn put(text: &str, out: &mut Vec<u8>) -> Result<(), AllocError>
    ensures { OnOk result (out.new.items ≡ out.old.items ++ text.now) }
{
    out.extend_from_slice(text.as_bytes())
}
