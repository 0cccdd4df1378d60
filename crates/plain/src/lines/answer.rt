ghost use Rattle.std.specs.Prelude.{◌≡◌, ◌≢◌, ◌++◌, ◌∷◌, [], true, false, IfOk};
ghost use Rattle.serde_json.specs.Written.{compact_text};
ghost use Rattle.plain.specs.Replies.{reply_data, error_data};
ghost use Rattle.requests.specs.Verdict.{is_write};
ghost use Rattle.plain.specs.Served.{answer};
ghost use Rattle.plain_store.specs.PrintedReplies.{reply_printed, reply_stored};
ghost use Rattle.plain_store.specs.Route.{is_read};
ghost use Rattle.plain_store.specs.Store.{step};
ghost use Rattle.objects.specs.declared.fault.ReadError.TheVariants.{Memory as out_of_memory};
ghost use Rattle.plain.specs.declared.lines.request_error.RequestError.TheVariants.{Read};

use crate::lines::compact_line::{compact_get, compact_write};
use crate::lines::line_reader::LineReader;
use crate::lines::reply_line::{error_line, printed_line, stored_line};
use crate::lines::request_error::RequestError;
use crate::lines::request_line::next_request;
use objects::{Memory, ReadError, TreeReader};
use plain_store::{Plain, PrintedReply, StoredReply};
use requests::Request;
use std::alloc::Global;

/// Answers a line: the reply's text and a line feed are appended to `out`.
pub(crate) fn answer_line(
    alloc: Global,
    plain: &mut Plain,
    reader: &mut LineReader,
    line: &[u8],
    out: Vec<u8>,
) -> Result<Vec<u8>, Memory>
    ensures text { IfOk result (λ v. v.items ≡ out.items ++ ((answer plain.old line.now).1 ++ 10 ∷ [])) }
    ensures store { IfOk result (λ v. plain.new ≡ (answer plain.old line.now).0) }
{
    if let Some(key) = compact_get(alloc, line)? {
        return answer_request(plain, Request::Get(key), out);
    }
    match compact_write(alloc, plain, reader, line)? {
        Some(printed) => answer_printed(printed, out),
        None => answer_by_tree(alloc, plain, &mut reader.tree, line, out),
    }
}

/// Answers a line that is read as a tree.
fn answer_by_tree(
    alloc: Global,
    plain: &mut Plain,
    reader: &mut TreeReader,
    line: &[u8],
    out: Vec<u8>,
) -> Result<Vec<u8>, Memory>
    ensures text { IfOk result (λ v. v.items ≡ out.items ++ ((answer plain.old line.now).1 ++ 10 ∷ [])) }
    ensures store { IfOk result (λ v. plain.new ≡ (answer plain.old line.now).0) }
{
    match next_request(alloc, reader, line) {
        Ok(request) => answer_request(plain, request, out),
        Err(error) => answer_refusal(error, out),
    }
}

fn answer_request(plain: &mut Plain, request: Request, out: Vec<u8>) -> Result<Vec<u8>, Memory>
    ensures text { IfOk result (λ v. v.items ≡ out.items ++ (compact_text (reply_data (step plain.old request).1) ++ 10 ∷ [])) }
    ensures store { IfOk result (λ v. plain.new ≡ (step plain.old request).0) }
{
    if request.is_write() {
        answer_write(plain, request, out)
    } else {
        let line = answer_other(plain, &request, out);
        drop(request);
        line
    }
}

fn answer_write(plain: &mut Plain, request: Request, out: Vec<u8>) -> Result<Vec<u8>, Memory>
    requires { is_write request ≡ true }
    ensures text { IfOk result (λ v. v.items ≡ out.items ++ (compact_text (reply_data (step plain.old request).1) ++ 10 ∷ [])) }
    ensures store { IfOk result (λ v. plain.new ≡ (step plain.old request).0) }
{
    let printed = plain.write(request)?;
    answer_printed(printed, out)
}

fn answer_printed(printed: PrintedReply, out: Vec<u8>) -> Result<Vec<u8>, Memory>
    ensures { IfOk result (λ v. v.items ≡ out.items ++ (compact_text (reply_data (reply_printed printed)) ++ 10 ∷ [])) }
{
    let mut out = out;
    let written = printed_line(&printed, &mut out);
    drop(printed);
    written?;
    Ok(out)
}

fn answer_other(plain: &mut Plain, request: &Request, out: Vec<u8>) -> Result<Vec<u8>, Memory>
    requires { is_write request.now ≡ false }
    ensures text { IfOk result (λ v. v.items ≡ out.items ++ (compact_text (reply_data (step plain.old request.now).1) ++ 10 ∷ [])) }
    ensures store { IfOk result (λ _. plain.new ≡ (step plain.old request.now).0) }
{
    match request {
        Request::Get(_)
        | Request::List {
            kind: _,
            namespace: _,
            exact: _,
        } => answer_read(plain, request, out),
        Request::Compact { to } => answer_stored(&plain.compact(*to), out),
        Request::Create(_)
        | Request::Update(_)
        | Request::UpdateStatus(_)
        | Request::Delete {
            key: _,
            uid: _,
            version: _,
            at: _,
        } => unreachable!(),
    }
}

/// Answers a get or a list, which change nothing.
fn answer_read(plain: &Plain, request: &Request, out: Vec<u8>) -> Result<Vec<u8>, Memory>
    requires { is_read request.now ≡ true }
    ensures text { IfOk result (λ v. v.items ≡ out.items ++ (compact_text (reply_data (step plain.now request.now).1) ++ 10 ∷ [])) }
    ensures store { IfOk result (λ _. plain.now ≡ (step plain.now request.now).0) }
{
    let stored = plain.read(request)?;
    answer_stored(&stored, out)
}

fn answer_stored(stored: &StoredReply, out: Vec<u8>) -> Result<Vec<u8>, Memory>
    ensures { IfOk result (λ v. v.items ≡ out.items ++ (compact_text (reply_data (reply_stored stored.now)) ++ 10 ∷ [])) }
{
    let mut out = out;
    stored_line(stored, &mut out)?;
    Ok(out)
}

fn answer_refusal(error: RequestError, out: Vec<u8>) -> Result<Vec<u8>, Memory>
    ensures refused { IfOk result (λ _. error ≢ Read out_of_memory) }
    ensures text { IfOk result (λ v. v.items ≡ out.items ++ (compact_text (error_data error) ++ 10 ∷ [])) }
{
    match error {
        RequestError::Read(ReadError::Memory) => Err(Memory),
        error => {
            let mut out = out;
            error_line(error, &mut out)?;
            Ok(out)
        }
    }
}
