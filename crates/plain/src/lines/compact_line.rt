// Lines that are compact JSON, handled with no tree of them: a create, an update or a status request, whatever the
// order of its members, and a get whose members are in byte order, as this program writes JSON.
ghost use Rattle.std.specs.Prelude.{◌≡◌, codes, None, Some, Ok, IfOk, IfSome, ◌++◌, ◌∷◌};
ghost use Rattle.serde_json.specs.Data.{Members};
ghost use Rattle.serde_json.specs.Find.{get_member};
ghost use Rattle.serde_json.specs.Written.{compact_text};
ghost use Rattle.compact_objects.specs.Maps.{IsMap};
ghost use Rattle.compact_objects.specs.ReadFrom.{IsReadFrom};
ghost use Rattle.objects.specs.declared.object.Draft.{Draft};
ghost use Rattle.plain_store.specs.PrintedReplies.{reply_printed};
ghost use Rattle.plain_store.specs.Store.{step};
ghost use Rattle.requests.specs.declared.request.Request.{Request};
ghost use Rattle.plain.specs.Replies.{reply_data};
ghost use Rattle.plain.specs.RequestParts.{object_draft};
ghost use Rattle.plain.specs.Served.{answer};
ghost use Rattle.std.specs.Str.{IsUtf8};
ghost use Rattle.objects.specs.Kind.{kind_name};
ghost use Rattle.requests.specs.declared.request.Request.TheVariants.{Get};
ghost use Rattle.plain.specs.CompactGets.{get_text};
ghost use Rattle.plain.specs.Requests.{request_of};
ghost use Rattle.plain.specs.Verbs.{verb_in, write_of};
ghost use Rattle.plain_store.specs.Judged.{IsJudged};

use crate::lines::line_reader::LineReader;
use crate::lines::verb::Verb;
use compact::{Tables, plain_end};
use compact_objects::{
    CompactDraft, as_text, draft_of_line, judge_create, judge_status, judge_update, kind_named,
    text_of,
};
use objects::{Key, Kind, Memory, Printed, Printer, ReadError};
use plain_store::{Plain, PrintedReply};
use requests::Judgment;
use std::alloc::{AllocError, Global};

/// Carries out the write that a line requests, if it is of that form, and returns the reply. None says nothing of the
/// line, and nothing has changed.
pub(crate) fn compact_write(
    alloc: Global,
    plain: &mut Plain,
    reader: &mut LineReader,
    line: &[u8],
) -> Result<Option<PrintedReply>, Memory>
    ensures answered { IfOk result (λ found. IfSome found (λ printed.
        answer plain.old line.now ≡ (plain.new, compact_text (reply_data (reply_printed printed))))) }
    ensures none { IfOk result (λ found. found ≡ None → plain.new ≡ plain.old) }
{
    if !reader.put_in_order(line)? {
        return Ok(None);
    }
    let text = reader.text.as_slice();
    let tables = reader.scanner.tables();
    let Some(verb) = verb_of(text, tables) else {
        return Ok(None);
    };
    let Some(draft) = draft_of_line(alloc, text, tables)? else {
        return Ok(None);
    };
    let written = write_by(alloc, plain, &mut reader.printer, verb, &draft);
    drop(draft);
    written
}

/// The verb of a line in byte order, if it is written with no escape.
#[tactic(auto, unfolding(crate::specs::Verbs::verb_in))]
fn verb_of(text: &[u8], tables: &Tables) -> Option<Verb>
    ensures { (ms : Members) → IsMap text.now tables.now.line ms → IfSome result (λ verb. verb_in ms ≡ Ok verb) }
{
    Verb::named(text_of(tables.line.find(text, b"do")?)?)
}

/// Carries out the write of that verb, if it is one.
fn write_by(
    alloc: Global,
    plain: &mut Plain,
    printer: &mut Printer,
    verb: Verb,
    draft: &CompactDraft<'_>,
) -> Result<Option<PrintedReply>, Memory>
    requires { (d : Draft) × IsReadFrom draft.now d }
    ensures step { (d : Draft) → IsReadFrom draft.now d
        → IfOk result (λ found. IfSome found (λ printed. (r : Request) × (write_of verb d ≡ Some r) × ((plain.new, reply_printed printed) ≡ step plain.old r))) }
    ensures none { IfOk result (λ found. found ≡ None → plain.new ≡ plain.old) }
{
    match judged_by(alloc, plain, printer, verb, draft)? {
        Some(judged) => Ok(Some(plain.carry_out(&draft.key, judged)?)),
        None => Ok(None),
    }
}

/// What the write of that verb does to what now has the draft's key, if it is one.
fn judged_by(
    alloc: Global,
    plain: &mut Plain,
    printer: &mut Printer,
    verb: Verb,
    draft: &CompactDraft<'_>,
) -> Result<Option<Judgment<Printed>>, Memory>
    requires { (d : Draft) × IsReadFrom draft.now d }
    ensures judged { (d : Draft) → IsReadFrom draft.now d
        → IfOk result (λ found. IfSome found (λ judged. (r : Request) × (write_of verb d ≡ Some r) × IsJudged plain.old r draft.now.key judged)) }
    ensures same { plain.new ≡ plain.old }
{
    let number = plain.next_number();
    match verb {
        Verb::Create => {
            let is_there = plain.is_there(&draft.key);
            judge_create(alloc, is_there, draft, number)
        }
        Verb::Update => {
            let current = plain.printed_at(&draft.key)?;
            let judged = judge_update(alloc, current.as_ref(), draft, number);
            drop(current);
            judged
        }
        Verb::Status => {
            let current = plain.printed_at(&draft.key)?;
            let judged = judge_status(alloc, printer, current.as_ref(), draft, number);
            drop(current);
            judged
        }
        Verb::Get | Verb::List | Verb::Delete | Verb::Compact => Ok(None),
    }
}

/// What such a line names.
#[derive(Clone, Copy, Drop)]
struct Named<'a> {
    kind: Kind,
    namespace: &'a str,
    name: &'a str,
}

/// The key that a line requests, if it is a get of that form:
/// `{"do":"get","kind":"Pod","name":"web-0","namespace":"default"}`. None says nothing of the line.
pub(crate) fn compact_get(alloc: Global, line: &[u8]) -> Result<Option<Key>, AllocError>
    ensures { IfOk result (λ found. IfSome found (λ key. request_of line.now ≡ Ok (Get key))) }
{
    let Some(named) = named_by(line) else {
        return Ok(None);
    };
    match Key::of(alloc, named.kind, named.namespace, named.name) {
        Ok(key) => Ok(Some(key)),
        Err(ReadError::Memory) => Err(AllocError),
        Err(_) => Ok(None),
    }
}

fn named_by(line: &[u8]) -> Option<Named<'_>>
    ensures text { IfSome result (λ n. line.now ≡ get_text (kind_name n.kind) n.name.now n.namespace.now) }
    ensures utf8 { IfSome result (λ n. IsUtf8 n.name.now × IsUtf8 n.namespace.now) }
{
    let rest = line.strip_prefix(b"{\"do\":\"get\",\"kind\":\"")?;
    let (kind, rest) = split_at_quote(rest)?;
    let rest = rest.strip_prefix(b",\"name\":\"")?;
    let (name, rest) = split_at_quote(rest)?;
    let rest = rest.strip_prefix(b",\"namespace\":\"")?;
    let namespace = rest.strip_suffix(b"\"}")?;
    let kind = kind_named(kind)?;
    let name = as_text(name)?;
    let namespace = as_text(namespace)?;
    Some(Named {
        kind,
        namespace,
        name,
    })
}

// What is before the first quotation mark, and after it, unless a backslash or a control byte comes first.
fn split_at_quote(bytes: &[u8]) -> Option<(&[u8], &[u8])>
    ensures { IfSome result (λ p. bytes.now ≡ p.0.now ++ 34 ∷ p.1.now) }
{
    let (before, rest) = bytes.split_at(plain_end(bytes));
    let behind = rest.strip_prefix(b"\"")?;
    Some((before, behind))
}
