// The verdicts on writes, by the text of the object that now has the key. What is written is printed at the number that
// it will get.
ghost use Rattle.std.specs.Prelude.{◌≡◌, ◌<◌, ◌^◌, true, None, Some, IfOk, IfSome};
ghost use Rattle.std.specs.Option.{option_copied};
ghost use Rattle.requests.specs.Judgments.{judged_at, verdict_of};
ghost use Rattle.requests.specs.Verdict.{has_status, is_write, on_delete, status_unless_same, unless_same, verdict};
ghost use Rattle.requests.specs.Keys.{key_named};
ghost use Rattle.requests.specs.declared.request.Request.TheVariants.{Delete, Update, UpdateStatus};
ghost use Rattle.objects.specs.Rewrites.{replaced};

use crate::admission::found;
use crate::change_kind::ChangeKind;
use crate::outcomes::object_of;
use crate::preconditions::{borrowed, has_status, is_graceful};
use crate::reply::Reason;
use crate::request::Request;
use crate::table::{found_by, judge};
use crate::verdict::Judgment;
use objects::{Draft, Key, Memory, Object, Printed, Printer, Text, TreeReader};

/// What a write does, given the text of the object that now has its key, if there is one. What it writes has the
/// resource version `number`, which is the next one of the store.
#[tactic(auto, using(crate::proofs::Denials::timeless))]
pub fn judge_printed(
    current: Option<&Printed>,
    request: Request,
    number: u64,
    reader: &mut TreeReader,
    printer: &mut Printer,
) -> Result<Judgment<Printed>, Memory>
    requires write { is_write request ≡ true }
    requires key { IfSome (option_copied current) (λ o. Some o.key ≡ key_named request) }
    requires number { number < 2 ^ 48 }
    ensures { IfOk result (λ judged. judged ≡ judged_at number (verdict request (option_copied current.entry))) }
{
    match request {
        Request::Update(draft) => {
            if has_status(draft.object.key.kind) {
                judge_update(current, draft, number, reader, printer)
            } else {
                judge_by_tree(current, Request::Update(draft), number, reader, printer)
            }
        }
        Request::UpdateStatus(draft) => {
            let judged = judge_status(current, &draft, number, reader, printer);
            drop(draft);
            judged
        }
        Request::Delete {
            key,
            uid,
            version,
            at,
        } => judge_delete(current, key, uid, version, at, number, reader, printer),
        request => judge_by_tree(current, request, number, reader, printer),
    }
}

/// What a delete does. Only a graceful one needs the object read back.
#[tactic(auto, using(crate::proofs::Denials::timeless))]
fn judge_delete(
    current: Option<&Printed>,
    key: Key,
    uid: Option<Text>,
    version: Option<Text>,
    at: Option<Text>,
    number: u64,
    reader: &mut TreeReader,
    printer: &mut Printer,
) -> Result<Judgment<Printed>, Memory>
    requires key { IfSome (option_copied current) (λ o. o.key ≡ key) }
    requires number { number < 2 ^ 48 }
    ensures { IfOk result (λ judged. judged ≡ judged_at number (verdict (Delete key uid version at) (option_copied current.entry))) }
{
    if is_graceful(key.kind, at.as_ref()) {
        let request = Request::Delete {
            key,
            uid,
            version,
            at,
        };
        return judge_by_tree(current, request, number, reader, printer);
    }
    drop(key);
    drop(at);
    let judged = judge_removal(
        current,
        version.as_ref(),
        uid.as_ref(),
        number,
        reader,
        printer,
    );
    drop(version);
    drop(uid);
    judged
}

/// What a write does to the object read back.
fn judge_by_tree(
    current: Option<&Printed>,
    request: Request,
    number: u64,
    reader: &mut TreeReader,
    printer: &mut Printer,
) -> Result<Judgment<Printed>, Memory>
    requires write { is_write request ≡ true }
    requires number { number < 2 ^ 48 }
    ensures { IfOk result (λ judged. judged ≡ judged_at number (verdict request (option_copied current.entry))) }
{
    let Ok(current) = read_back(current, reader) else {
        drop(request);
        return Err(Memory);
    };
    let judged = judge(current.as_ref(), request);
    drop(current);
    printed_at(judged?, number, printer)
}

fn read_back(current: Option<&Printed>, reader: &mut TreeReader) -> Result<Option<Object>, Memory>
    ensures { IfOk result (λ object. object ≡ option_copied current.entry) }
{
    match current {
        Some(current) => Ok(Some(current.object(reader)?)),
        None => Ok(None),
    }
}

/// The judgment, its object printed as the number leaves it.
#[tactic(auto, using(crate::proofs::Denials::kind_by))]
fn printed_at(
    judged: Judgment<Object>,
    number: u64,
    printer: &mut Printer,
) -> Result<Judgment<Printed>, Memory>
    requires { number < 2 ^ 48 }
    ensures { IfOk result (λ printed. printed ≡ judged_at number (verdict_of judged)) }
{
    match judged {
        Judgment::Refuse(reason) => Ok(Judgment::Refuse(reason)),
        Judgment::Same(object) => Ok(Judgment::Same(printer.print(&object)?)),
        Judgment::Write(kind, object) => {
            let object = kind.stamped(object, number);
            Ok(Judgment::Write(kind, printer.print(&object)?))
        }
    }
}

/// What an update of an object that may have a status does, given the text of the object that now has its key, if there
/// is one.
#[tactic(auto, using(crate::proofs::Denials::update_denied))]
fn judge_update(
    current: Option<&Printed>,
    draft: Draft,
    number: u64,
    reader: &mut TreeReader,
    printer: &mut Printer,
) -> Result<Judgment<Printed>, Memory>
    requires status { has_status draft.object.key.kind ≡ true }
    requires key { IfSome (option_copied current) (λ o. o.key ≡ draft.object.key) }
    ensures { IfOk result (λ judged. judged ≡ judged_at number (verdict (Update draft) (option_copied current.entry))) }
{
    match found_by(current, &draft) {
        Ok(current) => update_unless_same(current, object_of(draft), number, reader, printer),
        Err(reason) => {
            drop(draft);
            Ok(Judgment::Refuse(reason))
        }
    }
}

fn update_unless_same(
    current: &Printed,
    object: Object,
    number: u64,
    reader: &mut TreeReader,
    printer: &mut Printer,
) -> Result<Judgment<Printed>, Memory>
    requires { current.now.key ≡ object.key }
    ensures { IfOk result (λ judged. judged ≡ judged_at number (unless_same current.now (replaced current.now object))) }
{
    match current.replaced(reader, printer, object, number)? {
        Some(text) => Ok(Judgment::Write(ChangeKind::Update, text)),
        None => Ok(Judgment::Same(current.clone()?)),
    }
}

/// What a status request does, given the text of the object that now has its key, if there is one.
#[tactic(auto, using(crate::proofs::Denials::status_denied))]
fn judge_status(
    current: Option<&Printed>,
    draft: &Draft,
    number: u64,
    reader: &mut TreeReader,
    printer: &mut Printer,
) -> Result<Judgment<Printed>, Memory>
    ensures { IfOk result (λ judged. judged ≡ judged_at number (verdict (UpdateStatus draft.now) (option_copied current.entry))) }
{
    if !has_status(draft.object.key.kind) {
        return Ok(Judgment::Refuse(Reason::Invalid));
    }
    match found_by(current, draft) {
        Ok(current) => status_unless_same(current, draft, number, reader, printer),
        Err(reason) => Ok(Judgment::Refuse(reason)),
    }
}

fn status_unless_same(
    current: &Printed,
    draft: &Draft,
    number: u64,
    reader: &mut TreeReader,
    printer: &mut Printer,
) -> Result<Judgment<Printed>, Memory>
    ensures { IfOk result (λ judged. judged ≡ judged_at number (status_unless_same current.now draft.now)) }
{
    if current.has_status(reader, draft.object.member("status"))? {
        return Ok(Judgment::Same(current.clone()?));
    }
    let text = current.with_status(reader, printer, draft.object.status()?, number)?;
    Ok(Judgment::Write(ChangeKind::Update, text))
}

/// What a delete that is not graceful does, given the text of the object that now has its key, if there is one.
#[tactic(auto, using(crate::proofs::Denials::delete_denied))]
fn judge_removal(
    current: Option<&Printed>,
    version: Option<&Text>,
    uid: Option<&Text>,
    number: u64,
    reader: &mut TreeReader,
    printer: &mut Printer,
) -> Result<Judgment<Printed>, Memory>
    ensures { IfOk result (λ judged. judged ≡ judged_at number
        (on_delete (option_copied version.entry) (option_copied uid.entry) None (option_copied current.entry))) }
{
    match found(current, borrowed(version), borrowed(uid)) {
        Ok(current) => Ok(Judgment::Write(
            ChangeKind::Removal,
            current.at_version(reader, printer, number)?,
        )),
        Err(reason) => Ok(Judgment::Refuse(reason)),
    }
}
