// Writes: the verdict over the text of the object that is there, and the change that gets the next number.
ghost use Rattle.std.specs.Prelude.{◌≡◌, ◌≢◌, ◌+◌, ◌<◌, ◌^◌, true, is_some, Some, IfOk, IfSome, OnOk, OnErr};
ghost use Rattle.std.specs.FinMap as finite;
ghost use Rattle.std.specs.Option.{option_copied};
ghost use Rattle.plain_store.specs.Reached.{IsReached};
ghost use Rattle.plain_store.specs.Judged.{IsJudged, carried_judged, judged_object};
ghost use Rattle.plain_store.specs.Store.{step, with_next};
ghost use Rattle.plain_store.specs.PrintedReplies.{reply_printed};
ghost use Rattle.requests.specs.Change.{accepted};
ghost use Rattle.requests.specs.ChangeKinds.{change_by, stored_by};
ghost use Rattle.requests.specs.Judgments.{judged_at};
ghost use Rattle.requests.specs.Keys.{key_named};
ghost use Rattle.requests.specs.Verdict.{is_write, verdict};
ghost use Rattle.requests.specs.declared.request.Request.{Request as SpecRequest};

use crate::printed_reply::PrintedReply;
use crate::store::Plain;
use objects::{Key, Memory, Object, Printed, Printer, TreeReader};
use packed::Packed;
use requests::{ChangeKind, Judgment, Reason, Reply, Request, judge_printed};

impl Plain {
    /// Handles a write request; the reply has the text of the object that it is about. If memory runs out, nothing has
    /// changed.
    pub fn write(&mut self, request: Request) -> Result<PrintedReply, Memory>
        requires { is_write request ≡ true }
        ensures step { IfOk result (λ printed. (self.new, reply_printed printed) ≡ step self.old request) }
        ensures memory { OnErr result (self.new ≡ self.old) }
    {
        let _ = &self.versions;
        let Some(key) = request.key() else {
            unreachable!();
        };
        let Ok(key) = key.clone() else {
            drop(request);
            return Err(Memory);
        };
        let printed = self.write_under(&key, request);
        drop(key);
        printed
    }

    /// The same, whose key is given too.
    fn write_under(&mut self, key: &Key, request: Request) -> Result<PrintedReply, Memory>
        requires write { is_write request ≡ true }
        requires key { key_named request ≡ Some key.now }
        ensures step { IfOk result (λ printed. (self.new, reply_printed printed) ≡ step self.old request) }
        ensures memory { OnErr result (self.new ≡ self.old) }
    {
        let judged = self.judge(key, request)?;
        self.carry_out(key, judged)
    }

    /// Handles a write request; the reply has the object that it is about.
    pub(super) fn take_write(&mut self, request: Request) -> Result<Reply, Memory>
        requires { is_write request ≡ true }
        ensures step { IfOk result (λ reply. (self.new, reply) ≡ step self.old request) }
        ensures memory { OnErr result (self.new ≡ self.old) }
    {
        let _ = &self.versions;
        let Some(key) = request.key() else {
            unreachable!();
        };
        let Ok(key) = key.clone() else {
            drop(request);
            return Err(Memory);
        };
        let reply = self.take_under(&key, request);
        drop(key);
        reply
    }

    fn take_under(&mut self, key: &Key, request: Request) -> Result<Reply, Memory>
        requires write { is_write request ≡ true }
        requires key { key_named request ≡ Some key.now }
        ensures step { IfOk result (λ reply. (self.new, reply) ≡ step self.old request) }
        ensures memory { OnErr result (self.new ≡ self.old) }
    {
        let judged = self.judge(key, request)?;
        // Read back before the change: after it memory must not run out.
        let Ok(object) = self.object_of(&judged) else {
            drop(judged);
            return Err(Memory);
        };
        match self.carry(key, judged) {
            Ok(printed) => Ok(printed.with_object(object)),
            Err(error) => {
                drop(object);
                Err(error)
            }
        }
    }

    /// The object of a judgment, read back from its text.
    fn object_of(&mut self, judged: &Judgment<Printed>) -> Result<Option<Object>, Memory>
        ensures object { IfOk result (λ object. object ≡ judged_object judged.now) }
        ensures same { self.new ≡ self.old }
    {
        match judged {
            Judgment::Refuse(_) => Ok(None),
            Judgment::Same(text) | Judgment::Write(_, text) => Ok(Some(text.object(
                &mut self.reader,
            )?)),
        }
    }

    /// What a write does, given what now has its key.
    pub(super) fn judge(&mut self, key: &Key, request: Request) -> Result<Judgment<Printed>, Memory>
        requires write { is_write request ≡ true }
        requires key { key_named request ≡ Some key.now }
        ensures judged { IfOk result (λ judged. judged ≡ judged_at (self.old.counter + 1) (verdict request (finite.get self.old.objects key.now))) }
        ensures reached { IsReached self.old }
        ensures same { self.new ≡ self.old }
    {
        let Ok(current) = self.printed_at(key) else {
            drop(request);
            return Err(Memory);
        };
        let next = self.next_number();
        let judged = judge_printed(
            current.as_ref(),
            request,
            next,
            &mut self.reader,
            &mut self.printer,
        );
        drop(current);
        judged
    }

    /// The number of the next change, if there is one left.
    pub fn next_number(&self) -> u64
        ensures value { result ≡ self.now.counter + 1 }
        ensures small { result < 2 ^ 48 }
    {
        let _ = &self.versions;
        self.counter + 1
    }

    /// Whether an object now has the key.
    pub fn is_there(&mut self, key: &Key) -> bool
        ensures there { result ≡ is_some (finite.get self.old.objects key.now) }
        ensures same { self.new ≡ self.old }
    {
        // The call that creates the object next need not search for its key again.
        self.versions.look_up(key);
        self.versions.at(key, self.counter).is_some()
    }

    /// The object that now has the key, with its text.
    pub fn printed_at(&mut self, key: &Key) -> Result<Option<Printed>, Memory>
        ensures there { IfOk result (λ current. current ≡ finite.get self.old.objects key.now) }
        ensures filed { IfOk result (λ current. IfSome current (λ o. o.key ≡ key.now)) }
        ensures reached { IsReached self.old }
        ensures same { self.new ≡ self.old }
    {
        // The call that changes the object next need not search for it again.
        self.versions.look_up(key);
        printed(
            self.versions.at(key, self.counter),
            &mut self.reader,
            &mut self.printer,
        )
    }

    /// Carries out a write with that judgment, at the next number if there is one left. If memory runs out, nothing has
    /// changed.
    pub fn carry_out(
        &mut self,
        key: &Key,
        judged: Judgment<Printed>,
    ) -> Result<PrintedReply, Memory>
        requires { (r : SpecRequest) × IsJudged self.old r key.now judged }
        ensures step { (r : SpecRequest) → IsJudged self.old r key.now judged
            → IfOk result (λ printed. (self.new, reply_printed printed) ≡ step self.old r) }
        ensures memory { OnErr result (self.new ≡ self.old) }
    {
        let _ = &self.versions;
        self.carry(key, judged)
    }

    fn carry(&mut self, key: &Key, judged: Judgment<Printed>) -> Result<PrintedReply, Memory>
        requires { IsReached (carried_judged self.old key.now judged).0 }
        ensures step { IfOk result (λ printed. (self.new, reply_printed printed) ≡ carried_judged self.old key.now judged) }
        ensures memory { OnErr result (self.new ≡ self.old) }
    {
        match judged {
            Judgment::Refuse(reason) => Ok(PrintedReply::Refused(reason)),
            Judgment::Same(current) => Ok(PrintedReply::Unchanged(current)),
            Judgment::Write(kind, text) => {
                if self.is_full() {
                    drop(text);
                    return Ok(PrintedReply::Refused(Reason::StoreFull));
                }
                self.put_text(kind, key, text)
            }
        }
    }

    /// Allocates the next number for a change of that kind, whose reply has this text.
    fn put_text(
        &mut self,
        kind: ChangeKind,
        key: &Key,
        text: Printed,
    ) -> Result<PrintedReply, Memory>
        requires room { self.old.counter ≢ self.old.capacity }
        requires reached { IsReached (with_next self.old key.now (stored_by kind text)) }
        ensures put { OnOk result (self.new ≡ with_next self.old key.now (stored_by kind text)) }
        ensures reply { IfOk result (λ printed. reply_printed printed ≡ accepted (change_by kind text) text) }
        ensures memory { OnErr result (self.new ≡ self.old) }
    {
        match self.put(kind, key, &text) {
            Ok(()) => Ok(PrintedReply::accepted(kind, text)),
            Err(error) => {
                drop(text);
                Err(error)
            }
        }
    }
}

/// The object that was found, printed.
fn printed(
    found: Option<&Packed>,
    reader: &mut TreeReader,
    printer: &mut Printer,
) -> Result<Option<Printed>, Memory>
    ensures { IfOk result (λ object. object ≡ option_copied found.entry) }
{
    match found {
        Some(packed) => Ok(Some(packed.printed(reader, printer)?)),
        None => Ok(None),
    }
}
