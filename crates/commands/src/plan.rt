//! `stsctl plan`.
ghost use Rattle.std.specs.Prelude.{◌≡◌, ◌≢◌, ◌≤◌, ◌<◌, ◌⊎◌, ℕ, List, [], true, false, IfOk, IfErr, IfSome, Some, Ok};
ghost use Rattle.plan_lines.specs.Objects.{lists_of, nothing, read_from};
ghost use Rattle.set_views.specs.Set.{set_parts};
ghost use Rattle.sets.specs.Plan.{IsPlan};
ghost use Rattle.plain.specs.Streams.{Puts, PutsPart};
ghost use Rattle.plan_lines.specs.Formats.{actions_text, json_text};
ghost use Rattle.reasons.specs.Reasons.{grounds_of_lists};
ghost use Rattle.sets.specs.declared.action.Action.{Action};
ghost use Rattle.commands.specs.Forms.{WritesBy};
ghost use Rattle.commands.specs.Halts.{CountsReads, Tells, is_read, name_of, told_line};
ghost use Rattle.objects.specs.Steps.{Fails};
ghost use Rattle.plain.specs.Lines.{lines};
ghost use Rattle.plan_lines.specs.RefusedLines.{refused_line_of};
ghost use Rattle.commands.specs.Planning.{IsInputRefusal, IsPlanOfSetRefused, IsPlanRefusal, IsPlanRefusedBy, IsPlanText, IsRefusedOver, IsTextOfSet, IsTextOver, fault_words, plan_refusal, planned_text, text_by, text_with};

use crate::args::PlanWords;
use crate::halt::{Halt, halt_at, report_halt};
use crate::status::{BAD_WORDS, FAILURE, REFUSED, SUCCESS, TrackedAlloc};
use objects::{Memory, ReadError};
use plain::{RequestError, Sink, Source, read_all};
use plan_lines::{
    Format, Listed, OutputFault, closing_lines, named_set, read_objects, refused_object_line,
    write_actions,
};
use reasons::Why;
use sets::{Plan, PlanError, Set, read_set};
use std::alloc::Global;

/// A plan, what its reasons depend on if it is to be in words, and the lines after its actions.
#[derive(Drop)]
struct Planned {
    plan: Plan,
    why: Option<Why>,
    closing: Vec<u8>,
}

/// Plans the requested set, given the objects that the reader has, and writes the actions.
pub(crate) fn run_plan<R: Source, W: Sink, F: Sink>(
    heap: &mut TrackedAlloc,
    asked: &PlanWords<'_>,
    reader: &mut R,
    writer: &mut W,
    faults: &mut F,
) -> u8
    requires some { 1 ≤ asked.now.digits }
    requires most { asked.now.digits ≤ 64 }
    ensures status { (result < BAD_WORDS) ⊎ (result ≡ REFUSED) }
    ensures planned { result ≡ SUCCESS → WritesBy Puts (IsPlanText asked.now) (R.remaining reader.old) (R.remaining reader.new)
        (W.written writer.old) (W.written writer.new) }
    ensures part { result ≡ FAILURE → (writer.new ≡ writer.old) ⊎ WritesBy PutsPart (IsPlanText asked.now) (R.remaining reader.old) (R.remaining reader.new)
        (W.written writer.old) (W.written writer.new) }
    ensures named { result ≡ REFUSED → (name : List ℕ)
        × (Tells name (F.written faults.old) (F.written faults.new) (F.failures faults.old) (F.failures faults.new))
        × IsPlanRefusedBy asked.now (R.remaining reader.old) (R.remaining reader.new) name }
    ensures cause { result ≡ FAILURE → (R.failures reader.old < R.failures reader.new) ⊎ ((W.failures writer.old < W.failures writer.new)
        ⊎ (heap.new.refused ≡ true)) }
    ensures memory { result ≢ FAILURE → heap.new.refused ≡ heap.old.refused }
    ensures spared { (R.failures reader.old < R.failures reader.new) ⊎ (W.failures writer.old < W.failures writer.new)
        → heap.new.refused ≡ heap.old.refused }
    ensures quiet { result < BAD_WORDS → faults.new ≡ faults.old }
    ensures silent { result ≡ REFUSED → writer.new ≡ writer.old }
{
    match plan_of_input(heap.alloc, asked, reader) {
        Ok(planned) => write_plan(heap, &planned, writer),
        Err(halt) => report_halt(heap, halt, faults),
    }
}

/// Writes the actions of the plan, and the lines after them.
fn write_plan<W: Sink>(heap: &mut TrackedAlloc, planned: &Planned, writer: &mut W) -> u8
    ensures status { result < BAD_WORDS }
    ensures all { result ≡ SUCCESS → Puts (W.written writer.old) (planned_text planned.now) (W.written writer.new) }
    ensures part { PutsPart (W.written writer.old) (planned_text planned.now) (W.written writer.new) }
    ensures cause { result ≡ FAILURE → (W.failures writer.old < W.failures writer.new) ⊎ (heap.new.refused ≡ true) }
    ensures memory { result ≢ FAILURE → heap.new.refused ≡ heap.old.refused }
    ensures spared { W.failures writer.old < W.failures writer.new → heap.new.refused ≡ heap.old.refused }
{
    let actions = planned.plan.actions.as_slice();
    let format = format_by(&planned.why);
    match write_actions(
        heap.alloc,
        format,
        actions,
        planned.closing.as_slice(),
        writer,
    ) {
        Ok(()) => SUCCESS,
        Err(OutputFault::Write) => FAILURE,
        Err(OutputFault::Memory) => {
            heap.refused = true;
            FAILURE
        }
    }
}

/// How the actions are written: in words if there are reasons.
fn format_by(why: &Option<Why>) -> Format<'_>
    ensures { (actions : List Action) → actions_text result actions ≡ text_with why.now actions }
{
    match why {
        None => Format::Json,
        Some(why) => Format::Brief(why),
    }
}

/// The plan, given all that the reader has.
fn plan_of_input<R: Source>(
    alloc: Global,
    asked: &PlanWords<'_>,
    reader: &mut R,
) -> Result<Planned, Halt>
    requires some { 1 ≤ asked.now.digits }
    requires most { asked.now.digits ≤ 64 }
    ensures planned { IfOk result (λ planned. IfSome (R.remaining reader.old)
        (λ input. (R.remaining reader.new ≡ Some []) × IsPlanText asked.now input (planned_text planned))) }
    ensures refused { IfErr result (λ halt. IfSome (name_of halt) (IsPlanRefusedBy asked.now (R.remaining reader.old) (R.remaining reader.new))) }
    ensures reads { CountsReads result (R.failures reader.old) (R.failures reader.new) }
{
    let input = read_all(alloc, reader)?;
    plan_of_lines(alloc, asked, input.as_slice())
}

/// The plan, given the lines of its objects.
fn plan_of_lines(alloc: Global, asked: &PlanWords<'_>, input: &[u8]) -> Result<Planned, Halt>
    requires some { 1 ≤ asked.now.digits }
    requires most { asked.now.digits ≤ 64 }
    ensures planned { IfOk result (λ planned. IsPlanText asked.now input.now (planned_text planned)) }
    ensures refused { IfErr result (λ halt. IfSome (name_of halt) (IsPlanRefusal asked.now input.now)) }
    ensures read { IfErr result (λ halt. is_read halt ≡ false) }
{
    let listed = match read_objects(alloc, input) {
        Ok(listed) => listed,
        Err(error) => return Err(no_objects(alloc, asked.shows_line, error, input)),
    };
    plan_of_objects(alloc, asked, &listed)
}

/// Why an input with a line that is no object has no plan.
fn no_objects(alloc: Global, shows_line: bool, error: ReadError, input: &[u8]) -> Halt
    ensures read { is_read result ≡ false }
    ensures refused { Fails error (read_from nothing (lines input.now)) → IfSome (name_of result) (IsInputRefusal shows_line input.now) }
{
    match error {
        ReadError::Memory => Halt::Memory,
        error => match line_told(alloc, shows_line, input) {
            Ok(line) => halt_at(RequestError::Read(error).name(), line, fault_words(error)),
            Err(Memory) => Halt::Memory,
        },
    }
}

/// What is wrong in a line that is no object.
fn fault_words(error: ReadError) -> &'static str
    ensures { result.now ≡ fault_words error }
{
    match error {
        ReadError::NotJson => ": it is not JSON",
        ReadError::NotWhole => ": a number is not whole",
        ReadError::NoKind => ": kind",
        ReadError::UnknownKind => ": kind or apiVersion",
        ReadError::BadName => ": metadata.name or metadata.namespace",
        ReadError::BadMeta => ": another member of metadata",
        ReadError::TooLong => ": it is too long",
        ReadError::Memory => "",
    }
}

/// The first line that is none, if it is to be named.
fn line_told(alloc: Global, shows_line: bool, input: &[u8]) -> Result<Option<u64>, Memory>
    ensures { IfOk result (λ line. line ≡ told_line shows_line (refused_line_of input.now)) }
{
    if shows_line {
        refused_object_line(alloc, input)
    } else {
        Ok(None)
    }
}

/// The plan, given the objects that were listed.
fn plan_of_objects(alloc: Global, asked: &PlanWords<'_>, listed: &Listed) -> Result<Planned, Halt>
    requires some { 1 ≤ asked.now.digits }
    requires most { asked.now.digits ≤ 64 }
    ensures planned { IfOk result (λ planned. IsTextOver asked.now (lists_of listed.now) (planned_text planned)) }
    ensures refused { IfErr result (λ halt. IfSome (name_of halt) (IsRefusedOver asked.now (lists_of listed.now))) }
    ensures read { IfErr result (λ halt. is_read halt ≡ false) }
{
    let Some(object) = named_set(listed.sets.as_slice(), asked.namespace, asked.name) else {
        return Err(Halt::Refused("NotFound"));
    };
    let set = read_set(alloc, object)?;
    plan_to_write(alloc, asked, listed, set)
}

/// The plan of this set, with what is needed to write it.
fn plan_to_write(
    alloc: Global,
    asked: &PlanWords<'_>,
    listed: &Listed,
    set: Set,
) -> Result<Planned, Halt>
    requires some { 1 ≤ asked.now.digits }
    requires most { asked.now.digits ≤ 64 }
    ensures planned { IfOk result (λ planned. IsTextOfSet asked.now (set_parts set) (lists_of listed.now) (planned_text planned)) }
    ensures refused { IfErr result (λ halt. IfSome (name_of halt) (IsPlanOfSetRefused asked.now (set_parts set) (lists_of listed.now))) }
    ensures read { IfErr result (λ halt. is_read halt ≡ false) }
{
    let plan = plan_or_halt(alloc, asked, listed, &set)?;
    if asked.brief {
        Ok(in_words(alloc, asked.digits, listed, set, plan)?)
    } else {
        drop(set);
        Ok(in_json(alloc, plan))
    }
}

/// A plan that is to be written as JSON.
fn in_json(alloc: Global, plan: Plan) -> Planned
    ensures { planned_text result ≡ json_text plan.actions.items }
{
    Planned {
        plan,
        why: None,
        closing: Vec::new(alloc),
    }
}

/// A plan of the set that is to be written in words.
fn in_words(
    alloc: Global,
    digits: usize,
    listed: &Listed,
    set: Set,
    plan: Plan,
) -> Result<Planned, Memory>
    requires some { 1 ≤ digits }
    requires most { digits ≤ 64 }
    ensures { IfOk result (λ planned. planned_text planned ≡ text_by true
        (grounds_of_lists (set_parts set) digits listed.now.revisions.items listed.now.pods.items) listed.now.claims.items plan.actions.items) }
{
    let pods = listed.pods.as_slice();
    let why = Why::of(alloc, set, pods, listed.revisions.as_slice(), digits)?;
    let actions = plan.actions.as_slice();
    let closing = closing_lines(alloc, &why, actions, listed.claims.as_slice())?;
    Ok(Planned {
        plan,
        why: Some(why),
        closing,
    })
}

/// The plan of this set, or why there is none.
fn plan_or_halt(
    alloc: Global,
    asked: &PlanWords<'_>,
    listed: &Listed,
    set: &Set,
) -> Result<Plan, Halt>
    requires some { 1 ≤ asked.now.digits }
    requires most { asked.now.digits ≤ 64 }
    ensures planned { IfOk result (λ plan.
        IsPlan (set_parts set.now) listed.now.pods.items listed.now.claims.items listed.now.revisions.items asked.now.digits (Ok plan)) }
    ensures refused { IfErr result (λ halt. IfSome (name_of halt) (IsPlanOfSetRefused asked.now (set_parts set.now) (lists_of listed.now))) }
    ensures read { IfErr result (λ halt. is_read halt ≡ false) }
{
    match plan_of_set(alloc, asked.digits, listed, set) {
        Ok(plan) => Ok(plan),
        Err(error) => Err(no_plan(asked.shows_line, error)),
    }
}

/// The plan of this set.
fn plan_of_set(alloc: Global, digits: usize, listed: &Listed, set: &Set) -> Result<Plan, PlanError>
    requires some { 1 ≤ digits }
    requires most { digits ≤ 64 }
    ensures { IsPlan (set_parts set.now) listed.now.pods.items listed.now.claims.items listed.now.revisions.items digits result }
{
    sets::plan(
        alloc,
        set,
        listed.pods.as_slice(),
        listed.claims.as_slice(),
        listed.revisions.as_slice(),
        digits,
    )
}

/// Why a set has no plan, with the pod that is not the set's, if it is to be told.
fn no_plan(shows_pod: bool, error: PlanError) -> Halt
    ensures read { is_read result ≡ false }
    ensures named { name_of result ≡ plan_refusal shows_pod error }
{
    if !shows_pod {
        return Halt::from(error);
    }
    match error {
        PlanError::Foreign(pod) => Halt::Foreign(pod),
        error => Halt::from(error),
    }
}
