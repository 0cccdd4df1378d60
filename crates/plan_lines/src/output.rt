// The output of a plan: the lines of its actions, written as they are printed.
ghost use Rattle.std.specs.Prelude.{◌≡◌, ◌<◌, ◌++◌, ◌∷◌, [], length, IfOk, OnErr, OnOk};
ghost use Rattle.plain.specs.Streams.{Puts, PutsPart};
ghost use Rattle.plan_lines.specs.Formats.{action_text, actions_text};
ghost use Rattle.plan_lines.specs.Output.{CountsWrites, PutsBut};
ghost use Rattle.plan_lines.specs.declared.output.OutputFault.TheVariants.{Memory as OutOfMemory};

use crate::action_line::put_action;
use crate::brief::put_brief;
use objects::Memory;
use plain::{Sink, write_all};
use reasons::Why;
use sets::Action;
use std::alloc::{AllocError, Global};
use thiserror::Error;

/// How a line shows an action.
#[derive(Clone, Copy, Drop)]
pub enum Format<'a> {
    /// As compact JSON, with all that is needed to do it.
    Json,
    /// In words, for a person: only names, and why.
    Brief(&'a Why),
}

/// Appends the line of the action.
fn put_formatted(
    alloc: Global,
    format: Format<'_>,
    action: &Action,
    out: Vec<u8>,
) -> Result<Vec<u8>, AllocError>
    ensures { IfOk result (λ text. text.items ≡ out.items ++ (action_text format.entry action.now ++ 10 ∷ [])) }
{
    match format {
        Format::Json => put_action(alloc, action, out),
        Format::Brief(why) => put_brief(why, action, out),
    }
}

/// How many bytes of lines wait before they are written.
const ENOUGH: usize = 65_536;

/// Why the lines were not all written.
#[derive(Clone, Copy, Debug, PartialEq, Eq, Error)]
pub enum OutputFault {
    /// The writer failed.
    #[error("the output could not be written")]
    Write,
    /// An allocation was refused.
    #[error("out of memory")]
    Memory,
}

impl From<Memory> for OutputFault {
    ghost from_gives = { λ _ fault. fault ≡ OutOfMemory };

    fn from(_error: Memory) -> OutputFault {
        OutputFault::Memory
    }
}

impl From<AllocError> for OutputFault {
    ghost from_gives = { λ _ fault. fault ≡ OutOfMemory };

    fn from(_error: AllocError) -> OutputFault {
        OutputFault::Memory
    }
}

/// Writes the actions, one a line and in order, and then the last lines. Brief shows each in words, as `Delete Pod web-2:
/// out of range`, and Json as:
///
/// - `{"do":A,"object":O}` for CreateClaim, CreatePod, UpdateClaim, WriteRevision and WriteStatus;
/// - `{"do":"DeletePod","name":N,"uid":U}`;
/// - `{"do":"DeleteRevision","name":N,"resourceVersion":V,"uid":U}`;
/// - `{"cause":C,"do":"Wait","name":N}`, C Terminating or NotReady.
///
/// A UID or a resource version that was not listed is an empty text. Lines are written once they reach 65,536 bytes, so
/// at any time it holds one line, and less than 65,536 bytes of others.
///
/// # Errors
///
/// If the writer failed or memory ran out, what was written is a prefix of the lines.
pub fn write_actions<W: Sink>(
    alloc: Global,
    format: Format<'_>,
    actions: &[Action],
    last: &[u8],
    writer: &mut W,
) -> Result<(), OutputFault>
    ensures all { OnOk result (Puts (W.written writer.old) (actions_text format.entry actions.now ++ last.now) (W.written writer.new)) }
    ensures part { PutsPart (W.written writer.old) (actions_text format.entry actions.now ++ last.now) (W.written writer.new) }
    ensures writes { CountsWrites result (W.failures writer.old) (W.failures writer.new) }
{
    let mut lines = Vec::new(alloc);
    for action in actions {
        lines = put_line(alloc, format, action, lines, writer)?;
    }
    lines.extend_from_slice(last)?;
    write_all(writer, lines.as_slice()).ok_or(OutputFault::Write)
}

/// Appends the line of the action to the lines that wait, and writes them all if they have 65,536 bytes. Returns what
/// still waits.
fn put_line<W: Sink>(
    alloc: Global,
    format: Format<'_>,
    action: &Action,
    waiting: Vec<u8>,
    writer: &mut W,
) -> Result<Vec<u8>, OutputFault>
    requires { length waiting.items < 65536 }
    ensures put { IfOk result (λ left. PutsBut (W.written writer.old) (waiting.items ++ (action_text format.entry action.now ++ 10 ∷ []))
        left.items (W.written writer.new)) }
    ensures part { OnErr result (PutsPart (W.written writer.old) (waiting.items ++ (action_text format.entry action.now ++ 10 ∷ []))
        (W.written writer.new)) }
    ensures writes { CountsWrites result (W.failures writer.old) (W.failures writer.new) }
    ensures few { IfOk result (λ left. length left.items < 65536) }
    ensures enough { length (waiting.items ++ (action_text format.entry action.now ++ 10 ∷ [])) < 65536 → writer.new ≡ writer.old }
{
    let mut lines = put_formatted(alloc, format, action, waiting)?;
    if ENOUGH <= lines.len() {
        write_all(writer, lines.as_slice()).ok_or(OutputFault::Write)?;
        lines.clear();
    }
    Ok(lines)
}
