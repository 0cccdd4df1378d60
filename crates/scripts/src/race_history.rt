// The history of a race, written as it is printed.
ghost use Rattle.std.specs.Prelude.{◌≡◌, ◌<◌, ◌++◌, ◌∷◌, [], length, IfOk, OnErr, OnOk};
ghost use Rattle.serde_json.specs.Written.{compact_text};
ghost use Rattle.plain.specs.Streams.{Puts, PutsPart};
ghost use Rattle.plan_lines.specs.Output.{CountsWrites, PutsBut};
ghost use Rattle.scripts.specs.RaceHistory.{history_text, item_data};

use crate::printing::put_order;
use crate::race_item::put_item;
use interleavings::{Item, Trace};
use plain::{Sink, write_all};
use plan_lines::OutputFault;
use race_log::RaceSpec;
use std::alloc::Global;

/// How many bytes of lines wait before they are written.
const ENOUGH: usize = 65_536;

/// Writes the requests and replies in a race of this size, one a line and in the order of the log:
///
/// - `{"at":P,"caller":N,"controller":N,"request":L}` for the call of a controller, L as a request line of `serve`;
/// - `{"at":P,"caller":N,"kubelet":true,"request":L}` for that of the kubelet, and with `"operator":true` for the operator's;
/// - `{"at":P,"caller":N,"request":L}` for that of any other caller;
/// - `{"at":P,"caller":N,"reply":R}` for a reply, R as a reply line of `serve`;
///
/// and last `{"order":[P,..]}`, the indices of calls in the given order. Lines are written once they reach 65,536
/// bytes, so at any time it holds one line, and less than 65,536 bytes of others.
///
/// # Errors
///
/// If the writer failed or memory ran out, what was written is a prefix of the lines.
pub fn write_history<W: Sink>(
    alloc: Global,
    spec: &RaceSpec,
    trace: &Trace,
    order: &[u64],
    writer: &mut W,
) -> Result<(), OutputFault>
    ensures all { OnOk result (Puts (W.written writer.old) (history_text spec.now trace.now.items.items order.now) (W.written writer.new)) }
    ensures part { PutsPart (W.written writer.old) (history_text spec.now trace.now.items.items order.now) (W.written writer.new) }
    ensures writes { CountsWrites result (W.failures writer.old) (W.failures writer.new) }
{
    let mut lines = Vec::new(alloc);
    for item in trace.items.as_slice() {
        lines = put_line(spec, item, lines, writer)?;
    }
    let rest = put_order(order, lines)?;
    write_all(writer, rest.as_slice()).ok_or(OutputFault::Write)
}

/// Appends the line of the item to the lines that wait, and writes them all if they have 65,536 bytes. Returns what
/// still waits.
fn put_line<W: Sink>(
    spec: &RaceSpec,
    item: &Item,
    waiting: Vec<u8>,
    writer: &mut W,
) -> Result<Vec<u8>, OutputFault>
    requires { length waiting.items < 65536 }
    ensures put { IfOk result (λ left. PutsBut (W.written writer.old) (waiting.items ++ (compact_text (item_data spec.now item.now) ++ 10 ∷ []))
        left.items (W.written writer.new)) }
    ensures part { OnErr result (PutsPart (W.written writer.old) (waiting.items ++ (compact_text (item_data spec.now item.now) ++ 10 ∷ []))
        (W.written writer.new)) }
    ensures writes { CountsWrites result (W.failures writer.old) (W.failures writer.new) }
    ensures few { IfOk result (λ left. length left.items < 65536) }
    ensures enough { length (waiting.items ++ (compact_text (item_data spec.now item.now) ++ 10 ∷ [])) < 65536 → writer.new ≡ writer.old }
{
    let mut lines = put_item(spec, item, waiting)?;
    if ENOUGH <= lines.len() {
        write_all(writer, lines.as_slice()).ok_or(OutputFault::Write)?;
        lines.clear();
    }
    Ok(lines)
}
