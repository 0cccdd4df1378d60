//! `stsctl race`.
ghost use Rattle.std.specs.Prelude.{◌≡◌, ◌≢◌, ◌<◌, ◌⊎◌, true, false, OnOk};
ghost use Rattle.race_log.specs.Limits.{is_race};
ghost use Rattle.plain.specs.Streams.{Puts, PutsPart};
ghost use Rattle.plan_lines.specs.Output.{CountsWrites};
ghost use Rattle.commands.specs.Racing.{Reports, ReportsPart, history_shown, race_shown};

use crate::race_words::RaceWords;
use crate::status::{BAD_WORDS, FAILURE, REFUSED, SUCCESS, TrackedAlloc};
use plain::{Sink, write_all};
use plan_lines::OutputFault;
use race_log::{RaceFault, RaceHistory, report_line};
use racing::race_history;
use scripts::write_history;
use std::alloc::Global;
use std::sync::Wait;
use std::thread::Threads;
use store::NoGate;

/// Lets controllers race over the running store, and writes the line of the report, after the history if that is
/// requested.
pub(crate) fn run_race<T: Threads + Wait + Sync, W: Sink>(
    rt: &T,
    heap: &mut TrackedAlloc,
    asked: &RaceWords,
    writer: &mut W,
) -> u8
    requires { is_race asked.now.spec ≡ true }
    ensures status { (result < BAD_WORDS) ⊎ (result ≡ REFUSED) }
    ensures legal { result ≡ SUCCESS → Reports true asked.now (W.written writer.old) (W.written writer.new) }
    ensures illegal { result ≡ REFUSED → Reports false asked.now (W.written writer.old) (W.written writer.new) }
    ensures part { result ≡ FAILURE → (writer.new ≡ writer.old) ⊎ ReportsPart asked.now (W.written writer.old) (W.written writer.new) }
    ensures cause { result ≡ FAILURE → (W.failures writer.old < W.failures writer.new) ⊎ (heap.new.refused ≡ true) }
    ensures memory { result ≢ FAILURE → heap.new.refused ≡ heap.old.refused }
    ensures spared { W.failures writer.old < W.failures writer.new → heap.new.refused ≡ heap.old.refused }
{
    match race_history(rt, heap.alloc, &asked.spec, &NoGate) {
        Ok(history) => write_report(heap, asked, &history, writer),
        Err(RaceFault::Memory) => {
            heap.refused = true;
            FAILURE
        }
        // The arguments give no race of another size, and its store is new.
        Err(RaceFault::BadRace | RaceFault::TooManyCallers) => unreachable!(),
    }
}

/// Writes what is requested of the race. A report that is not legal is written like any other.
fn write_report<W: Sink>(
    heap: &mut TrackedAlloc,
    asked: &RaceWords,
    history: &RaceHistory,
    writer: &mut W,
) -> u8
    ensures status { (result < BAD_WORDS) ⊎ (result ≡ REFUSED) }
    ensures legal { result ≡ SUCCESS → (history.now.report.legal ≡ true) × Puts (W.written writer.old) (race_shown asked.now history.now) (W.written writer.new) }
    ensures illegal { result ≡ REFUSED → (history.now.report.legal ≡ false) × Puts (W.written writer.old) (race_shown asked.now history.now) (W.written writer.new) }
    ensures part { PutsPart (W.written writer.old) (race_shown asked.now history.now) (W.written writer.new) }
    ensures cause { result ≡ FAILURE → (W.failures writer.old < W.failures writer.new) ⊎ (heap.new.refused ≡ true) }
    ensures memory { result ≢ FAILURE → heap.new.refused ≡ heap.old.refused }
    ensures spared { W.failures writer.old < W.failures writer.new → heap.new.refused ≡ heap.old.refused }
{
    match write_race(heap.alloc, asked, history, writer) {
        Ok(()) if history.report.legal => SUCCESS,
        Ok(()) => REFUSED,
        Err(OutputFault::Write) => FAILURE,
        Err(OutputFault::Memory) => {
            heap.refused = true;
            FAILURE
        }
    }
}

/// Writes the history of the race, if it is requested, and the line of its report after it.
fn write_race<W: Sink>(
    alloc: Global,
    asked: &RaceWords,
    history: &RaceHistory,
    writer: &mut W,
) -> Result<(), OutputFault>
    ensures all { OnOk result (Puts (W.written writer.old) (race_shown asked.now history.now) (W.written writer.new)) }
    ensures part { PutsPart (W.written writer.old) (race_shown asked.now history.now) (W.written writer.new) }
    ensures writes { CountsWrites result (W.failures writer.old) (W.failures writer.new) }
{
    let line = report_line(alloc, &history.report)?;
    write_calls(alloc, asked, history, writer)?;
    write_all(writer, line.as_slice()).ok_or(OutputFault::Write)
}

/// Writes the history of the race, if it is requested.
fn write_calls<W: Sink>(
    alloc: Global,
    asked: &RaceWords,
    history: &RaceHistory,
    writer: &mut W,
) -> Result<(), OutputFault>
    ensures all { OnOk result (Puts (W.written writer.old) (history_shown asked.now history.now) (W.written writer.new)) }
    ensures part { PutsPart (W.written writer.old) (history_shown asked.now history.now) (W.written writer.new) }
    ensures writes { CountsWrites result (W.failures writer.old) (W.failures writer.new) }
{
    if !asked.history {
        return Ok(());
    }
    let order = history.order.as_slice();
    write_history(alloc, &asked.spec, &history.trace, order, writer)
}
