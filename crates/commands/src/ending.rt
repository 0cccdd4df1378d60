//! `stsctl outcomes`.
ghost use Rattle.std.specs.Prelude.{◌≡◌, ◌≢◌, ◌<◌, ◌⊎◌, ℕ, List, [], true, IfErr, IfOk, IfSome, Some};
ghost use Rattle.plain.specs.Streams.{Puts, PutsPart};
ghost use Rattle.commands.specs.Finding.{IsOutcomesRefusal, IsOutcomesText};
ghost use Rattle.commands.specs.Forms.{WritesBy};
ghost use Rattle.commands.specs.Halts.{CountsReads, IsRefusedIn, Tells, name_of};
ghost use Rattle.commands.specs.Noting.{AreOutcomesNotes, NotesBy};

use crate::args::OutcomesWords;
use crate::finding::{Found, found_in_lines};
use crate::halt::{Halt, report_halt};
use crate::status::{BAD_WORDS, FAILURE, REFUSED, SUCCESS, TrackedAlloc, write_text};
use plain::{Sink, Source, read_all, write_all};
use std::alloc::Global;

/// Writes how the race that the reader has may end, and then the notes about its controllers to `faults`.
pub(crate) fn run_outcomes<R: Source, W: Sink, F: Sink>(
    heap: &mut TrackedAlloc,
    options: OutcomesWords,
    reader: &mut R,
    writer: &mut W,
    faults: &mut F,
) -> u8
    ensures status { (result < BAD_WORDS) ⊎ (result ≡ REFUSED) }
    ensures answered { result ≡ SUCCESS → WritesBy Puts (IsOutcomesText options) (R.remaining reader.old) (R.remaining reader.new)
        (W.written writer.old) (W.written writer.new) }
    ensures noted { result ≡ SUCCESS → NotesBy options (R.remaining reader.old)
        (F.written faults.old) (F.written faults.new) (F.failures faults.old) (F.failures faults.new) }
    ensures part { result ≡ FAILURE → (writer.new ≡ writer.old) ⊎ WritesBy PutsPart (IsOutcomesText options) (R.remaining reader.old) (R.remaining reader.new)
        (W.written writer.old) (W.written writer.new) }
    ensures named { result ≡ REFUSED → (name : List ℕ)
        × (Tells name (F.written faults.old) (F.written faults.new) (F.failures faults.old) (F.failures faults.new))
        × IsRefusedIn (IsOutcomesRefusal options) (R.remaining reader.old) (R.remaining reader.new) name }
    ensures cause { result ≡ FAILURE → (R.failures reader.old < R.failures reader.new) ⊎ ((W.failures writer.old < W.failures writer.new)
        ⊎ (heap.new.refused ≡ true)) }
    ensures memory { result ≢ FAILURE → heap.new.refused ≡ heap.old.refused }
    ensures spared { (R.failures reader.old < R.failures reader.new) ⊎ (W.failures writer.old < W.failures writer.new)
        → heap.new.refused ≡ heap.old.refused }
    ensures quiet { result ≡ FAILURE → faults.new ≡ faults.old }
    ensures silent { result ≡ REFUSED → writer.new ≡ writer.old }
{
    match found_in_all(heap.alloc, options, reader) {
        Ok(found) => write_found(
            writer,
            faults,
            found.text.as_slice(),
            found.notes.as_slice(),
        ),
        Err(halt) => report_halt(heap, halt, faults),
    }
}

/// Writes the text, and then the notes. The status already says that the text is written, so nothing is lost if the notes
/// are not.
fn write_found<W: Sink, F: Sink>(writer: &mut W, faults: &mut F, text: &[u8], notes: &[u8]) -> u8
    ensures status { result < BAD_WORDS }
    ensures all { result ≡ SUCCESS → Puts (W.written writer.old) text.now (W.written writer.new) }
    ensures part { PutsPart (W.written writer.old) text.now (W.written writer.new) }
    ensures failed { result ≢ SUCCESS → W.failures writer.old < W.failures writer.new }
    ensures noted { result ≡ SUCCESS → (Puts (F.written faults.old) notes.now (F.written faults.new)) ⊎ (F.failures faults.old < F.failures faults.new) }
    ensures quiet { result ≢ SUCCESS → faults.new ≡ faults.old }
{
    let status = write_text(writer, text);
    if status == SUCCESS {
        let _ = write_all(faults, notes);
    }
    status
}

/// What is to be written, given all that the reader has.
fn found_in_all<R: Source>(
    alloc: Global,
    options: OutcomesWords,
    reader: &mut R,
) -> Result<Found, Halt>
    ensures answered { IfOk result (λ found. IfSome (R.remaining reader.old)
        (λ input. (R.remaining reader.new ≡ Some []) × IsOutcomesText options input found.text.items)) }
    ensures noted { IfOk result (λ found. IfSome (R.remaining reader.old) (λ input. AreOutcomesNotes options input found.notes.items)) }
    ensures refused { IfErr result (λ halt. IfSome (name_of halt) (IsRefusedIn (IsOutcomesRefusal options) (R.remaining reader.old) (R.remaining reader.new))) }
    ensures reads { CountsReads result (R.failures reader.old) (R.failures reader.new) }
{
    let input = read_all(alloc, reader)?;
    found_in_lines(alloc, options, input.as_slice())
}
