//! Commands that read all their input, and write one text.
ghost use Rattle.std.specs.Prelude.{◌≡◌, ◌≢◌, ◌<◌, ◌⊎◌, ℕ, List, [], false, true, IfOk, IfErr, IfSome, Some};
ghost use Rattle.plain.specs.Streams.{Puts, PutsPart};
ghost use Rattle.commands.specs.Forms.{WritesBy};
ghost use Rattle.commands.specs.Halts.{CountsReads, IsRefusedIn, Tells, is_read, name_of};

use crate::halt::{Halt, report_halt};
use crate::status::{BAD_WORDS, FAILURE, REFUSED, SUCCESS, TrackedAlloc, write_text};
use plain::{Sink, Source, read_all};
use std::alloc::Global;

/// What a command makes of an input.
pub(crate) trait Answer {
    /// Whether that text is an output for that input.
    ghost is_text: { Self → List ℕ → List ℕ → Type 0 };
    /// Whether that input is refused by that name.
    ghost is_refusal: { Self → List ℕ → List ℕ → Type 0 };

    fn answer(&self, alloc: Global, input: &[u8]) -> Result<Vec<u8>, Halt>
        ensures answered { IfOk result (λ text. is_text self.now input.now text.items) }
        ensures refused { IfErr result (λ halt. IfSome (name_of halt) (is_refusal self.now input.now)) }
        ensures read { IfErr result (λ halt. is_read halt ≡ false) };
}

/// Writes what the command makes of all that the reader has.
pub(crate) fn run_word<A: Answer, R: Source, W: Sink, F: Sink>(
    heap: &mut TrackedAlloc,
    word: &A,
    reader: &mut R,
    writer: &mut W,
    faults: &mut F,
) -> u8
    ensures status { (result < BAD_WORDS) ⊎ (result ≡ REFUSED) }
    ensures answered { result ≡ SUCCESS → WritesBy Puts (A.is_text word.now) (R.remaining reader.old) (R.remaining reader.new)
        (W.written writer.old) (W.written writer.new) }
    ensures part { result ≡ FAILURE → (writer.new ≡ writer.old) ⊎ WritesBy PutsPart (A.is_text word.now) (R.remaining reader.old) (R.remaining reader.new)
        (W.written writer.old) (W.written writer.new) }
    ensures named { result ≡ REFUSED → (name : List ℕ)
        × (Tells name (F.written faults.old) (F.written faults.new) (F.failures faults.old) (F.failures faults.new))
        × IsRefusedIn (A.is_refusal word.now) (R.remaining reader.old) (R.remaining reader.new) name }
    ensures cause { result ≡ FAILURE → (R.failures reader.old < R.failures reader.new) ⊎ ((W.failures writer.old < W.failures writer.new)
        ⊎ (heap.new.refused ≡ true)) }
    ensures memory { result ≢ FAILURE → heap.new.refused ≡ heap.old.refused }
    ensures spared { (R.failures reader.old < R.failures reader.new) ⊎ (W.failures writer.old < W.failures writer.new)
        → heap.new.refused ≡ heap.old.refused }
    ensures quiet { result < BAD_WORDS → faults.new ≡ faults.old }
    ensures silent { result ≡ REFUSED → writer.new ≡ writer.old }
{
    match answer_to_all(heap.alloc, word, reader) {
        Ok(text) => write_text(writer, text.as_slice()),
        Err(halt) => report_halt(heap, halt, faults),
    }
}

/// What is to be written, given all that the reader has.
fn answer_to_all<A: Answer, R: Source>(
    alloc: Global,
    word: &A,
    reader: &mut R,
) -> Result<Vec<u8>, Halt>
    ensures answered { IfOk result (λ text. IfSome (R.remaining reader.old)
        (λ input. (R.remaining reader.new ≡ Some []) × A.is_text word.now input text.items)) }
    ensures refused { IfErr result (λ halt. IfSome (name_of halt) (IsRefusedIn (A.is_refusal word.now) (R.remaining reader.old) (R.remaining reader.new))) }
    ensures reads { CountsReads result (R.failures reader.old) (R.failures reader.new) }
{
    let input = read_all(alloc, reader)?;
    word.answer(alloc, input.as_slice())
}
