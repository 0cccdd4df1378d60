//! Exit statuses, and what is written with each.
ghost use Rattle.std.specs.Prelude.{◌≡◌, ◌≢◌, ◌<◌, ◌⊎◌, ◌++◌, ◌∷◌, IfNone, OnSome, Some, codes, decimal, false, true};
ghost use Rattle.plain.specs.Streams.{Puts, PutsPart};
ghost use Rattle.commands.specs.Halts.{Tells, foreign_as, refusal_text, refused_as};

use objects::Text;
use plain::{Sink, write_all};
use std::alloc::Global;

/// The exit status of a run that did everything requested.
pub(crate) const SUCCESS: u8 = 0;

/// The exit status if reading or writing failed, or memory ran out.
pub(crate) const FAILURE: u8 = 1;

/// The exit status if the arguments are no command of the program.
pub(crate) const BAD_WORDS: u8 = 2;

/// The exit status if the input is refused.
pub(crate) const REFUSED: u8 = 3;

/// What a run allocates from, and whether an allocation was refused. The latter distinguishes an exit status of 1 for
/// lack of memory from one without any cause. It is for the clauses of `command`, and for its caller.
#[derive(Drop)]
pub struct TrackedAlloc {
    pub(crate) alloc: Global,
    pub refused: bool,
}

impl TrackedAlloc {
    /// Allocates from there, and no allocation was refused so far.
    pub fn new(alloc: Global) -> TrackedAlloc
        ensures { result.refused ≡ false }
    {
        TrackedAlloc {
            alloc,
            refused: false,
        }
    }
}

/// Writes the requested text.
pub(crate) fn write_text<W: Sink>(writer: &mut W, text: &[u8]) -> u8
    ensures status { result < BAD_WORDS }
    ensures all { result ≡ SUCCESS → Puts (W.written writer.old) text.now (W.written writer.new) }
    ensures part { PutsPart (W.written writer.old) text.now (W.written writer.new) }
    ensures failed { result ≢ SUCCESS → W.failures writer.old < W.failures writer.new }
{
    match write_all(writer, text) {
        Some(()) => SUCCESS,
        None => FAILURE,
    }
}

/// Writes what is wrong with the arguments. The status already says that they are bad, so nothing is lost if this
/// fails.
pub(crate) fn report_bad_words<F: Sink>(faults: &mut F, text: &[u8]) -> u8
    ensures status { result ≡ BAD_WORDS }
    ensures all { (Puts (F.written faults.old) text.now (F.written faults.new)) ⊎ (F.failures faults.old < F.failures faults.new) }
{
    let _ = write_all(faults, text);
    BAD_WORDS
}

/// Writes by which name the input is refused, as `refused: NAME` and a line end. The status already says that it is
/// refused, so nothing is lost if this fails.
pub(crate) fn write_refusal<F: Sink>(faults: &mut F, name: &str) -> u8
    ensures status { result ≡ REFUSED }
    ensures all { Tells name.now (F.written faults.old) (F.written faults.new) (F.failures faults.old) (F.failures faults.new) }
{
    let _ = put_refusal(faults, name);
    REFUSED
}

/// The same for an input that is refused for a line, followed by `line N`, what is wrong in it, and a line end.
pub(crate) fn write_refusal_at<F: Sink>(faults: &mut F, name: &str, line: u64, fault: &str) -> u8
    ensures status { result ≡ REFUSED }
    ensures all { Tells (refused_as (Some line) fault.now name.now) (F.written faults.old) (F.written faults.new) (F.failures faults.old) (F.failures faults.new) }
{
    let _ = put_refusal_at(faults, name, line, fault);
    REFUSED
}

/// The same for a plan that is refused for a pod, followed by `Pod` with its name, and a line end.
pub(crate) fn write_foreign<F: Sink>(faults: &mut F, pod: &Text) -> u8
    ensures status { result ≡ REFUSED }
    ensures all { Tells (foreign_as true pod.now) (F.written faults.old) (F.written faults.new) (F.failures faults.old) (F.failures faults.new) }
{
    let _ = put_foreign(faults, pod);
    REFUSED
}

fn put_foreign<F: Sink>(faults: &mut F, pod: &Text) -> Option<()>
    ensures put { OnSome result (Puts (F.written faults.old) (refusal_text (foreign_as true pod.now)) (F.written faults.new)) }
    ensures failed { IfNone result (F.failures faults.old < F.failures faults.new) }
{
    write_all(faults, b"refused: ")?;
    put_pod(faults, pod)?;
    write_all(faults, b"\n")
}

fn put_pod<F: Sink>(faults: &mut F, pod: &Text) -> Option<()>
    ensures put { OnSome result (Puts (F.written faults.old) (foreign_as true pod.now) (F.written faults.new)) }
    ensures well { OnSome result (F.failures faults.new ≡ F.failures faults.old) }
    ensures failed { IfNone result (F.failures faults.old < F.failures faults.new) }
{
    write_all(faults, b"Foreign\nPod ")?;
    write_all(faults, pod.as_str().as_bytes())
}

fn put_refusal_at<F: Sink>(faults: &mut F, name: &str, line: u64, fault: &str) -> Option<()>
    ensures put { OnSome result (Puts (F.written faults.old) (refusal_text (refused_as (Some line) fault.now name.now)) (F.written faults.new)) }
    ensures failed { IfNone result (F.failures faults.old < F.failures faults.new) }
{
    write_all(faults, b"refused: ")?;
    put_named(faults, name, line, fault)?;
    write_all(faults, b"\n")
}

fn put_named<F: Sink>(faults: &mut F, name: &str, line: u64, fault: &str) -> Option<()>
    ensures put { OnSome result (Puts (F.written faults.old) (refused_as (Some line) fault.now name.now) (F.written faults.new)) }
    ensures well { OnSome result (F.failures faults.new ≡ F.failures faults.old) }
    ensures failed { IfNone result (F.failures faults.old < F.failures faults.new) }
{
    write_all(faults, name.as_bytes())?;
    put_line(faults, line, fault)
}

fn put_line<F: Sink>(faults: &mut F, line: u64, fault: &str) -> Option<()>
    ensures put { OnSome result (Puts (F.written faults.old) (10 ∷ (codes "line " ++ (decimal line ++ fault.now))) (F.written faults.new)) }
    ensures well { OnSome result (F.failures faults.new ≡ F.failures faults.old) }
    ensures failed { IfNone result (F.failures faults.old < F.failures faults.new) }
{
    let mut digits = itoa::Buffer::new();
    let number = digits.format(line);
    write_all(faults, b"\nline ")?;
    write_all(faults, number.as_bytes())?;
    write_all(faults, fault.as_bytes())
}

fn put_refusal<F: Sink>(faults: &mut F, name: &str) -> Option<()>
    ensures put { OnSome result (Puts (F.written faults.old) (refusal_text name.now) (F.written faults.new)) }
    ensures failed { IfNone result (F.failures faults.old < F.failures faults.new) }
{
    write_all(faults, b"refused: ")?;
    write_all(faults, name.as_bytes())?;
    write_all(faults, b"\n")
}
