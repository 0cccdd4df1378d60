//! `stsctl serve`.
ghost use Rattle.std.specs.Prelude.{◌≡◌, ◌≢◌, ◌≤◌, ◌<◌, ◌⊎◌, true};
ghost use Rattle.plain.specs.Streams.{ServesPart};
ghost use Rattle.plain.specs.Served.{served, served_so_far};
ghost use Rattle.commands.specs.Serving.{IsOutOfRange, ServesAll};

use crate::status::{BAD_WORDS, FAILURE, SUCCESS, TrackedAlloc};
use plain::{MAX_REVISIONS, ServeFault, Sink, Source};

/// Serves the lines of the reader.
pub(crate) fn run_serve<R: Source, W: Sink>(
    heap: &mut TrackedAlloc,
    reader: &mut R,
    writer: &mut W,
    capacity: u64,
) -> u8
    ensures status { result < BAD_WORDS }
    ensures range { result ≡ SUCCESS → (1 ≤ capacity) × (capacity ≤ MAX_REVISIONS) }
    ensures all { result ≡ SUCCESS → ServesAll capacity (R.remaining reader.old) (R.remaining reader.new)
        (W.written writer.old) (W.written writer.new) }
    ensures part { result ≢ SUCCESS → ServesPart (served_so_far capacity) (served capacity)
        (R.remaining reader.old) (R.remaining reader.new) (W.written writer.old) (W.written writer.new) }
    ensures cause { result ≢ SUCCESS → (R.failures reader.old < R.failures reader.new) ⊎ ((W.failures writer.old < W.failures writer.new)
        ⊎ ((heap.new.refused ≡ true) ⊎ IsOutOfRange capacity)) }
    ensures memory { result ≡ SUCCESS → heap.new.refused ≡ heap.old.refused }
    ensures spared { (R.failures reader.old < R.failures reader.new) ⊎ ((W.failures writer.old < W.failures writer.new)
        ⊎ IsOutOfRange capacity) → heap.new.refused ≡ heap.old.refused }
{
    match plain::serve(heap.alloc, reader, writer, capacity) {
        Ok(_) => SUCCESS,
        Err(ServeFault::Memory) => {
            heap.refused = true;
            FAILURE
        }
        Err(ServeFault::Read | ServeFault::Write | ServeFault::BadCapacity) => FAILURE,
    }
}
