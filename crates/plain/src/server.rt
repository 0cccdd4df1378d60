ghost use Rattle.std.specs.Prelude.{◌≡◌, ◌+◌, ◌<◌, ◌≤◌, ◌^◌, ◌++◌, [], length, IfOk, IfSome, OnOk, OnErr, IsErrOf, ◌↔◌, Some};
ghost use Rattle.plain.specs.Lines.{ended_lines, lines};
ghost use Rattle.plain.specs.Served.{served, served_so_far, answers};
ghost use Rattle.plain.specs.Splits.{NoFeed};
ghost use Rattle.plain.specs.Streams.{Puts, PutsPart, ServesEnded, ServesPart};
ghost use Rattle.plain.specs.Serving.{Answered};
ghost use Rattle.plain.specs.Faults.{CountsReads, CountsWrites, IsWriteOrMemory, IsInRange};
ghost use Rattle.plain_store.specs.Reached.{most_revisions};
ghost use Rattle.plain.specs.declared.server.ServeFault.TheVariants.{Memory as OutOfMemory, BadCapacity as CapacityOut};

use crate::devices::stream::{Sink, Source, write_all};
use crate::lines::line_reader::LineReader;
use crate::lines::splitter::{Paused, Splitter, answer_last, answer_piece};
use objects::Memory;
use plain_store::{Plain, PlainError};
use std::alloc::{AllocError, Global};
use thiserror::Error;

/// The room for one read, in bytes.
const READ_ROOM: usize = 65_536;

/// Why `serve` ended before the end of the input.
#[derive(Clone, Copy, Debug, PartialEq, Eq, Error)]
pub enum ServeFault {
    /// The reader failed.
    #[error("the input could not be read")]
    Read,
    /// The writer failed.
    #[error("the output could not be written")]
    Write,
    /// An allocation was refused.
    #[error("out of memory")]
    Memory,
    /// The capacity is not from 1 to 1,048,576.
    #[error("the capacity is out of range")]
    BadCapacity,
}

impl From<Memory> for ServeFault {
    ghost from_gives = { λ _ fault. fault ≡ OutOfMemory };

    fn from(_error: Memory) -> ServeFault {
        ServeFault::Memory
    }
}

impl From<PlainError> for ServeFault {
    ghost from_gives = { λ _ fault. fault ≡ CapacityOut };

    fn from(error: PlainError) -> ServeFault {
        match error {
            PlainError::BadCapacity => ServeFault::BadCapacity,
        }
    }
}

impl From<AllocError> for ServeFault {
    ghost from_gives = { λ _ fault. fault ≡ OutOfMemory };

    fn from(_error: AllocError) -> ServeFault {
        ServeFault::Memory
    }
}

/// Answers lines that end in the piece, until the replies are enough, and writes these.
fn answer_some<'a, W: Sink>(
    alloc: Global,
    plain: &mut Plain,
    writer: &mut W,
    splitter: Splitter,
    piece: &'a [u8],
) -> Result<Paused<'a>, ServeFault>
    requires begun { NoFeed splitter.pending.items }
    requires room { splitter.lines + length splitter.pending.items + length piece.now < 2 ^ 64 }
    requires written { splitter.replies.items ≡ [] }
    ensures reaches { IfOk result (λ v. Answered plain.old (splitter.pending.items ++ piece.now) splitter.lines (W.written writer.old)
        plain.new (v.splitter.pending.items ++ v.rest.now) v.splitter.lines (W.written writer.new)) }
    ensures begun { IfOk result (λ v. NoFeed v.splitter.pending.items) }
    ensures count { IfOk result (λ v.
        v.splitter.lines + length v.splitter.pending.items + length v.rest.now ≤ splitter.lines + length splitter.pending.items + length piece.now) }
    ensures shorter { IfOk result (λ v. 0 < length piece.now → length v.rest.now < length piece.now) }
    ensures written { IfOk result (λ v. v.splitter.replies.items ≡ []) }
    ensures fault { OnErr result (PutsPart (W.written writer.old)
        (answers plain.old (ended_lines (splitter.pending.items ++ piece.now))) (W.written writer.new)) }
    ensures writes { CountsWrites result (W.failures writer.old) (W.failures writer.new) }
    ensures cause { IsWriteOrMemory result }
{
    let mut paused = answer_piece(alloc, plain, splitter, piece)?;
    write_all(writer, paused.splitter.replies.as_slice()).ok_or(ServeFault::Write)?;
    paused.splitter.replies.clear();
    Ok(paused)
}

/// Answers the lines that end in the piece, and writes the replies.
fn answer_read<W: Sink>(
    alloc: Global,
    plain: &mut Plain,
    writer: &mut W,
    mut splitter: Splitter,
    piece: &[u8],
) -> Result<Splitter, ServeFault>
    requires begun { NoFeed splitter.pending.items }
    requires room { splitter.lines + length splitter.pending.items + length piece.now < 2 ^ 64 }
    requires written { splitter.replies.items ≡ [] }
    ensures reaches { IfOk result (λ v. Answered plain.old (splitter.pending.items ++ piece.now) splitter.lines (W.written writer.old)
        plain.new v.pending.items v.lines (W.written writer.new)) }
    ensures begun { IfOk result (λ v. NoFeed v.pending.items) }
    ensures count { IfOk result (λ v. v.lines + length v.pending.items ≤ splitter.lines + length splitter.pending.items + length piece.now) }
    ensures written { IfOk result (λ v. v.replies.items ≡ []) }
    ensures fault { OnErr result (PutsPart (W.written writer.old)
        (answers plain.old (ended_lines (splitter.pending.items ++ piece.now))) (W.written writer.new)) }
    ensures writes { CountsWrites result (W.failures writer.old) (W.failures writer.new) }
    ensures cause { IsWriteOrMemory result }
{
    let mut rest = piece;
    while !rest.is_empty() {
        let paused = answer_some(alloc, plain, writer, splitter, rest)?;
        splitter = paused.splitter;
        rest = paused.rest;
    }
    Ok(splitter)
}

/// Answers the last line, if its line feed has not come, and writes the reply. Returns how many lines there were.
fn answer_rest<W: Sink>(
    alloc: Global,
    plain: &mut Plain,
    writer: &mut W,
    splitter: Splitter,
) -> Result<u64, ServeFault>
    requires begun { NoFeed splitter.pending.items }
    requires room { splitter.lines + length splitter.pending.items < 2 ^ 64 }
    requires written { splitter.replies.items ≡ [] }
    ensures text { OnOk result (Puts (W.written writer.old) (answers plain.old (lines splitter.pending.items)) (W.written writer.new)) }
    ensures count { IfOk result (λ n. n ≡ splitter.lines + length (lines splitter.pending.items)) }
    ensures fault { OnErr result (PutsPart (W.written writer.old) (answers plain.old (lines splitter.pending.items)) (W.written writer.new)) }
    ensures writes { CountsWrites result (W.failures writer.old) (W.failures writer.new) }
    ensures cause { IsWriteOrMemory result }
{
    let splitter = answer_last(alloc, plain, splitter)?;
    write_all(writer, splitter.replies.as_slice()).ok_or(ServeFault::Write)?;
    Ok(splitter.lines)
}

/// Answers the lines of the reader's bytes from this store, with this room for one read.
fn serve_store<R: Source, W: Sink>(
    alloc: Global,
    plain: &mut Plain,
    reader: &mut R,
    writer: &mut W,
    room: &mut [u8],
) -> Result<u64, ServeFault>
    requires { 0 < length room.old }
    ensures count { IfOk result (λ n. IfSome (R.remaining reader.old) (λ input. n ≡ length (lines input))) }
    ensures left { OnOk result (IfSome (R.remaining reader.old) (λ _. R.remaining reader.new ≡ Some [])) }
    ensures text { OnOk result (IfSome (R.remaining reader.old) (λ input.
        Puts (W.written writer.old) (answers plain.old (lines input)) (W.written writer.new))) }
    ensures fault { OnErr result (ServesPart (λ input. answers plain.old (ended_lines input)) (λ input. answers plain.old (lines input))
        (R.remaining reader.old) (R.remaining reader.new) (W.written writer.old) (W.written writer.new)) }
    ensures unread { IsErrOf result ServeFault.Read → ServesEnded (λ input. answers plain.old (ended_lines input))
        (R.remaining reader.old) (R.remaining reader.new) (W.written writer.old) (W.written writer.new) }
    ensures reads { CountsReads result (R.failures reader.old) (R.failures reader.new) }
    ensures writes { CountsWrites result (W.failures writer.old) (W.failures writer.new) }
    ensures cause { IsInRange result }
{
    let mut splitter = Splitter {
        reader: Box::new(alloc, LineReader::new(alloc)).map_err(AllocError::from)?,
        pending: Vec::new(alloc),
        replies: Vec::new(alloc),
        lines: 0,
    };
    'reads: loop {
        let Some(count) = reader.read(room) else {
            drop(splitter);
            return Err(ServeFault::Read);
        };
        // 0 is the end of the input.
        if count == 0 {
            break;
        }
        splitter = answer_read(alloc, plain, writer, splitter, &room[..count])?;
    }
    answer_rest(alloc, plain, writer, splitter)
}

/// Answers each line of the reader's bytes with a line to the writer, as the plain store with room for `capacity`
/// revisions answers them, and returns how many lines there were. The bytes are cut at line feeds, and a last line may
/// lack its line feed. Replies are written once they have 65,536 bytes, and else before the next read. At any time it
/// holds one piece of a read (64 KiB at most), at most 1,048,577 bytes of a line that the piece's end cuts, a copy of
/// one line, the reply to one line, and less than 65,536 bytes of other replies.
///
/// # Errors
///
/// If the capacity is out of range, nothing was read or written. If the reader failed, the lines that had ended by then
/// are answered, and a line that was cut off is not. If the writer failed or memory ran out, what was written is a
/// prefix of these replies, or of those to all lines once the input has ended.
pub fn serve<R: Source, W: Sink>(
    alloc: Global,
    reader: &mut R,
    writer: &mut W,
    capacity: u64,
) -> Result<u64, ServeFault>
    ensures count { IfOk result (λ n. IfSome (R.remaining reader.old) (λ input. n ≡ length (lines input))) }
    ensures left { OnOk result (IfSome (R.remaining reader.old) (λ _. R.remaining reader.new ≡ Some [])) }
    ensures text { OnOk result (IfSome (R.remaining reader.old) (λ input.
        Puts (W.written writer.old) (served capacity input) (W.written writer.new))) }
    ensures fault { OnErr result (ServesPart (served_so_far capacity) (served capacity)
        (R.remaining reader.old) (R.remaining reader.new) (W.written writer.old) (W.written writer.new)) }
    ensures unread { IsErrOf result ServeFault.Read → ServesEnded (served_so_far capacity)
        (R.remaining reader.old) (R.remaining reader.new) (W.written writer.old) (W.written writer.new) }
    ensures reads { CountsReads result (R.failures reader.old) (R.failures reader.new) }
    ensures writes { CountsWrites result (W.failures writer.old) (W.failures writer.new) }
    ensures capacity { IsErrOf result ServeFault.BadCapacity ↔ (1 ≤ capacity → most_revisions < capacity) }
    ensures untouched { IsErrOf result ServeFault.BadCapacity → (reader.new ≡ reader.old) × (writer.new ≡ writer.old) }
{
    let mut plain = Plain::new(alloc, capacity)?;
    let Ok(mut room) = vec![in alloc; 0u8; READ_ROOM] else {
        drop(plain);
        return Err(ServeFault::Memory);
    };
    serve_store(alloc, &mut plain, reader, writer, room.as_mut_slice())
}
