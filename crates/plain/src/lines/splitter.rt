ghost use Rattle.std.specs.Prelude.{◌≡◌, ◌+◌, ◌<◌, ◌≤◌, ◌^◌, ◌++◌, ◌∷◌, [], length, IfOk};
ghost use Rattle.plain.specs.Lines.{lines};
ghost use Rattle.plain.specs.Served.{answer, answers};
ghost use Rattle.plain.specs.Splits.{NoFeed, with_pending, LeadsTo, FewBefore};

use crate::lines::answer::answer_line;
use crate::lines::line_reader::LineReader;
use memchr::memchr;
use objects::Memory;
use plain_store::Plain;
use std::alloc::Global;

/// The most bytes of a line that are held until it ends: one more than a line may have, which shows that it is too long.
const MAX_PENDING: usize = 1_048_577;

/// How many bytes of replies are enough to be written before another line is answered.
const ENOUGH: usize = 65_536;

/// How far the splitting of an input into lines has come.
#[derive(Drop)]
pub(crate) struct Splitter {
    /// Reads each line in the memory of the lines before it. It is boxed, since it is large and a splitter is moved
    /// often.
    pub(crate) reader: Box<LineReader>,
    /// The first bytes of the line whose end has not come yet.
    pub(crate) pending: Vec<u8>,
    /// The replies that are not written yet.
    pub(crate) replies: Vec<u8>,
    /// How many lines were answered.
    pub(crate) lines: u64,
}

/// Where the answering of a piece has stopped.
#[derive(Drop)]
pub(crate) struct Paused<'a> {
    pub(crate) splitter: Splitter,
    /// What is left of the piece to be answered: nothing, once what follows its last line feed is pending.
    pub(crate) rest: &'a [u8],
}

/// Appends bytes to the first ones of a line whose end has not come. Of a line that is too long, no more is held than
/// what shows that it is too long.
fn append_pending(mut pending: Vec<u8>, bytes: &[u8]) -> Result<Vec<u8>, Memory>
    ensures { IfOk result (λ v. v.items ≡ with_pending pending.items bytes.now) }
{
    let room = MAX_PENDING.saturating_sub(pending.len());
    let taken = bytes.len().min(room);
    pending.extend_from_slice(&bytes[..taken])?;
    Ok(pending)
}

/// Answers the line that ends with these bytes and began with the pending ones.
fn answer_end(
    alloc: Global,
    plain: &mut Plain,
    splitter: Splitter,
    end: &[u8],
) -> Result<Splitter, Memory>
    requires { splitter.lines + 1 < 2 ^ 64 }
    ensures text { IfOk result (λ v. v.replies.items ≡ splitter.replies.items ++ ((answer plain.old (splitter.pending.items ++ end.now)).1 ++ 10 ∷ [])) }
    ensures store { IfOk result (λ v. plain.new ≡ (answer plain.old (splitter.pending.items ++ end.now)).0) }
    ensures pending { IfOk result (λ v. v.pending.items ≡ []) }
    ensures count { IfOk result (λ v. v.lines ≡ splitter.lines + 1) }
{
    let Splitter {
        mut reader,
        pending,
        replies,
        lines,
    } = splitter;
    let lines = lines + 1;
    if pending.is_empty() {
        let replies = answer_line(alloc, plain, &mut reader, end, replies)?;
        return Ok(Splitter {
            reader,
            pending,
            replies,
            lines,
        });
    }
    let mut pending = append_pending(pending, end)?;
    let replies = answer_line(alloc, plain, &mut reader, pending.as_slice(), replies)?;
    pending.clear();
    Ok(Splitter {
        reader,
        pending,
        replies,
        lines,
    })
}

/// Answers the lines that end in the piece, up to the one at which the replies in hand are enough to be written. If no
/// line is left, it keeps what comes after them.
pub(crate) fn answer_piece<'a>(
    alloc: Global,
    plain: &mut Plain,
    mut splitter: Splitter,
    piece: &'a [u8],
) -> Result<Paused<'a>, Memory>
    requires begun { NoFeed splitter.pending.items }
    requires room { splitter.lines + length splitter.pending.items + length piece.now < 2 ^ 64 }
    requires few { length splitter.replies.items < 65536 }
    ensures reaches { IfOk result (λ v. LeadsTo
        (record { store = plain.old; waiting = splitter.pending.items ++ piece.now; text = splitter.replies.items; count = splitter.lines })
        (record { store = plain.new; waiting = v.splitter.pending.items ++ v.rest.now; text = v.splitter.replies.items; count = v.splitter.lines })) }
    ensures begun { IfOk result (λ v. NoFeed v.splitter.pending.items) }
    ensures count { IfOk result (λ v.
        v.splitter.lines + length v.splitter.pending.items + length v.rest.now ≤ splitter.lines + length splitter.pending.items + length piece.now) }
    ensures shorter { IfOk result (λ v. 0 < length piece.now → length v.rest.now < length piece.now) }
    ensures few { IfOk result (λ v. FewBefore 65536 v.splitter.replies.items) }
    ensures enough { IfOk result (λ v. 0 < length v.rest.now → 65536 ≤ length v.splitter.replies.items) }
{
    let mut rest = piece;
    while let Some(at) = memchr(b'\n', rest) {
        splitter = answer_end(alloc, plain, splitter, &rest[..at])?;
        rest = &rest[at + 1..];
        if splitter.replies.len() >= ENOUGH {
            return Ok(Paused { splitter, rest });
        }
    }
    let pending = append_pending(splitter.pending, rest)?;
    Ok(Paused {
        splitter: Splitter {
            reader: splitter.reader,
            pending,
            replies: splitter.replies,
            lines: splitter.lines,
        },
        rest: &[],
    })
}

/// Answers the last line, if its line feed has not come.
pub(crate) fn answer_last(
    alloc: Global,
    plain: &mut Plain,
    splitter: Splitter,
) -> Result<Splitter, Memory>
    requires begun { NoFeed splitter.pending.items }
    requires room { splitter.lines + length splitter.pending.items < 2 ^ 64 }
    ensures text { IfOk result (λ v. v.replies.items ≡ splitter.replies.items ++ answers plain.old (lines splitter.pending.items)) }
    ensures count { IfOk result (λ v. v.lines ≡ splitter.lines + length (lines splitter.pending.items)) }
{
    if splitter.pending.is_empty() {
        return Ok(splitter);
    }
    let splitter = answer_end(alloc, plain, splitter, &[])?;
    Ok(splitter)
}
