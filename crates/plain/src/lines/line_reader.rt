// What reads lines, one after another, in memory that it keeps from line to line.
ghost use Rattle.std.specs.Prelude.{◌≡◌, ◌≤◌, IsTrue, length, true, IfOk, ◌-◌, cond, nat_eq};
ghost use Rattle.std.specs.Str.{is_utf8};
ghost use Rattle.compact.specs.Reads.{IsSorted};
ghost use Rattle.objects.specs.Reading.{most_bytes};

use compact::Scanner;
use objects::{Printer, TreeReader};
use simdutf8::basic::from_utf8;
use std::alloc::{AllocError, Global};

/// The most tries that are left out in a row.
const MOST: u32 = 63;

/// How many tries are left out: after each that fails, one more than twice as many as after the one before. A client
/// that writes lines with spaces writes more of them, so that trying each would cost time and gain none.
#[derive(Drop)]
pub(crate) struct Backoff {
    left: u32,
    next: u32,
}

impl Backoff {
    /// The first is tried.
    pub(crate) fn new() -> Backoff
        ensures { result ≡ record { left = 0; next = 0 } }
    {
        Backoff { left: 0, next: 0 }
    }

    /// Whether to try now.
    pub(crate) fn is_due(&mut self) -> bool
        ensures due { result ≡ nat_eq self.old.left 0 }
        ensures left { self.new.left ≡ self.old.left - 1 }
        ensures next { self.new.next ≡ self.old.next }
    {
        if self.left == 0 {
            return true;
        }
        self.left -= 1;
        false
    }

    /// Notes how a try ended.
    pub(crate) fn note(&mut self, has_passed: bool)
        ensures left { self.new.left ≡ cond has_passed self.old.left self.old.next }
        ensures passed { has_passed ≡ true → self.new.next ≡ 0 }
    {
        if has_passed {
            self.next = 0;
        } else {
            self.left = self.next;
            self.next = MOST.min(self.next.saturating_mul(2).saturating_add(1));
        }
    }
}

/// The most bytes that a line may have; a longer one is TooLong.
const MAX_BYTES: usize = 1_048_576;

/// Reads lines, and prints the objects of those that are read with no tree.
#[derive(Drop)]
pub(crate) struct LineReader {
    /// Reads a line as a tree.
    pub(crate) tree: TreeReader,
    /// Puts a line into byte order.
    pub(crate) scanner: Scanner,
    /// The last line that was put into byte order.
    pub(crate) text: Vec<u8>,
    pub(crate) printer: Printer,
    backoff: Backoff,
}

impl LineReader {
    /// A reader that has read nothing.
    pub(crate) fn new(alloc: Global) -> LineReader {
        LineReader {
            tree: TreeReader::new(alloc),
            scanner: Scanner::new(alloc),
            text: Vec::new(alloc),
            printer: Printer::new(alloc),
            backoff: Backoff::new(),
        }
    }

    /// Puts a copy of the line into byte order, if that can be done with no tree of it and it is the line's turn to be
    /// tried. If not, nothing is said of the line.
    pub(crate) fn put_in_order(&mut self, line: &[u8]) -> Result<bool, AllocError>
        ensures taken { IfOk result (λ is_taken. IsTrue is_taken → IsSorted line.now self.new.text.items self.new.scanner.tables) }
        ensures short { IfOk result (λ is_taken. IsTrue is_taken → length line.now ≤ most_bytes) }
        ensures utf8 { IfOk result (λ is_taken. IsTrue is_taken → is_utf8 line.now ≡ true) }
    {
        if line.len() > MAX_BYTES || !self.backoff.is_due() {
            return Ok(false);
        }
        self.text.clear();
        self.text.extend_from_slice(line)?;
        let is_taken = self.scanner.scan(self.text.as_mut_slice());
        self.backoff.note(is_taken);
        Ok(is_taken && is_text(line))
    }
}

fn is_text(bytes: &[u8]) -> bool
    ensures { IsTrue result → is_utf8 bytes.now ≡ true }
{
    from_utf8(bytes).is_ok()
}
