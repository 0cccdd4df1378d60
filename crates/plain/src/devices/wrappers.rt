ghost use Rattle.std.specs.Prelude.{◌≡◌, ◌-◌, ◌^◌, min};
ghost use Rattle.std.proofs.Common.{rules};

use crate::devices::failures::Failures;
use crate::devices::stream::{Sink, Source};
use std::io::{Read, Write};

/// Reads from one of std's readers: what it has left is what std's reader says, and nothing is said if that says
/// nothing, as of a file. An error of the reader is a failure, also an interruption, and so is a read past the first
/// 2^64 - 1 bytes, which reads none.
#[derive(Drop)]
pub struct ReadSource<R> {
    inner: R,
    left: u64,
    failures: Failures,
}

impl<R: Read> ReadSource<R> {
    pub fn new(inner: R) -> ReadSource<R>
        ensures left { ⟦<ReadSource<R> as Source>⟧.remaining result ≡ R.remaining inner }
        ensures fresh { ⟦<ReadSource<R> as Source>⟧.failures result ≡ 0 }
        ensures most { ⟦<ReadSource<R> as Source>⟧.most result ≡ 2 ^ 64 - 1 }
    {
        ReadSource {
            inner,
            left: u64::MAX,
            failures: Failures::none(),
        }
    }
}

impl<R: Read> Source for ReadSource<R> {
    ghost remaining = { λ s. R.remaining s.inner };

    ghost failures = { λ s. s.failures.count };

    ghost most = { λ s. min s.left (2 ^ 64 - 1) };

    fn read(&mut self, room: &mut [u8]) -> Option<usize> {
        let is_spent = self.left == 0 && !room.is_empty();
        let most = room.len().min(self.left as usize);
        match self.inner.read(&mut room[..most]) {
            Ok(count) if !is_spent => {
                self.left -= count as u64;
                Some(count)
            }
            _ => {
                self.failures = self.failures.one_more();
                None
            }
        }
    }

    ghost finite = { λ s. Prim.search rules };
}

/// Writes to one of std's writers: what it holds is what std's writer says, and nothing is said if that says nothing,
/// as of a file. An error of the writer is a failure, also an interruption, and so is a write that writes none of the
/// bytes.
#[derive(Drop)]
pub struct WriteSink<W> {
    inner: W,
    failures: Failures,
}

impl<W: Write> WriteSink<W> {
    pub fn new(inner: W) -> WriteSink<W>
        ensures written { ⟦<WriteSink<W> as Sink>⟧.written result ≡ W.contents inner }
        ensures fresh { ⟦<WriteSink<W> as Sink>⟧.failures result ≡ 0 }
    {
        let failures = Failures::none();
        WriteSink { inner, failures }
    }
}

impl<W: Write> Sink for WriteSink<W> {
    ghost written = { λ s. W.contents s.inner };

    ghost failures = { λ s. s.failures.count };

    fn write(&mut self, bytes: &[u8]) -> Option<usize> {
        match self.inner.write(bytes) {
            Ok(count) if count > 0 || bytes.is_empty() => Some(count),
            _ => {
                self.failures = self.failures.one_more();
                None
            }
        }
    }
}
