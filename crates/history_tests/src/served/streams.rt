//! Serving from a reader that fails in the middle, and to a writer that accepts little at a time, and then nothing.
use plain::{BufferSink, InputFault, ReadSource, ServeFault, Sink, SliceSource, read_all, serve};
use std::alloc::{AllocError, Global};
use std::io::{self, Read};
use std::test::Fail;

const NO_VERB: &[u8] = b"{\"code\":400,\"reason\":\"NoVerb\"}\n";

/// A reader of std that fails after its bytes.
#[derive(Drop)]
struct Torn<'a> {
    left: &'a [u8],
}

impl Read for Torn<'_> {
    fn read(&mut self, room: &mut [u8]) -> io::Result<usize> {
        if self.left.is_empty() {
            return Err(io::Error::from(io::ErrorKind::BrokenPipe));
        }
        self.left.read(room)
    }
}

/// Accepts one byte at a time.
#[derive(Drop)]
struct Slow {
    inner: BufferSink,
}

impl Sink for Slow {
    ghost written = { λ s. ⟦<BufferSink as Sink>⟧.written s.inner };

    ghost failures = { λ s. ⟦<BufferSink as Sink>⟧.failures s.inner };

    fn write(&mut self, bytes: &[u8]) -> Option<usize> {
        self.inner.write(&bytes[..bytes.len().min(1)])
    }
}

/// Whether a serving ends with `Read` if the reader fails after this text, with these replies before.
fn is_torn(alloc: Global, text: &[u8], expected: &[u8]) -> Result<bool, AllocError> {
    let mut sink = BufferSink::with_room(alloc, 100)?;
    let mut source = ReadSource::new(Torn { left: text });
    let ends = serve(alloc, &mut source, &mut sink, 1);
    Ok(ends == Err(ServeFault::Read) && sink.bytes() == expected)
}

/// Whether a serving of that text ends so, and has written so much by then, if a writer has room for ten bytes.
fn is_cut(
    alloc: Global,
    text: &[u8],
    ends: Result<u64, ServeFault>,
    expected: &[u8],
) -> Result<bool, AllocError> {
    let mut sink = Slow {
        inner: BufferSink::with_room(alloc, 10)?,
    };
    let mut source = SliceSource::new(text);
    let ended = serve(alloc, &mut source, &mut sink, 1);
    Ok(ended == ends && sink.inner.bytes() == expected)
}

#[test]
fn lines_that_ended_before_a_failure_are_answered(rt: HostRuntime) -> Result<(), Fail> {
    assert!(rt; is_torn(rt.alloc(), b"{}\n", NO_VERB)?);
    // A line that is cut off gets no reply.
    assert!(rt; is_torn(rt.alloc(), b"{}\n{}", NO_VERB)?);
    assert!(rt; is_torn(rt.alloc(), b"{}", b"")?);
    assert!(rt; is_torn(rt.alloc(), b"", b"")?);
    let mut reader = ReadSource::new(Torn { left: b"{}\n" });
    let is_fault = matches!(read_all(rt.alloc(), &mut reader), Err(InputFault::Read));
    assert!(rt; is_fault);
    Ok(())
}

#[test]
fn a_full_writer_ends_the_serving(rt: HostRuntime) -> Result<(), Fail> {
    let ends = Err(ServeFault::Write);
    assert!(rt; is_cut(rt.alloc(), b"{}\n{}\n", ends, b"{\"code\":40")?);
    assert!(rt; is_cut(rt.alloc(), b"", Ok(0), b"")?);
    Ok(())
}
