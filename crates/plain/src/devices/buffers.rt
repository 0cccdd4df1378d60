ghost use Rattle.std.specs.Prelude.{◌≡◌, ◌≤◌, ◌-◌, [], Some, IfOk, IfSome, vec_capacity, vec_len};

use crate::devices::failures::Failures;
use crate::devices::stream::Sink;
use std::alloc::{AllocError, Global};

/// Writes into a buffer whose room was made beforehand. It fails exactly if it is full and there is a byte to write.
#[derive(Drop)]
pub struct BufferSink {
    bytes: Vec<u8>,
    failures: Failures,
}

impl BufferSink {
    /// An empty buffer with room for so many bytes.
    pub fn with_room(alloc: Global, room: usize) -> Result<BufferSink, AllocError>
        ensures empty { IfOk result (λ sink. ⟦<BufferSink as Sink>⟧.written sink ≡ Some []) }
        ensures room { IfOk result (λ sink. IfSome (⟦<BufferSink as Sink>⟧.room sink) (λ free. room ≤ free)) }
    {
        Ok(BufferSink {
            bytes: Vec::with_capacity(alloc, room)?,
            failures: Failures::none(),
        })
    }

    /// The bytes that were written so far.
    pub fn bytes(&self) -> &[u8]
        ensures written { ⟦<BufferSink as Sink>⟧.written self.now ≡ Some result.now }
    {
        self.bytes.as_slice()
    }
}

impl Sink for BufferSink {
    ghost written = { λ s. Some s.bytes.items };

    ghost failures = { λ s. s.failures.count };

    ghost room = { λ s. Some (vec_capacity s.bytes - vec_len s.bytes) };

    fn write(&mut self, bytes: &[u8]) -> Option<usize> {
        let free = self.bytes.capacity().saturating_sub(self.bytes.len());
        let count = bytes.len().min(free);
        let is_full = count == 0 && !bytes.is_empty();
        if is_full || self.bytes.extend_from_slice(&bytes[..count]).is_err() {
            self.failures = self.failures.one_more();
            return None;
        }
        Some(count)
    }
}
