ghost use Rattle.std.specs.Prelude.{◌≡◌, ◌≤◌, ◌<◌, ◌+◌, ◌^◌, ℕ, List, [], length, take, Option, None, IfSome, IfNone, OnSome};
ghost use Rattle.plain.specs.Streams.{Takes, Puts, PutsPart, UsesRoom, LacksRoom, IsFull};

/// Where bytes come from. It gives at most the room of a read, and fewer than 2^64 bytes in all. Each failure is
/// counted, and nothing else; at a failure no byte was read.
pub trait Source {
    /// The bytes that are left, if the device says.
    ghost remaining: { Self → Option (List ℕ) };

    /// How often it has failed.
    ghost failures: { Self → ℕ };

    /// How many bytes it still gives, at most.
    ghost most: { Self → ℕ };

    /// Reads some bytes to the front of the room, and returns how many; 0 with room is the end of the input. `None` is
    /// a failure.
    fn read(&mut self, room: &mut [u8]) -> Option<usize>
        ensures fits { IfSome result (λ n. n ≤ length room.old) }
        ensures taken { IfSome result (λ n. Takes (remaining self.old) (take n room.new) (remaining self.new)) }
        ensures ended { IfSome result (λ n. n ≡ 0 → 0 < length room.old → IfSome (remaining self.old) (λ left. left ≡ [])) }
        ensures bounded { IfSome result (λ n. n + most self.new ≤ most self.old) }
        ensures well { OnSome result (failures self.new ≡ failures self.old) }
        ensures failed { IfNone result (failures self.old < failures self.new) }
        ensures kept { IfNone result (Takes (remaining self.old) [] (remaining self.new)) }
        ensures worn { IfNone result (most self.new ≤ most self.old) };

    ghost finite: { (s : Self) → most s < 2 ^ 64 };
}

/// Where bytes go. It accepts at least one byte of some. Each failure is counted, and nothing else; at a failure no
/// byte was written. A device that says how much room it has fails only if there is too little.
pub trait Sink {
    /// The bytes that it was given, if the device says.
    ghost written: { Self → Option (List ℕ) };

    /// How often it has failed.
    ghost failures: { Self → ℕ };

    /// How many bytes it still accepts before it may fail, if the device says.
    ghost room: { Self → Option ℕ } = { λ _. None };

    /// Writes some of the bytes from the front, at least one if there is one, and returns how many. `None` is a
    /// failure.
    fn write(&mut self, bytes: &[u8]) -> Option<usize>
        ensures fits { IfSome result (λ n. n ≤ length bytes.now) }
        ensures some { IfSome result (λ n. 0 < length bytes.now → 0 < n) }
        ensures put { IfSome result (λ n. Puts (written self.old) (take n bytes.now) (written self.new)) }
        ensures well { OnSome result (failures self.new ≡ failures self.old) }
        ensures failed { IfNone result (failures self.old < failures self.new) }
        ensures kept { IfNone result (Puts (written self.old) [] (written self.new)) }
        ensures full { IfNone result (IsFull (room self.old) bytes.now) }
        ensures used { IfSome result (λ n. UsesRoom (room self.old) n (room self.new)) };
}

/// Writes all of the bytes, in as many writes as are needed. After a failure some of them may be written.
pub fn write_all<W: Sink>(writer: &mut W, bytes: &[u8]) -> Option<()>
    ensures put { OnSome result (Puts (W.written writer.old) bytes.now (W.written writer.new)) }
    ensures part { PutsPart (W.written writer.old) bytes.now (W.written writer.new) }
    ensures well { OnSome result (W.failures writer.new ≡ W.failures writer.old) }
    ensures failed { IfNone result (W.failures writer.old < W.failures writer.new) }
    ensures full { IfNone result (LacksRoom (W.room writer.old) bytes.now) }
{
    let mut rest = bytes;
    while !rest.is_empty() {
        let count = writer.write(rest)?;
        rest = &rest[count..];
    }
    Some(())
}
