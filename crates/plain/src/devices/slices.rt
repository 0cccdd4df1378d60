ghost use Rattle.std.specs.Prelude.{◌≡◌, ◌<◌, ◌^◌, ◌-◌, length, min, Some};
ghost use Rattle.std.proofs.Common.{rules};

use crate::devices::stream::Source;

/// Reads from a slice. It never fails.
#[derive(Drop)]
pub struct SliceSource<'a> {
    left: &'a [u8],
}

impl<'a> SliceSource<'a> {
    pub fn new(bytes: &'a [u8]) -> SliceSource<'a>
        ensures left { ⟦<SliceSource<'a> as Source>⟧.remaining result ≡ Some bytes.now }
    {
        SliceSource { left: bytes }
    }
}

impl Source for SliceSource<'_> {
    ghost remaining = { λ s. Some s.left.now };

    ghost failures = { λ _. 0 };

    ghost most = { λ s. min (length s.left.now) (2 ^ 64 - 1) };

    fn read(&mut self, room: &mut [u8]) -> Option<usize> {
        let count = room.len().min(self.left.len());
        let (taken, left) = self.left.split_at(count);
        room[..count].copy_from_slice(taken);
        self.left = left;
        Some(count)
    }

    ghost finite = { λ s. Prim.search rules };
}
