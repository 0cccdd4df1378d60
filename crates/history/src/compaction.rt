// Versions that nothing reads any more are dropped.
ghost use Rattle.std.specs.Prelude.{◌≡◌, length};
ghost use Rattle.history.specs.Replayed.{AreCompacted, Thins};

use crate::machine::Machine;
use versions::Shard;

impl Machine {
    /// Compacts all shards to the least of the floor and of the numbers of all open reads, if that has risen. It takes
    /// no memory.
    pub(crate) fn compact_shards(&mut self)
        ensures thins { Thins self.old self.new }
        ensures items { self.new.items.items ≡ self.old.items.items }
        ensures place { self.new.now_at ≡ self.old.now_at }
    {
        let least = self.callers.open_reads.least(self.floor);
        if least <= self.compacted {
            return;
        }
        compact_all(&mut self.shards, least);
        self.compacted = least;
    }
}

/// Compacts each shard to a number.
fn compact_all(shards: &mut Vec<Shard>, number: u64)
    ensures { AreCompacted number (length shards.old.items) shards.old.items shards.new.items }
{
    for index in 0..shards.len() {
        shards[index].compact(number);
    }
}
