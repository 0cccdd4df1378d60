// A shard that is given records one after another.
ghost use Rattle.std.specs.Prelude.{◌+◌};
ghost use Rattle.versions.specs.Records.{IsAbove};

use objects::{Key, Object};
use plain::Version;
use std::alloc::Global;
use std::process::Abort;
use std::test::Fail;
use versions::Shard;

/// A shard, and a number that none of its records is above.
#[derive(Drop)]
pub(crate) struct Rising {
    shard: Shard,
    last: u64,
    ghost above: { IsAbove shard.records (last + 1) },
}

impl Rising {
    pub(crate) fn new(alloc: Global) -> Rising {
        Rising {
            shard: Shard::new(alloc),
            last: 0,
        }
    }

    pub(crate) fn shard(&self) -> &Shard {
        &self.shard
    }

    /// Pushes what the key is from the number on, which has to be above those of all records.
    pub(crate) fn push(
        &mut self,
        rt: &impl Abort,
        number: u64,
        key: &Key,
        state: Option<Object>,
    ) -> Result<(), Fail> {
        if number <= self.last {
            panic!(rt; "{number} is not above all records");
        }
        let version = Version {
            key: key.clone()?,
            state,
        };
        self.shard.make_room(key)?;
        self.shard.push(number, version);
        self.last = number;
        Ok(())
    }

    pub(crate) fn compact(&mut self, number: u64) {
        self.shard.compact(number);
    }
}
