use crate::naming::Sharding;
use line::Judging;
use requests::{Change, Request};
use std::marker::PhantomData;

/// An accepted write, as the note of its number. It is used in contracts alone: no value of it is made.
pub struct Writing {
    /// The name of its caller.
    pub by: u64,
    /// How often that caller had held a shard's lock before. No two writes of one caller have the same.
    pub count: u64,
    /// The request, which is a create, an update, a status request or a delete.
    pub request: Request,
    /// What it changes.
    pub change: Change,
}

/// What a line knows of writes as notes: each belongs to its key's shard, and the verdict over the earlier ones of that
/// shard accepts it.
pub struct ByShards<H> {
    of: PhantomData<H>,
}

impl<H: Sharding> Judging<Writing> for ByShards<H> {
    ghost use Rattle.store.specs.History.{Accepts, by_of, home_of};

    ghost home = { home_of H.shards };

    ghost by = { by_of };

    ghost accepts = { Accepts };
}
