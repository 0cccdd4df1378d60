use crate::phase::Writing;
use requests::Reply;

/// What the check of a write decides.
#[derive(Drop)]
pub(crate) enum Decision {
    /// The write changes nothing, and its reply waits for the number that it saw.
    Wait { saw: u64, place: u64, reply: Reply },
    /// The write holds its shard.
    Hold { shard: usize, writing: Writing },
}
