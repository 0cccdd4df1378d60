use objects::Key;
use requests::{Change, Reply, Request};

/// A write that its check accepted: the place of its call, its key, and what it changes there.
#[derive(Drop)]
pub(crate) struct Writing {
    pub place: u64,
    pub key: Key,
    pub change: Change,
}

/// A write and the index that it allocated; its number is the index plus one.
#[derive(Drop)]
pub(crate) struct Draw {
    pub index: usize,
    pub writing: Writing,
}

/// The phase of a caller. What a read has found is not kept: it is read once all of its parts have been read, at the
/// number at which it began.
#[derive(Drop)]
pub(crate) enum Phase {
    Idle,
    Called {
        place: u64,
        request: Request,
    },
    Holding(Writing),
    Drawn(Draw),
    Waiting {
        saw: u64,
        place: u64,
        reply: Reply,
    },
    /// `left` is the number of shards that are still to be read.
    Reading {
        number: u64,
        place: u64,
        request: Request,
        left: usize,
    },
    /// A caller that has crashed, with no number left to be published.
    Gone,
    /// A caller that has crashed, and left a number to be published.
    Left(Draw),
    /// A caller that crashed while its reply waited. If its request is parked, it is left out of the order.
    Dropped,
}
