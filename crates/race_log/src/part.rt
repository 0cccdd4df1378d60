// The requests and replies of one caller in a race.
use requests::{Reply, Request};

/// A request and its reply.
#[derive(Drop)]
pub struct TimedExchange {
    /// The place of the call, a number from one counter that all threads share.
    pub call: u64,
    pub request: Request,
    /// The place of the reply.
    pub place: u64,
    /// The number of an accepted write, or else the one up to which the answer looked.
    pub number: u64,
    pub reply: Reply,
}

/// The requests of one caller and their replies, in order.
#[derive(Drop)]
pub struct Part {
    pub caller: u64,
    pub exchanges: Vec<TimedExchange>,
}
