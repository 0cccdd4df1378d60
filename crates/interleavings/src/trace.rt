use requests::{Reply, Request};

/// What a run shows to its callers: a call or a reply. Its place is the index of its event in the run, from 0.
#[derive(Drop)]
pub enum Item {
    Call {
        place: u64,
        caller: u64,
        request: Request,
    },
    Reply {
        place: u64,
        caller: u64,
        reply: Reply,
    },
}

/// The calls and replies of a run, in the order of their places, and the capacity of the store.
#[derive(Drop)]
pub struct Trace {
    pub capacity: u64,
    pub items: Vec<Item>,
}

/// A trace, and an order of its requests that explains it: the places of their calls.
#[derive(Drop)]
pub struct Run {
    pub trace: Trace,
    pub order: Vec<u64>,
}
