use requests::{Reply, Request};

/// What happens next when controllers share a store.
#[derive(Drop)]
pub enum WholeEvent {
    /// The controller of this number sends its next request, and handles the reply.
    Ask(usize),
    /// The controller of this number forgets its round.
    Crash(usize),
    /// Any other client sends a request.
    Outside(Request),
}

/// The sender (the number of a controller, or none for another client), the request, and the reply.
pub type Taken = (Option<usize>, Request, Reply);
