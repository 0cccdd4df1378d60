use objects::{Members, Text};
use requests::Request;

/// What is done with an object that a caller was told.
#[derive(Drop)]
pub enum Verb {
    Get,
    Update,
    UpdateStatus,
    /// A pod is marked with the time `at`, if there is one, as in a `Request::Delete`.
    Delete { at: Option<Text> },
}

/// What a caller sends.
#[derive(Drop)]
pub enum Asked {
    Request(Request),
    /// The object that the caller was last told, changed by a JSON merge patch (RFC 7396). Its UID and its version go
    /// with it, so that a write is refused if another one came before. If the caller has been told no object, or what
    /// the patch makes is none, the request is left out.
    Last { verb: Verb, patch: Members },
}

/// A client with requests of its own.
#[derive(Drop)]
pub struct Caller {
    /// Its requests, in their order.
    pub asks: Vec<Ask>,
}

/// A request of a caller.
#[derive(Drop)]
pub struct Ask {
    pub asked: Asked,
    /// It is sent only if this caller's last reply was that result or reason, such as `Found` or `Conflict`.
    pub only_if: Option<Text>,
    /// The caller crashes within it: it gets no reply, and the request is carried out or not. It is the caller's last.
    pub crashes: bool,
}
