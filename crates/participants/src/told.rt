use requests::Reply;

/// What a caller is told of one of its requests.
#[derive(Drop)]
pub enum Told {
    Heard(Reply),
    /// The request is left out: it waits for another reply than the last one, or there is no object to send.
    Unasked,
    /// The caller has crashed within the request, and hears no reply.
    Unheard,
}
