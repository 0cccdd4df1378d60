// What may be sent from one thread to another.
use crate::caller::Caller;
use crate::naming::{Naming, Sharding};
use crate::store::Store;
use crate::ticket::Ticket;

/// Threads may share a store, and a caller and its tickets may be sent to another thread: `Store` is `Sync`, and they
/// are `Send`. This holds if the store's markers may be shared and sent.
pub fn threads_may_share<H: Sharding + Send, N: Naming + Send>(
    store: &Store<H, N>,
    caller: &Caller<H, N>,
    ticket: &Ticket<H, N>,
) {
    is_shared(store);
    is_sent(caller);
    is_sent(ticket);
}

fn is_shared<T: Sync>(_value: &T) {}

fn is_sent<T: Send>(_value: &T) {}
