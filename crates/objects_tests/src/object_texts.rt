//! What only a call of `objects` and `trees` shows: objects that no line brings in, allocation failures, and what is
//! too long or too deep for a line. What lines show is in `examples/serve/`.

mod allocation_failures;
mod asserts;
mod keys;
mod limits;
mod rewrites;
mod texts;
