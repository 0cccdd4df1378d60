//! What crate `plain` returns, call by call, if no line shows it: a store known only as an `Api`, streams that fail,
//! and refused allocations. What a line shows is a transcript in `examples/serve`, a long run is a row of
//! `checks/limits`, and `checks/model` compares with a slow store.

mod allocation_failures;
mod calls;
mod story;
mod streams;
