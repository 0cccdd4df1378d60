//! What crate `packed` keeps of texts, with deltas and texts that were worked out by hand: how short a delta is, and
//! which base an object is packed with. That texts come back as they were has clauses, and each line of
//! `examples/serve` shows it.

mod asserts;
mod differences;
mod packing;
mod sharing;
