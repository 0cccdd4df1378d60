//! Printed objects kept short: each as the difference of its text from a base, which is the text of an object much like it.
//! A difference says what is copied from the base and what is added (RFC 3284 has the idea, and another format).
#![tactic(auto)]

mod delta;
mod difference;
mod meeting;
mod packed;
mod packer;
mod piece;

pub use difference::{write_delta, write_expanded};
pub use packed::Packed;
pub use packer::Packer;
