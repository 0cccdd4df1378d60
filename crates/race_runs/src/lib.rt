//! Laws of races: whoever races over the interleaved store ends as in an order of whole requests, and each such order
//! happens.
#![tactic(auto)]

mod laws;

pub use laws::{controllers_ask_as_participants, races_end_as_whole_orders, whole_orders_happen};
