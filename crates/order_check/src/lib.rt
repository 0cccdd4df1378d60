//! Whether an order explains what callers saw: each reply is that of one plain store that handles whole requests in
//! that order, and a request comes before each one called after its reply (Herlihy and Wing 1990).
#![tactic(auto)]

mod check;
mod pairs;
mod recorded;
mod same;
mod walk;

pub use check::check_order;
