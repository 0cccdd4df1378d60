//! What only calls show of replays and of orders: orders that no replay makes, traces that are no history, and what is
//! left after a refused allocation. Runs over lines are in `examples/replay` and `checks/races`.

mod allocation_failures;
mod orders;
mod steps;
