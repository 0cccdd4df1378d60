//! Numbers that shards draw and fill, and a frontier up to which all of them are filled, in words that threads share
//! with no lock.
#![tactic(auto)]

mod blank;
mod callers;
mod draws;
mod error;
mod line;
mod naming;
mod notes;
mod rule;
mod seat;
mod steps;
mod view;
mod visits;

pub use blank::{Blank, Blanks};
pub use error::LineError;
pub use line::{Closed, Ends, Line, MAX_NUMBERS, MAX_SHARDS};
pub use naming::Naming;
pub use notes::{Judging, Noting};
pub use seat::{CallerSeat, Drawn, ShardSeat};
pub use view::{NotedView, Observation, View};
