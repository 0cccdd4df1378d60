//! Controllers of one StatefulSet that race, without a leader, over one store that threads share, with a kubelet and,
//! if wanted, an operator. The threads only send requests and keep the replies; the store is any that implements a
//! small trait.
#![tactic(auto)]

mod asking;
mod controller_rounds;
mod course;
mod field;
mod jobs;
mod judging;
mod kubelet_turns;
mod operator_turns;
mod running;
mod shared;
mod threads;

pub use asking::answered;
pub use judging::race_over;
pub use running::{race, race_history};
pub use shared::SharedStore;
