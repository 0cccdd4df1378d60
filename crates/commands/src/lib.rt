//! The commands of the command line, over any readers and writers: `serve`, `replay`, `cluster`, `plan`, `outcomes` and
//! `race`. The program passes it the standard streams.
#![tactic(auto)]

mod answering;
mod args;
mod cluster;
mod cluster_roles;
mod ending;
mod explain;
mod finding;
mod halt;
mod help;
mod notes;
mod options;
mod plan;
mod program;
mod race;
mod race_words;
mod replay;
mod running;
mod serve;
mod status;

pub use program::command;
pub use status::TrackedAlloc;
