//! The script of `stsctl replay` or `stsctl cluster` that shows an end of a race.
#![tactic(auto)]

mod callers;
mod calls;
mod cluster_script;
mod event_line;
mod fault;
mod gone;
mod last_told;
mod play;
mod race_script;
mod replay_script;
mod same;
mod same_sets;
mod script;
mod seats;
mod stage;
mod team;
mod turns;

pub use fault::ScriptingError;
pub use script::script_text;
