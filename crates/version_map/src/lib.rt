//! An ordered map from keys to their versions: what each key was, at each number that may still be read.
#![tactic(auto)]

mod chain;
mod index;
mod key_slots;
mod laws;
mod map;
mod names;
mod short_name;

pub use laws::states_have_the_values;
pub use map::VersionMap;
