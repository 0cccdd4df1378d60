//! What stops controllers in their first rounds over a store: their set is not there, or it has no plan.
#![tactic(auto)]

mod begun;
mod listing;
mod notes;
mod obstacle;
mod planning;

pub use notes::{NotesError, Standing, notes_text};
pub use obstacle::{Obstacle, first_obstacle};
