//! Runs of the interleaved store for a person: as pictures, the Mermaid `sequenceDiagram` of the events, and as stories, a
//! line for each write. Both have names of objects and of sets, whose bytes are lower-case letters, digits, `-` and `.`,
//! numbers, and this program's own words: no text from outside can leave its line.
#![tactic(auto)]

mod drawing;
mod heading;
mod labels;
mod lines;
mod names;
mod roles;
mod shown;
mod snapshot;
mod telling;

pub use drawing::picture;
pub use labels::{put_reply, put_request};
pub use names::note_caller;
pub use roles::{NoRoles, Roles};
pub use shown::Shown;
pub use telling::story;
