//! Objects straight from a line that `compact` has accepted, with no tree: the parts of the draft are slices of the
//! line, the text of the object that a write leaves is put together from the line's own bytes, and what the write does
//! is judged over both. Of anything that needs a tree nothing is said.
#![tactic(auto)]

mod creation;
mod draft;
mod held;
mod laws;
mod map;
mod merge;
mod meta;
mod plain_text;
mod print;
mod replacement;
mod seams;
mod status;
mod text;

pub use creation::judge_create;
pub use draft::{CompactDraft, kind_named};
pub use laws::what_is_read_is_canonical;
pub use map::Map;
pub use print::{draft_of_line, indexed};
pub use replacement::judge_update;
pub use status::judge_status;
pub use text::{as_text, text_of};
