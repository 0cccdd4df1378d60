//! JSON with no space in it, as most programs write it: the members of its maps are put into byte order in place, so
//! that a line becomes the text that is printed of its value, and the positions of the members of three of its maps are
//! noted.
#![tactic(auto)]

mod controls;
mod place;
mod scalars;
mod scanner;
mod table;
mod texts;

pub use place::compare_keys;
pub use scanner::{Scanner, Tables};
pub use table::{Entry, Field, Fields, Table};
pub use texts::plain_end;
