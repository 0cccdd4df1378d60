//! JSON values whose numbers are whole, as trees: read from JSON, compared, changed member by member and written as
//! JSON. A copy of a tree shares its lists and maps.
#![tactic(auto)]

mod building;
mod fault;
mod found;
mod integer;
mod number;
mod parse;
mod positions;
mod reader;
mod same;
mod spares;
mod text;
mod tree;
mod write;

pub use fault::TreeError;
pub use integer::Integer;
pub use memory::Memory;
pub use positions::position_of;
pub use reader::{TreeReader, read_tree};
pub use same::{same_is_reflexive, same_values_are_equal};
pub use text::Text;
pub use tree::{Items, Members, Tree};
pub use write::{tree_text, write_entries, write_tree};
