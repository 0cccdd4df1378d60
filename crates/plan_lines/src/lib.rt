//! Lines of `stsctl plan`: the objects in an input, and the actions of a plan as text. What the lines of other commands
//! need too is public: the first line that cannot be read, and why lines were not all written.
#![tactic(auto)]

mod action_line;
mod brief;
mod closing;
mod line_test;
mod listed;
mod output;
mod refusal;
mod wrong_line;

pub use closing::closing_lines;
pub use line_test::{LineTest, first_refused};
pub use listed::{Listed, named_set, read_objects};
pub use output::{Format, OutputFault, write_actions};
pub use refusal::plan_error_name;
pub use wrong_line::refused_object_line;
