//! Scripts of `stsctl replay` and `stsctl cluster`: what their lines say, and the lines of what a run of them shows; and
//! those of the history of a race.
#![tactic(auto)]

mod cluster_header;
mod cluster_printing;
mod cluster_script;
mod draft_value;
mod event;
mod fault;
mod from_lines;
mod header;
mod laws;
mod line;
mod printing;
mod race_history;
mod race_item;
mod race_role;
mod refused;
mod request_line;
mod script;
mod set;
mod step;
mod turn;

pub use cluster_printing::cluster_text;
pub use cluster_script::{ClusterScript, read_cluster_script};
pub use event::request_in;
pub use fault::ScriptError;
pub use laws::requests_read_back;
pub use line::{count_in, read_members};
pub use printing::run_text;
pub use race_history::write_history;
pub use refused::{refused_cluster_line, refused_line};
pub use request_line::write_request;
pub use script::{Script, read_script};
pub use set::set_of;
