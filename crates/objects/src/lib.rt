//! Kubernetes API objects as this project keeps them: what names an object, what the store knows of it, and its
//! body as a tree; read from JSON and printed as JSON. The names of a StatefulSet's pods and claims are here too.
#![tactic(auto)]

mod body;
mod draft;
mod fault;
mod header;
mod key;
mod kind;
mod meta;
mod metadata;
mod names;
mod object;
mod pod_names;
mod print;
mod printed;
mod read;
mod replace;
mod rewrite;
mod seams;
mod shape;
mod shard;
mod splice;
mod status;
mod uid;

pub use fault::ReadError;
pub use header::Header;
pub use key::Key;
pub use kind::Kind;
pub use meta::Meta;
pub use metadata::only_the_owners_change;
pub use names::{MAX_LABEL, is_dns_label};
pub use object::{Draft, Object};
pub use pod_names::{
    claim_name, claim_names_of_a_set_differ, pod_name, pod_names_differ, split_pod_name,
};
pub use print::{print_object, write_object};
pub use printed::{IndexedText, Printed, Printer};
pub use read::{read_collection, read_draft, read_key, read_object};
pub use replace::{generation_after, may_be_same, spec_bytes};
pub use rewrite::same_found;
pub use shape::are_texts;
pub use shard::shard_of;
pub use splice::{ends_so, spliced, status_end};
pub use status::only_the_set_member_changes;
pub use trees::{
    Integer, Items, Members, Memory, Text, Tree, TreeError, TreeReader, position_of, read_tree,
    same_is_reflexive, same_values_are_equal, tree_text, write_entries, write_tree,
};
pub use uid::{
    is_uid_text, is_version_text, uid_number, uid_text, uid_texts_read_back, version_number,
};
