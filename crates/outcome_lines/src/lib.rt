//! The ends of a race for a program or for a person: as lines of JSON or in words, what callers are told, the store that is
//! left, or both.
#![tactic(auto)]

mod alike;
mod apart;
mod asked_words;
mod brief;
mod brief_end;
mod brief_words;
mod known;
mod laws;
mod leaves;
mod lined;
mod marks;
mod numbers;
mod object_texts;
mod printing;
mod store_objects;
mod stores;
mod told;

pub use brief::ends_brief_text;
pub use laws::ends_are_told_once;
pub use printing::ends_text;
