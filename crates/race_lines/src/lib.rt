//! Who races for a store, in lines of text: callers with requests of their own, controllers and kubelets.
#![tactic(auto)]

mod asks;
mod begun;
mod line;
mod looks;
mod putting;
mod question;
mod race;
mod reading;
mod refused;

pub use begun::objects_begun;
pub use question::{AskedRace, Question, asked_race};
pub use race::{Sent, WrittenRace};
pub use reading::read_written_race;
pub use refused::refused_line;
