//! Races over the running store.

mod counted;
mod counting;
mod gates;
mod operated;
mod races;
