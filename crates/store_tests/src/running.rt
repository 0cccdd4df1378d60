//! What a store replies, by one caller and by threads.

mod allocation_failures;
mod asking;
mod callers;
mod crowds;
mod gates;
mod meeting;
mod rows;
mod scenes;
