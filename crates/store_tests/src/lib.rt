//! What the line of numbers, the running store and races over it return, by one caller and by threads.
#![tactic(auto)]

#[cfg(test)]
mod numbering;
#[cfg(test)]
mod races;
#[cfg(test)]
mod running;
