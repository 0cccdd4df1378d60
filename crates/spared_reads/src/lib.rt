//! Reads whose replies lead nowhere else may be left out of a race: it ends in the same ways.
#![tactic(auto)]

mod laws;

pub use laws::spared_reads_lead_nowhere_else;
