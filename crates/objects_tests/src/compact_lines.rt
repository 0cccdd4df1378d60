//! Which lines `compact` accepts, which objects `compact_objects` finds, and their texts, with lines that were worked
//! out by hand. What becomes of an accepted line is a clause; these show which lines are accepted.

mod drafts;
mod refused;
mod scanned;
mod taken;
mod texts;
