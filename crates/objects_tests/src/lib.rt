//! What only calls show of objects, their texts and compact lines.
#![tactic(auto)]

#[cfg(test)]
mod compact_lines;
#[cfg(test)]
mod object_texts;
#[cfg(test)]
mod packed_texts;
