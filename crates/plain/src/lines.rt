//! Lines: how input is cut into them, the request that one is, and the reply to it.

mod answer;
mod compact_line;
pub(crate) mod line_reader;
pub(crate) mod members;
mod reply_line;
pub(crate) mod reply_value;
pub(crate) mod request_error;
pub(crate) mod request_line;
pub(crate) mod split;
pub(crate) mod splitter;
mod verb;
