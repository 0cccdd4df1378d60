//! Laws of the plain store: each is a function whose contract is the law.

pub(crate) mod changes;
pub(crate) mod lifetimes;
pub(crate) mod lists;
pub(crate) mod past;
pub(crate) mod runs;
