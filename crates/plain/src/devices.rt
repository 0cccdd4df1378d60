//! Where bytes come from and where they go.

pub(crate) mod buffers;
mod failures;
pub(crate) mod input;
pub(crate) mod slices;
pub(crate) mod stream;
pub(crate) mod wrappers;
