//! What a shard of versions returns, call by call, if no line shows it: at which numbers its records are, and how many
//! it keeps. What lines show of lists at exact versions and of compactions is compared with a slow store, in
//! `checks/model` and `checks/races`.

mod readings;
mod rising;
mod story;
