//! What a line returns, by hand and by threads.

mod blank;
mod calls;
mod numbers;
mod threads;
