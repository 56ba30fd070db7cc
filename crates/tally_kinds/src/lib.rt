//! What a file looks like, from its first bytes and its size.
//!
//! `kinds` has what a file may look like, and in which order that is asked. `marks` are bytes that a
//! file of a kind begins with, `records` and `sums` are told by their layouts, and `texts` by their
//! bytes alone.
#![tactic(auto)]

mod kinds;
mod marks;
mod records;
mod sums;
mod texts;

pub use kinds::{FRONT_SIZE, Looks, looks_like};
