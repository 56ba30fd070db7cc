//! Whole runs over files in memory.

mod attempts;
mod chosen;
mod counted;
mod ended;
mod expect;
mod runs;
mod together;
