//! What a check finds of a file, as lines for the eye and as a row of a table in CSV.
//!
//! `section` has the section of a file, of `lines` and of `doubts`, and `row` the row, of `cells` and other `fields`. `kinds` has what
//! kinds of files are called, `moments` and `numbers` how times and numbers are shown, and `paths` how paths are.
//! `origin` has where the records come from.
#![tactic(auto)]

mod cells;
mod doubts;
mod fields;
mod kinds;
mod lines;
mod local;
mod moments;
mod numbers;
mod origin;
mod paths;
mod print;
mod row;
mod section;

pub use origin::Origin;
pub use print::print_text;
pub use row::{push_header, push_row};
pub use section::push_section;
