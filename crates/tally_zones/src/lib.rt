//! The clock of a zone's word: by the machine's own zone, a path, a name among the system's zones, or a rule of POSIX.
#![tactic(auto)]

mod hint;
mod zone;

pub use hint::{Hint, hint_on};
pub use zone::{ZoneFault, clock_of};
