//! The clock of a place: how far it is ahead of UTC at each second, and the days that this makes.
#![tactic(auto)]

mod clock;
mod days;
mod file;
mod row;
mod rule;
mod word;
mod zone;

pub use clock::{Clock, ROW_LIMIT};
pub use days::{days_add_up, days_hold_their_times};
pub use file::{FILE_LIMIT, FileFault};
pub use row::Row;
pub use rule::RuleFault;
pub use word::{ZoneText, ZoneWord, zone_text, zone_word};
pub use zone::ClockFault;
