//! Sessions of login records: what ends each, how long it was, and what clock changes move.
//!
//! `entries` keeps the records: `list` stores them in batches, `batches` finds the batch of a place, `stored` is one
//! record where it is kept, `reads` reads it, `iter` goes over all, `hosts` finds those of one host. `track` goes forward over
//! the records of one host:
//! `rules` says what a record means, `ending` ends stays, `kept_ending` is an end if there is one, `ended` sums those that
//! have ended, `name_table` finds lines and users, `questions` answers, `parts` has the sessions of a choice, `shown` the stays
//! that it shows. `connect` has the rows of connect time: `chosen_sums` sums the sessions of a choice, a `source` gives sessions one after the other, `walk` those of a choice, `cut` cuts one
//! where the offset of a clock changes, `span` counts the days of a part, `user_sums` sums by user, `day_sums` by day,
//! `day_user_rows` by both, in maps by `keys`, or `day_table`, where it is small enough (`day_table_size`), filled by
//! `day_table_sums` and read by `day_table_rows`; `sums` is what rows and tracks add up. `connect_sums` counts the records of a host and
//! keeps none: `running` goes forward over them, `lines` ends and begins the sessions on lines, a `slot` is the latest of one line, `ended` is what is kept of those that have ended, `kept_sessions` and `kept_walk` go over
//! them, `hosts` sums the counts of several hosts, `day_users` by user on each day. `sessions` holds the
//! tracks of all hosts, which `of_entries` makes of a list, each thread those of some hosts; an `entry`
//! and a stay are plain values, `times` are rows, `days` and `laws` state laws.
#![tactic(auto)]

mod chosen;
mod connect;
mod connect_sums;
mod days;
mod entries;
mod entry;
mod laws;
mod sessions;
mod sums;
mod times;
mod track;

pub use crate::connect_sums::ConnectSums;
pub use crate::connect_sums::day_users::connect_by_day_user_of_counts;
pub use crate::connect_sums::hosts::{
    connect_by_day_of_counts, connect_by_user_of_counts, total_of_counts,
};
pub use crate::days::days_add_up;
pub use crate::entries::Entries;
pub use crate::entries::iter::EntryIter;
pub use crate::entries::list::EntryList;
pub use crate::entry::{End, Entry, Stay};
pub use crate::laws::{
    every_session_is_chosen, hosts_are_alike, periods_add_up, times_have_rows, user_rows_add_up,
    users_add_up,
};
pub use crate::sessions::{ENTRY_LIMIT, HOST_LIMIT, Sessions};
pub use crate::times::{DayTime, DayUserTime, UserTime};
