//! The logins in wtmpdb's database, `/var/lib/wtmpdb/wtmp.db`, as login records of utmp(5).
//!
//! `logins_in` reads a file: where it is a database, a `snapshot` of it and of the files beside it, of which `refusal` has why they may
//! give no login records. From there on all is bytes. `database` reads the table's rows from those of the database and of its log, by the
//! `catalog` of what it lists. `row` says what a row means, `moment` which moments the rows have and in which order they come, `lines`
//! which of them have a record and where a line has a mark, and `record` writes the records. `laws` has the laws of these, and `read`
//! does all of it.
#![tactic(auto)]

mod catalog;
mod database;
mod fault;
mod field;
mod file;
mod laws;
mod lines;
mod moment;
mod read;
mod record;
mod refusal;
mod row;
mod snapshot;

pub use database::{ReadError, rows};
pub use fault::{RowFault, WtmpdbFault};
pub use file::logins_in;
pub use laws::{
    lines_are_apart, records_read_back, seconds_are_near, sessions_are_near, sessions_are_of_rows,
    sessions_are_of_table, tables_have_ids,
};
pub use moment::{Moment, What};
pub use read::{logins_of_rows, read_logins};
pub use refusal::{DatabaseFault, made};
