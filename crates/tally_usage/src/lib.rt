//! What processes used: the sums of each command and of each user, and the names of users.
#![tactic(auto)]

mod choice;
mod command;
mod entry;
mod entry_iter;
mod fault;
mod group;
mod kept_list;
mod laws;
mod names;
mod order;
mod passwd;
mod summary;
mod sums;
mod table;
mod usage;
mod user;

pub use choice::{ProcChoice, Uids};
pub use command::CommandRow;
pub use entry::{ENTRY_LIMIT, ProcEntries, ProcEntry, ProcList};
pub use entry_iter::ProcEntryIter;
pub use fault::SumsFault;
pub use laws::{record_order_is_free, records_have_rows, rows_ascend};
pub use names::UserNames;
pub use order::Order;
pub use summary::Summary;
pub use sums::Sums;
pub use usage::{SUMS_LIMIT, Usage};
pub use user::UidRow;
