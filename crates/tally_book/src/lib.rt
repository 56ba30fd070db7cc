//! A book of stored records: sessions, summaries and the history of answered calls in one object. `counted` answers on connect
//! time from counts of records that are not stored.
#![tactic(auto)]

mod answering;
mod book;
mod boxed;
mod connect;
mod counted;
mod fault;
mod history;
mod laws;
mod logins;
mod room;
mod storing;

pub use book::{Book, CALL_LIMIT};
pub use boxed::Boxed;
pub use counted::connect_of_counts;
pub use fault::{AskFault, PostFault};
pub use history::{Call, Counts, Receipt, Served};
pub use laws::{entries_are_posts, host_order_is_enough};
pub use room::{MILLION, MOST_MILLIONS, Room};
pub use tally_answers::{Answer, ConnectRow, Question};
