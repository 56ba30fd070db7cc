//! What may be asked of stored records, and what the answer is. How an answer is found, and what is kept of it, is the book's.
#![tactic(auto)]

mod question;

pub use question::{Answer, ConnectRow, Question};
