//! What is to be known of a file of records before a report of it is believed.
//!
//! `findings` are made of what a reader gives. `reading` takes it by blocks, none of which is kept, to a `tally`, which counts records of the `kind` that
//! the file may have: `notes` are what is counted record by record. `seen` is what tells of one record at first, and `counts` counts
//! what is seen. `logins` are the login records that say something: `steps` are those that step back in time, and
//! `stays` are the sessions that weigh, once the records are `posted`.
#![tactic(auto)]

mod counts;
mod fault;
mod findings;
mod kind;
mod logins;
mod notes;
mod posted;
mod reading;
mod seen;
mod stays;
mod steps;
mod tally;

pub use counts::{Counts, Found, Span, Zeros};
pub use fault::CheckFault;
pub use findings::{Content, Findings, LoginFindings, ProcFindings, check};
pub use stays::{Sessions, Stayed};
pub use steps::Steps;
