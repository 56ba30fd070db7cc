//! Failed logins of btmp files: the latest of a host, and how many each user has from each remote host.
//!
//! An `attempt` is a plain value. `chosen` says which records are chosen, `latest` finds and lists those of a host, `sums` counts those of
//! all hosts: in a `table`, by `source`; `laws` states laws of these counts.
#![tactic(auto)]

mod attempt;
mod chosen;
mod latest;
mod laws;
mod source;
mod sums;
mod table;

pub use attempt::{Attempt, AttemptSum};
pub use latest::{first_time, latest_attempts, latest_before, put_latest_before};
pub use laws::{record_order_is_free, sums_add_up};
pub use sums::attempt_sums;
