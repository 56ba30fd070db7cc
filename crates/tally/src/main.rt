//! `tally`: reports of login and process accounting files, as last(1), lastb(8), ac(1) and sa(8) give them.
#![tactic(auto)]

mod asked;
mod check;
mod checked;
mod checking;
mod defaults;
mod faults;
mod found;
mod hints;
mod limited;
mod looking;
mod now;
mod opened;
mod opening;
mod program;
mod reporting;
mod room;
mod running;
mod subject;
mod users;
mod words;

use std::io::IsTerminal;
use std::process::ExitCode;
use tally_terminal::ErrorsTo;

fn main(rt: HostRuntime) -> ExitCode {
    let to = if rt.stderr().is_terminal() {
        ErrorsTo::Terminal
    } else {
        ErrorsTo::Elsewhere
    };
    program::tally(&rt, to)
}
