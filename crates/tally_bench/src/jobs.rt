//! The jobs of the workloads.
ghost use Rattle.tally_line.specs.Jobs.{IsRunnable};

use tally_cli::{Form, Job, Report};
use tally_records::LoginChoice;
use tally_usage::Order;

/// A job of one thread.
pub(crate) fn connect_time(by_day: bool, by_user: bool, form: Form) -> Job
    ensures { IsRunnable result }
{
    Job {
        report: Report::Connect {
            by_day,
            by_user,
            choice: LoginChoice::every(),
        },
        form,
        millions: 1,
        feeders: 1,
        askers: 0,
        offset: 0,
        until: None,
    }
}

pub(crate) fn sessions(limit: Option<u32>, form: Form) -> Job
    ensures { IsRunnable result }
{
    Job {
        report: Report::Last {
            limit,
            choice: LoginChoice::every(),
            within: false,
        },
        form,
        millions: 1,
        feeders: 1,
        askers: 0,
        offset: 0,
        until: None,
    }
}

pub(crate) fn commands(order: Order, all: bool, form: Form) -> Job
    ensures { IsRunnable result }
{
    Job {
        report: Report::Commands {
            order,
            reverse: all,
            all,
        },
        form,
        millions: 1,
        feeders: 1,
        askers: 0,
        offset: 0,
        until: None,
    }
}

pub(crate) fn users(order: Order) -> Job
    ensures { IsRunnable result }
{
    Job {
        report: Report::Users {
            order,
            reverse: false,
        },
        form: Form::Text,
        millions: 1,
        feeders: 1,
        askers: 0,
        offset: 0,
        until: None,
    }
}

/// All reports, by four threads.
pub(crate) fn all_reports() -> Job
    ensures { IsRunnable result }
{
    Job {
        report: Report::All,
        form: Form::Text,
        millions: 1,
        feeders: 4,
        askers: 0,
        offset: 0,
        until: None,
    }
}
