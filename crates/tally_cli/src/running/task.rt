//! One caller's work.
ghost use Rattle.std.specs.Prelude.{◌≡◌, IfErr, IfOk, MatchBool, OnOk};
ghost use Rattle.tally_desk.specs.Passes.{Keeps};
ghost use Rattle.tally_desk.specs.Rounds.{AskStops, Asks};
ghost use Rattle.tally_cli.specs.Reading.{asked_once, choice_of};
ghost use Rattle.tally_cli.specs.Runs.{IsReadable};
ghost use Rattle.tally_cli.specs.inside.Tasks.{asker_questions, HasFailed, IsDone, IsUntried, Works};

use crate::running::source::Source;
use std::alloc::Global;
use std::sync::Wait;
use tally_book::{AskFault, Question};
use tally_desk::{Desk, Fed, FeedFault, Gate, Input, Pass, ask_rounds, feed};
use tally_line::{Job, Report};
use tally_records::LoginChoice;
use tally_usage::Order;

/// What an asker asks: reports over the chosen sessions, up to a moment if one is given.
#[derive(Clone, Copy)]
pub(crate) struct Asking {
    pub(crate) choice: LoginChoice,
    pub(crate) until: Option<i32>,
}

/// The sessions that a report is over, or all of them where it has none.
fn choice_of(report: &Report) -> LoginChoice
    ensures { result ≡ choice_of report.now }
{
    match report {
        Report::Last { choice, .. } | Report::Connect { choice, .. } => *choice,
        Report::Attempts { .. }
        | Report::AttemptSums { .. }
        | Report::Commands { .. }
        | Report::Users { .. }
        | Report::All => LoginChoice::every(),
    }
}

impl Asking {
    /// What is asked beside a job.
    pub(crate) fn beside(job: &Job) -> Asking
        ensures { result ≡ record { choice = choice_of job.now.report; until = job.now.until } }
    {
        Asking {
            choice: choice_of(&job.report),
            until: job.until,
        }
    }
}

/// What a caller is to do: feed its source, or ask reports.
#[derive(Drop)]
pub(crate) enum Work<I> {
    Feed(Source<I>),
    Ask(Asking),
}

/// What came of it.
#[derive(Drop)]
pub(crate) enum Outcome {
    Untried,
    Fed(Fed),
    FeedFailed(FeedFault),
    Asked(u64),
    AskFailed(AskFault),
}

/// A caller's pass, with its work.
#[derive(Drop)]
pub(crate) struct Task<I> {
    pub(crate) pass: Pass,
    pub(crate) work: Work<I>,
    pub(crate) outcome: Outcome,
}

/// How often an asker asks its questions.
const ROUNDS: u32 = 4;

/// The questions of a round.
fn questions(asking: Asking) -> [Question; 4]
    ensures { result ≡ asked_once asking.choice asking.until }
{
    let Asking { choice, until } = asking;
    [
        Question::Last {
            host: 0,
            limit: Some(10),
            choice,
            until,
        },
        Question::Connect {
            by_day: false,
            by_user: false,
            offset: 0,
            choice,
            until,
        },
        Question::Commands {
            order: Order::Cpu,
            reverse: false,
            all: false,
        },
        Question::Users {
            order: Order::Cpu,
            reverse: false,
        },
    ]
}

/// Asks as an asker does, and answers how many reports were given.
fn ask<R: Wait, G: Gate>(
    rt: &R,
    alloc: Global,
    desk: &Desk,
    pass: &mut Pass,
    asking: Asking,
    gate: &G,
) -> Result<u64, AskFault>
    requires { pass.old.desk ≡ desk.now.id }
    ensures keeps { Keeps pass.old pass.new }
    ensures count { IfOk result (λ count. count ≡ 16) }
    ensures asked { OnOk result (Asks pass.old pass.new (asker_questions asking)) }
    ensures stops { IfErr result (AskStops (asker_questions asking) pass.old pass.new) }
{
    let questions = questions(asking);
    ask_rounds(rt, alloc, desk, pass, &questions, ROUNDS, gate)
}

/// Does the work, and says whether it was done.
pub(crate) fn carry_out<R: Wait, I: Input, G: Gate>(
    rt: &R,
    alloc: Global,
    desk: &Desk,
    task: &mut Task<I>,
    gate: &G,
) -> bool
    requires desk { task.old.pass.desk ≡ desk.now.id }
    requires untried { IsUntried task.old.outcome }
    requires readable { (source : Source _) → task.old.work ≡ Work.Feed source → IsReadable I.failures source }
    ensures works { Works I.to_come I.can_fail task.old task.new }
    ensures done { MatchBool result (IsDone task.new.outcome) (HasFailed task.new.outcome) }
{
    match &mut task.work {
        Work::Feed(Source { kind, input }) => {
            match feed(rt, alloc, desk, &mut task.pass, *kind, input, gate) {
                Ok(fed) => {
                    task.outcome = Outcome::Fed(fed);
                    true
                }
                Err(fault) => {
                    task.outcome = Outcome::FeedFailed(fault);
                    false
                }
            }
        }
        Work::Ask(asking) => match ask(rt, alloc, desk, &mut task.pass, *asking, gate) {
            Ok(count) => {
                task.outcome = Outcome::Asked(count);
                true
            }
            Err(fault) => {
                task.outcome = Outcome::AskFailed(fault);
                false
            }
        },
    }
}
