//! Answers of stored login entries and a summary to questions.
ghost use Rattle.std.specs.Prelude.{◌≡◌, ◌≢◌, ◌<◌, ◌^◌, IfOk, IfErr, OnOk, false, true};
ghost use Rattle.tally_attempts.specs.Attempts.{latest_attempts};
ghost use Rattle.tally_attempts.specs.Sums.{attempt_sums};
ghost use Rattle.tally_answers.specs.Answers.{answer_of, connect_rows, HasDays, IsAskable, NamesHostBelow};
ghost use Rattle.tally_book.specs.inside.Ready.{IsReady};
ghost use Rattle.tally_book.specs.inside.Refusals.{IsNoSuchHost};
ghost use Rattle.tally_book.specs.inside.RowSums.{AddUpTo, seconds_of};
ghost use Rattle.tally_sessions.specs.Days.{IsOffset, local};
ghost use Rattle.tally_sessions.specs.Sums.{seconds_in, sessions_of};
ghost use Rattle.tally_sessions.specs.Totals.{first_time, latest_stays};
ghost use Rattle.tally_usage.specs.Command.{command_rows};
ghost use Rattle.tally_usage.specs.Totals.{records_of};
ghost use Rattle.tally_usage.specs.Usage.{usage_of};
ghost use Rattle.tally_usage.specs.User.{user_rows};

use crate::connect::connect_rows;
use crate::fault::AskFault;
use crate::logins::LoginStore;
use std::alloc::Global;
use tally_answers::{Answer, ConnectRow, Question};
use tally_attempts::{attempt_sums, first_time, latest_attempts};
use tally_clock::Clock;
use tally_records::{LoginChoice, Memory};
use tally_sessions::Sessions;
use tally_usage::{Order, Summary};

/// Sees that a question's host is one of so many.
pub(crate) fn check_host(hosts: u32, question: &Question) -> Result<(), AskFault>
    ensures host { OnOk result (NamesHostBelow hosts question.now) }
    ensures cause { IfErr result (IsNoSuchHost hosts question.now) }
{
    match *question {
        Question::Last { host, .. } | Question::Attempts { host, .. } if host >= hosts => {
            Err(AskFault::NoSuchHost(host))
        }
        _ => Ok(()),
    }
}

fn last_answer(
    alloc: Global,
    sessions: &Sessions,
    host: u32,
    limit: Option<u32>,
    choice: &LoginChoice,
    until: Option<i32>,
) -> Result<Answer, Memory>
    requires { host < sessions.now.hosts }
    ensures { IfOk result (λ a. a ≡ Answer.Last (latest_stays host limit choice.now sessions.now.entries until) (first_time host sessions.now.entries)) }
{
    let rows = sessions.stays(alloc, host, limit, choice, until)?;
    let first = sessions.first(host);
    Ok(Answer::Last { rows, first })
}

/// The seconds of rows.
fn seconds_of_rows(rows: &[ConnectRow]) -> u64
    requires fits { seconds_of rows.now < 2 ^ 64 }
    ensures value { result ≡ seconds_of rows.now }
{
    rows.iter().map(|row| row.seconds).sum()
}

/// The seconds of the chosen sessions. Rows by user alone add up to them, so those of a choice are not counted a second time.
fn total_of(
    rows: &[ConnectRow],
    sessions: &Sessions,
    by_day: bool,
    by_user: bool,
    choice: &LoginChoice,
    until: Option<i32>,
) -> u64
    requires users { by_day ≡ false → by_user ≡ true → AddUpTo (seconds_in (sessions_of choice.now sessions.now.entries until)) rows.now }
    ensures value { result ≡ seconds_in (sessions_of choice.now sessions.now.entries until) }
{
    if by_user && !by_day && !choice.is_every() {
        seconds_of_rows(rows)
    } else {
        sessions.total(choice, until)
    }
}

/// The rows of connect times and the total of sessions.
pub(crate) fn connect_answer(
    alloc: Global,
    clock: &Clock,
    sessions: &Sessions,
    by_day: bool,
    by_user: bool,
    offset: i32,
    choice: &LoginChoice,
    until: Option<i32>,
) -> Result<Answer, Memory>
    requires { IsOffset offset }
    ensures value { IfOk result (λ a. a ≡ Answer.Connect (connect_rows by_day by_user (local clock.now offset) choice.now sessions.now.entries until) (seconds_in (sessions_of choice.now sessions.now.entries until))) }
    ensures days { IfOk result HasDays }
{
    let rows = connect_rows(
        alloc, clock, sessions, by_day, by_user, offset, choice, until,
    )?;
    let total = total_of(rows.as_slice(), sessions, by_day, by_user, choice, until);
    Ok(Answer::Connect { rows, total })
}

fn commands_answer(
    alloc: Global,
    summary: &Summary,
    order: Order,
    reverse: bool,
    all: bool,
) -> Result<Answer, Memory>
    ensures { IfOk result (λ a. a ≡ Answer.Commands (command_rows order all reverse (records_of summary.now.entries)) (usage_of (records_of summary.now.entries))) }
{
    let rows = summary.by_command(alloc, order, all, reverse)?;
    let total = summary.total();
    Ok(Answer::Commands { rows, total })
}

fn users_answer(
    alloc: Global,
    summary: &Summary,
    order: Order,
    reverse: bool,
) -> Result<Answer, Memory>
    ensures { IfOk result (λ a. a ≡ Answer.Users (user_rows order reverse (records_of summary.now.entries)) (usage_of (records_of summary.now.entries))) }
{
    let rows = summary.by_user(alloc, order, reverse)?;
    let total = summary.total();
    Ok(Answer::Users { rows, total })
}

fn attempts_answer(
    alloc: Global,
    logins: &LoginStore,
    host: u32,
    limit: Option<u32>,
    choice: &LoginChoice,
) -> Result<Answer, Memory>
    ensures { IfOk result (λ a. a ≡ Answer.Attempts (latest_attempts host limit choice.now logins.now.entries) (first_time host logins.now.entries)) }
{
    let rows = latest_attempts(alloc, logins.entries(), host, limit, choice)?;
    let first = first_time(logins.entries(), host);
    Ok(Answer::Attempts { rows, first })
}

fn attempt_sums_answer(
    alloc: Global,
    logins: &LoginStore,
    limit: Option<u32>,
    choice: &LoginChoice,
) -> Result<Answer, Memory>
    ensures { IfOk result (λ a. a ≡ Answer.AttemptSums (attempt_sums limit choice.now logins.now.entries)) }
{
    let rows = attempt_sums(alloc, logins.keys(), logins.entries(), limit, choice)?;
    Ok(Answer::AttemptSums { rows })
}

/// The answer to a question, where there is memory for it.
#[tactic(auto, unfolding(tally_answers::specs::Answers::answer_of))]
fn answer_in(
    alloc: Global,
    clock: &Clock,
    logins: &LoginStore,
    hosts: u32,
    summary: &Summary,
    question: &Question,
) -> Result<Answer, Memory>
    requires hosts { hosts ≡ logins.now.hosts }
    requires ready { IsReady question.now logins.now.is_counted }
    requires host { NamesHostBelow hosts question.now }
    requires askable { IsAskable question.now }
    ensures value { IfOk result (λ a. a ≡ answer_of clock.now question.now logins.now.entries summary.now.entries) }
    ensures days { IfOk result HasDays }
{
    match question {
        Question::Last {
            host,
            limit,
            choice,
            until,
        } => last_answer(alloc, logins.counted(), *host, *limit, choice, *until),
        Question::Connect {
            by_day,
            by_user,
            offset,
            choice,
            until,
        } => connect_answer(
            alloc,
            clock,
            logins.counted(),
            *by_day,
            *by_user,
            *offset,
            choice,
            *until,
        ),
        Question::Commands {
            order,
            reverse,
            all,
        } => commands_answer(alloc, summary, *order, *reverse, *all),
        Question::Users { order, reverse } => users_answer(alloc, summary, *order, *reverse),
        Question::Attempts {
            host,
            limit,
            choice,
        } => attempts_answer(alloc, logins, *host, *limit, choice),
        Question::AttemptSums { limit, choice } => {
            attempt_sums_answer(alloc, logins, *limit, choice)
        }
    }
}

/// The answer to a question, with days by a clock.
pub(crate) fn answer(
    alloc: Global,
    clock: &Clock,
    logins: &LoginStore,
    hosts: u32,
    summary: &Summary,
    question: &Question,
) -> Result<Answer, AskFault>
    requires hosts { hosts ≡ logins.now.hosts }
    requires ready { IsReady question.now logins.now.is_counted }
    requires host { NamesHostBelow hosts question.now }
    requires askable { IsAskable question.now }
    ensures value { IfOk result (λ a. a ≡ answer_of clock.now question.now logins.now.entries summary.now.entries) }
    ensures days { IfOk result HasDays }
    ensures cause { IfErr result (λ f. f ≡ AskFault.Memory) }
{
    let answer = answer_in(alloc, clock, logins, hosts, summary, question)?;
    Ok(answer)
}
