//! Tasks that are taken back.
ghost use Rattle.std.specs.Prelude.{◌≡◌, ◌⊎◌, ◌+◌, ◌≤◌, List, [], ◌++◌, length, map, sum_by, vec_len};
ghost use Rattle.std.specs.List.{flat_map};
ghost use Rattle.std.specs.Vec.{vec_capacity};
ghost use Rattle.tally_cli.specs.inside.Failures.{AreTaken, AtMost, failure_of};
ghost use Rattle.tally_cli.specs.declared.running.task.Task.{Task as TaskState};

use crate::running::task::{Outcome, Task};
use tally_book::AskFault;
use tally_desk::{FeedFault, Input, Pass};

/// Why a caller's work failed.
#[derive(Drop)]
pub(crate) enum Cause {
    Feed(FeedFault),
    Ask(AskFault),
}

/// A caller's work that failed.
#[derive(Drop)]
pub(crate) struct Failure {
    pub(crate) caller: u32,
    pub(crate) cause: Cause,
}

/// What failed of a caller's work.
fn failure_in(caller: u32, outcome: Outcome) -> Option<Failure>
    ensures { result ≡ failure_of caller outcome }
{
    match outcome {
        Outcome::FeedFailed(fault) => Some(Failure {
            caller,
            cause: Cause::Feed(fault),
        }),
        Outcome::AskFailed(fault) => Some(Failure {
            caller,
            cause: Cause::Ask(fault),
        }),
        Outcome::Untried | Outcome::Fed(_) | Outcome::Asked(_) => None,
    }
}

/// The failure of the lesser caller.
fn lesser(one: Option<Failure>, other: Option<Failure>) -> Option<Failure>
    ensures among { (result ≡ one) ⊎ (result ≡ other) }
    ensures least { AtMost result one × AtMost result other }
{
    match (one, other) {
        (Some(one), Some(other)) if one.caller < other.caller => Some(one),
        (Some(one), None) => Some(one),
        (_, other) => other,
    }
}

/// Takes back the passes of one worker's tasks, and hands out the failure of the least caller.
fn take_list<I: Input>(
    mut tasks: Vec<Task<I>>,
    passes: &mut Vec<Pass>,
    known: Option<Failure>,
) -> Option<Failure>
    requires room { vec_len passes.old + vec_len tasks ≤ vec_capacity passes.old }
    ensures room { vec_capacity passes.new ≡ vec_capacity passes.old }
    ensures count { vec_len passes.new ≡ vec_len passes.old + vec_len tasks }
    ensures taken { (done : List (TaskState _)) → AreTaken done passes.old.items known
        → AreTaken (tasks.items ++ done) passes.new.items result }
{
    let mut failure = known;
    while let Some(task) = tasks.pop() {
        let Task {
            pass,
            work: _,
            outcome,
        } = task;
        failure = lesser(failure_in(pass.number(), outcome), failure);
        passes.push_reserved(pass);
    }
    failure
}

/// Takes back the passes of all tasks, and hands out the failure of the least caller.
pub(crate) fn take_all<I: Input>(
    mut lists: Vec<Vec<Task<I>>>,
    passes: &mut Vec<Pass>,
) -> Option<Failure>
    requires empty { passes.old.items ≡ [] }
    requires room { sum_by length (map (λ v. v.items) lists.items) ≤ vec_capacity passes.old }
    ensures taken { AreTaken (flat_map (λ v. v.items) lists.items) passes.new.items result }
{
    let mut failure = None;
    while let Some(tasks) = lists.pop() {
        failure = take_list(tasks, passes, failure);
    }
    failure
}
