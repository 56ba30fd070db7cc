//! Work that is shared out among threads.
ghost use Rattle.std.specs.Prelude.{◌≡◌, ◌<◌, ℕ, length, slice_index_or, IfOk};
ghost use Rattle.std.specs.List.{All};
ghost use Rattle.tally_cli.specs.inside.Tasks.{AreReady, AreWorked, EachWorks, IsExplained, StopAtFailure};

use crate::running::task::{Task, carry_out};
use std::alloc::{AllocError, Global};
use std::sync::Wait;
use std::thread;
use std::thread::Threads;
use tally_desk::{Desk, Gate, Input};

/// Does the work of the tasks in order, up to the first that fails.
fn carry_out_all<R: Wait, I: Input, G: Gate>(
    rt: &R,
    alloc: Global,
    desk: &Desk,
    mut tasks: Vec<Task<I>>,
    gate: &G,
) -> Vec<Task<I>>
    requires { AreReady I.failures desk.now tasks.items }
    ensures works { EachWorks I.to_come I.can_fail tasks.items result.items }
    ensures explained { All (IsExplained result.items) result.items }
    ensures stops { StopAtFailure result.items }
{
    for at in 0..tasks.len() {
        if !carry_out(rt, alloc, desk, &mut tasks[at], gate) {
            break;
        }
    }
    tasks
}

/// Does the work of each list of tasks in a thread of its own, that of the first in this one.
#[cycle(lists)]
pub(crate) fn carry_out_lists<R: Threads + Wait + Sync, I: Input + Send, G: Gate + Sync>(
    rt: &R,
    alloc: Global,
    desk: &Desk,
    mut lists: Vec<Vec<Task<I>>>,
    gate: &G,
) -> Result<Vec<Vec<Task<I>>>, AllocError>
    requires { All (λ tasks. AreReady I.failures desk.now tasks.items) lists.items }
    ensures { IfOk result (λ done. AreWorked I.to_come I.can_fail (λ tasks. tasks.items) lists.items done.items) }
{
    let Some(tasks) = lists.pop() else {
        return Ok(lists);
    };
    if lists.is_empty() {
        lists.push(carry_out_all(rt, alloc, desk, tasks, gate))?;
        return Ok(lists);
    }
    let theirs = move || -> Vec<Task<I>>
        requires { AreReady I.failures desk.now tasks.items }
        ensures works { EachWorks I.to_come I.can_fail tasks.items result.items }
        ensures explained { All (IsExplained result.items) result.items }
    { carry_out_all(rt, alloc, desk, tasks, gate) };
    let before = move || -> Result<Vec<Vec<Task<I>>>, AllocError>
        requires { All (λ tasks. AreReady I.failures desk.now tasks.items) lists.items }
        ensures { IfOk result (λ done. AreWorked I.to_come I.can_fail (λ tasks. tasks.items) lists.items done.items) }
    { carry_out_lists(rt, alloc, desk, lists, gate) };
    let (last, others) = thread::join(rt, theirs, before);
    let mut done = others?;
    done.push(last)?;
    Ok(done)
}
