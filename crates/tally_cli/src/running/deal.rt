//! Tasks that are dealt to workers.
ghost use Rattle.std.specs.Prelude.{◌≡◌, ◌+◌, ◌-◌, ◌%◌, ◌<◌, ◌≤◌, ℕ, [], length, map, drop, max, slice_get, slice_index_or, sum_by, IfOk};
ghost use Rattle.std.specs.List.{All};
ghost use Rattle.tally_cli.specs.inside.Tasks.{AreReady};
ghost use Rattle.tally_cli.specs.inside.Deals.{AreDealt, work_of};
ghost use Rattle.tally_cli.specs.Runs.{IsReadable};

use crate::running::source::Source;
use crate::running::task::{Asking, Outcome, Task, Work};
use std::alloc::{AllocError, Global};
use tally_desk::{Desk, Input, Pass};
use tally_sessions::HOST_LIMIT;

/// The worker of a caller: feeders share the sources, and each asker is one of its own.
fn worker_of(number: usize, sources: usize, feeders: usize) -> usize
    requires { (0 < feeders) × (feeders ≤ 64) × (number < HOST_LIMIT) }
    ensures inside { number < sources → result < feeders }
    ensures feeder { number < sources → result ≡ number % feeders }
    ensures asker { sources ≤ number → result ≡ feeders + (number - sources) }
{
    if number < sources {
        number % feeders
    } else {
        feeders + (number - sources)
    }
}

/// How many feeders have a source, where there is one: which feeder a source is dealt to stays
/// the same.
pub(crate) fn busy_feeders(feeders: usize, sources: usize) -> usize
    requires { (0 < feeders) × (feeders ≤ 64) }
    ensures allowed { (0 < result) × (result ≤ 64) }
    ensures spared { result ≤ max 1 sources }
    ensures same { (k : ℕ) → k < sources → k % result ≡ k % feeders }
{
    feeders.min(sources.max(1))
}

/// As many empty lists.
pub(crate) fn empty_lists<T: Drop>(alloc: Global, count: usize) -> Result<Vec<Vec<T>>, AllocError>
    ensures { IfOk result (λ lists. (length lists.items ≡ count) × All (λ v. v.items ≡ []) lists.items) }
{
    let mut lists = Vec::new(alloc);
    for _ in 0..count {
        lists.push(Vec::new(alloc))?;
    }
    Ok(lists)
}

/// The first source is to be fed, or nothing is left but to ask.
fn next_work<I: Drop>(sources: &mut Vec<Source<I>>, asking: Asking) -> Work<I>
    ensures work { result ≡ work_of asking (slice_get sources.old.items 0) }
    ensures rest { sources.new.items ≡ drop 1 sources.old.items }
{
    if sources.is_empty() {
        return Work::Ask(asking);
    }
    Work::Feed(sources.remove(0))
}

/// Deals the callers' work to the workers, in order.
pub(crate) fn deal_out<I: Input>(
    alloc: Global,
    desk: &Desk,
    passes: Vec<Pass>,
    sources: Vec<Source<I>>,
    feeders: usize,
    asking: Asking,
) -> Result<Vec<Vec<Task<I>>>, AllocError>
    requires feeders { (0 < feeders) × (feeders ≤ 64) }
    requires passes { length passes.items ≤ HOST_LIMIT }
    requires desk { All (λ p. p.desk ≡ desk.now.id) passes.items }
    requires numbers { (k : ℕ) (p : _) → k < length passes.items → (slice_index_or passes.items k p).number ≡ k }
    requires sources { length sources.items ≤ length passes.items }
    requires readable { All (IsReadable I.failures) sources.items }
    ensures dealt { IfOk result (λ lists. AreDealt asking sources.items passes.items (map (λ v. v.items) lists.items)) }
    ensures all { IfOk result (λ lists. sum_by length (map (λ v. v.items) lists.items) ≡ length passes.items) }
    ensures ready { IfOk result (λ lists. All (AreReady I.failures desk.now) (map (λ v. v.items) lists.items)) }
{
    let callers = passes.len();
    let count = sources.len();
    let (mut passes, mut sources) = (passes, sources);
    let mut lists = empty_lists(alloc, feeders + (callers - count))?;
    for number in 0..callers {
        let pass = passes.remove(0);
        let task = Task {
            pass,
            work: next_work(&mut sources, asking),
            outcome: Outcome::Untried,
        };
        lists[worker_of(number, count, feeders)].push(task)?;
    }
    Ok(lists)
}
