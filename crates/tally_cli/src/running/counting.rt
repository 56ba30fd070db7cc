//! Files of process records that several threads count, and of which no record is kept.
ghost use Rattle.std.specs.Prelude.{◌≡◌, ◌≢◌, ◌⊎◌, ◌<◌, ◌≤◌, ℕ, IfErr, IfOk, IfSome, List, MatchBool, OnOk, length, map, slice_index_or};
ghost use Rattle.std.specs.List.{All};
ghost use Rattle.tally_cli.specs.Runs.{IsReadable, Tell, Told};
ghost use Rattle.tally_cli.specs.Usages.{IsOfProcs, IsUsage};
ghost use Rattle.tally_cli.specs.inside.Counts.{AreJoined, AreSummed, CameOf, IsCountCause, IsCountRefusal, IsJoinFault, IsNotJoined, Joins};
ghost use Rattle.tally_cli.specs.inside.Files.{AreAllCounted, AreCounted, AreExplained, HasSums, IsFault, IsPlaced, IsUncounted, StopAtFault, StopsAtFault, count_in};
ghost use Rattle.tally_cli.specs.inside.Parts.{AreAnsweredWanted, ArePartsWanted, HasPart, report_lent};

use crate::fault::UsageFault;
use crate::running::deal::busy_feeders;
use crate::running::files::{Count, FileCount, deal, take_count};
use crate::running::parts::{FilePart, add_part};
use crate::running::source::Source;
use std::alloc::Global;
use std::hash::RandomState;
use std::thread::{self, Threads};
use tally_desk::{CountFault, Input, count_input};
use tally_line::Report;
use tally_sessions::HOST_LIMIT;
use tally_usage::{ProcChoice, Sums, SumsFault};

/// The most blocks of 1,024 records that a file may have: 2^28 records. As many may be chosen of all files together.
pub const FILE_BLOCKS: u32 = 262_144;

/// What the count of a file came to.
pub(crate) type ProcCount = Count<Sums, CountFault>;

/// A file of process records, and what its count came to.
pub(crate) type ProcFile<I> = FileCount<I, Sums, CountFault>;

/// The sums of all files, and the part of each where parts are wanted.
#[derive(Drop)]
pub(crate) struct Joined {
    pub(crate) total: Sums,
    pub(crate) parts: Vec<FilePart>,
}

/// Counts the chosen records of a file, and says whether it was counted to its end.
fn count_file<I: Input>(
    alloc: Global,
    keys: RandomState,
    choice: &ProcChoice,
    file: &mut ProcFile<I>,
) -> bool
    requires { IsReadable I.failures file.old.source }
    ensures came { CameOf choice.now I.to_come I.can_fail file.old.source file.new.count }
    ensures done { MatchBool result (HasSums file.new.count) (IsFault file.new.count) }
{
    match count_input(alloc, keys, &mut file.source.input, choice, FILE_BLOCKS) {
        Ok(sums) => {
            file.count = Count::Sums(sums);
            true
        }
        Err(fault) => {
            file.count = Count::Fault(fault);
            false
        }
    }
}

/// Counts a feeder's files in order, up to the first that has a fault.
fn count_list<I: Input>(
    alloc: Global,
    keys: RandomState,
    choice: &ProcChoice,
    files: &mut [ProcFile<I>],
)
    requires { All (IsUncounted I.failures) files.old }
    ensures counted { AreCounted (CameOf choice.now I.to_come I.can_fail) StopsAtFault files.old files.new }
    ensures stops { StopAtFault files.new }
{
    for at in 0..files.len() {
        if !count_file(alloc, keys, choice, &mut files[at]) {
            break;
        }
    }
}

/// Counts the files of each feeder in a thread of its own.
fn count_lists<R: Threads + Sync, I: Input + Send>(
    rt: &R,
    alloc: Global,
    keys: RandomState,
    choice: &ProcChoice,
    lists: &mut Vec<Vec<ProcFile<I>>>,
    feeders: usize,
)
    requires feeders { 0 < feeders }
    requires uncounted { All (λ v. All (IsUncounted I.failures) v.items) lists.old.items }
    ensures { AreAllCounted (CameOf choice.now I.to_come I.can_fail) StopsAtFault (λ v. v.items) lists.old.items lists.new.items }
{
    let count = |_: usize, files: &mut Vec<ProcFile<I>>|
        requires { All (IsUncounted I.failures) files.now.items }
        ensures { AreCounted (CameOf choice.entry.now I.to_come I.can_fail) StopsAtFault files.entry.now.items files.exit.now.items }
    { count_list(alloc, keys, choice, files.as_mut_slice()) };
    thread::for_each_mut(rt, lists.as_mut_slice(), feeders, &count);
}

/// Adds what a file's count has to the sums of the files before it.
fn join_count(total: &mut Sums, host: u32, count: ProcCount) -> Result<(), UsageFault>
    requires { HasSums count ⊎ IsFault count }
    ensures joined { OnOk result (Joins count total.old total.new) }
    ensures fault { IfErr result (IsNotJoined count total.old host) }
{
    match count {
        Count::Sums(sums) => match total.merge(sums) {
            Ok(()) => Ok(()),
            Err(SumsFault::Memory) => Err(UsageFault::Memory),
            Err(SumsFault::Full) => Err(UsageFault::Full { host }),
        },
        Count::Fault(fault) => Err(UsageFault::File { host, fault }),
        Count::Untried => unreachable!(),
    }
}

/// The sums of all files of so many feeders, joined in their order, and the part of each where parts are wanted for a report. A
/// fault is that of the first file that has one.
fn join_files<I: Drop>(
    alloc: Global,
    keys: RandomState,
    report: Option<&Report>,
    mut lists: Vec<Vec<ProcFile<I>>>,
    feeders: usize,
    files: u32,
) -> Result<Joined, UsageFault>
    requires usage { IfSome report (λ r. IsUsage r.now) }
    requires some { 0 < feeders }
    requires all { length lists.items ≡ feeders }
    requires placed { (k : ℕ) → k < files → IsPlaced feeders (map (λ v. v.items) lists.items) k }
    requires explained { AreExplained StopsAtFault feeders files (count_in feeders (map (λ v. v.items) lists.items)) }
    ensures joined { IfOk result (λ j. AreJoined files (count_in feeders (map (λ v. v.items) lists.items)) j.total) }
    ensures parts { IfOk result (λ j. ArePartsWanted (report_lent report.entry) files (count_in feeders (map (λ v. v.items) lists.items)) j.parts.items) }
    ensures fault { IfErr result (IsJoinFault files (count_in feeders (map (λ v. v.items) lists.items))) }
{
    let mut total = Sums::new(alloc, keys);
    let mut parts = Vec::new(alloc);
    for host in 0..files {
        let count = take_count(&mut lists, feeders, host as usize);
        add_part(alloc, report, host, &count, &mut parts)?;
        join_count(&mut total, host, count)?;
    }
    Ok(Joined { total, parts })
}

/// Counts the chosen records of each file, several at once, and joins the sums in their order. Where parts are wanted for a report,
/// each file has one. A fault is that of the first file that has one.
pub(crate) fn count_sources<R: Threads + Sync, I: Input + Send>(
    rt: &R,
    alloc: Global,
    keys: RandomState,
    choice: &ProcChoice,
    report: Option<&Report>,
    sources: Vec<Source<I>>,
    feeders: usize,
) -> Result<Joined, UsageFault>
    requires usage { IfSome report (λ r. IsUsage r.now) }
    requires feeders { (0 < feeders) × (feeders ≤ 64) }
    requires few { length sources.items ≤ HOST_LIMIT }
    requires procs { All IsOfProcs sources.items }
    requires readable { All (IsReadable I.failures) sources.items }
    ensures whole { IfOk result (λ j. (inputs : List Told) → Tell I.to_come sources.items inputs → AreSummed choice.now inputs j.total) }
    ensures answered { IfOk result (λ j. (inputs : List Told) → Tell I.to_come sources.items inputs → AreAnsweredWanted choice.now (report_lent report.entry) inputs j.parts.items) }
    ensures parts { IfOk result (λ j. All HasPart j.parts.items) }
    ensures cause { IfErr result (λ f. (inputs : List Told) → Tell I.to_come sources.items inputs → IsCountCause choice.now inputs f) }
    ensures refused { IfErr result (IsCountRefusal I.can_fail sources.items) }
{
    let files = sources.len();
    let feeders = busy_feeders(feeders, files);
    let mut lists = deal(alloc, sources, feeders)?;
    count_lists(rt, alloc, keys, choice, &mut lists, feeders);
    join_files(alloc, keys, report, lists, feeders, files as u32)
}
