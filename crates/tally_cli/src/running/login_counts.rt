//! Files of login records that several threads count, and of which no record is kept.
ghost use Rattle.std.specs.Prelude.{◌≡◌, ◌⊎◌, ◌+◌, ◌<◌, ◌≤◌, ℕ, IfErr, IfOk, List, MatchBool, length, map, sum_by};
ghost use Rattle.std.specs.List.{All};
ghost use Rattle.tally_cli.specs.Runs.{IsReadable, Tell, Told};
ghost use Rattle.tally_cli.specs.inside.Files.{AreAllCounted, AreCounted, AreExplained, HasSums, IsFault, IsPlaced, IsUncounted, count_in};
ghost use Rattle.tally_cli.specs.inside.LoginCounts.{AreCountedIn, AreTaken, CameOf, IsLoginRefusal, IsNotTaken, IsOfLogins, IsTakeFault, StopsAt, counted_of, stored_when_full};
ghost use Rattle.tally_cli.specs.Reading.{IsReadCause, IsUnprinted};
ghost use Rattle.tally_desk.specs.declared.fault.FeedFault.TheVariants as feed_fault_of;

use crate::fault::RunFault;
use crate::running::deal::busy_feeders;
use crate::running::files::{Count, FileCount, deal, take_count};
use crate::running::source::Source;
use std::alloc::Global;
use std::hash::RandomState;
use std::thread::{self, Threads};
use tally_book::Room;
use tally_desk::{FeedFault, Input, Uncounted, count_logins};
use tally_records::BATCH_LIMIT;
use tally_sessions::{ConnectSums, HOST_LIMIT};

/// What the count of a file came to.
type LoginCount = Count<ConnectSums, Uncounted>;

/// A file of login records, and what its count came to.
type LoginFile<I> = FileCount<I, ConnectSums, Uncounted>;

/// Counts the records of a file, after so many that were counted, and says whether there may be more. Its sessions are kept or not.
fn count_file<I: Input>(
    alloc: Global,
    keys: RandomState,
    room: Room,
    keeps_sessions: bool,
    counted: &mut u64,
    file: &mut LoginFile<I>,
) -> bool
    requires readable { IsReadable I.failures file.old.source }
    requires few { counted.old ≤ room }
    ensures came { CameOf I.to_come I.can_fail room keeps_sessions file.old.source file.new.count }
    ensures counted { counted.new ≡ counted.old + counted_of file.new.count }
    ensures tried { HasSums file.new.count ⊎ IsFault file.new.count }
    ensures done { MatchBool result (HasSums file.new.count × (counted.new ≤ room)) (IsFault file.new.count ⊎ (room < counted.new)) }
{
    let most = room.batches();
    match count_logins(alloc, keys, &mut file.source.input, most, keeps_sessions) {
        Ok(sums) => {
            *counted += sums.len() as u64;
            file.count = Count::Sums(sums);
            *counted <= u64::from(room.records())
        }
        Err(found) => {
            *counted += found.counted;
            file.count = Count::Fault(found);
            false
        }
    }
}

/// Counts a feeder's files in order, up to the first that has a fault, or with which there are more records than all files may have.
fn count_list<I: Input>(
    alloc: Global,
    keys: RandomState,
    room: Room,
    keeps_sessions: bool,
    files: &mut [LoginFile<I>],
)
    requires { All (IsUncounted I.failures) files.old }
    ensures { AreCounted (CameOf I.to_come I.can_fail room keeps_sessions) (StopsAt room) files.old files.new }
{
    let mut counted = 0;
    for at in 0..files.len() {
        let file = &mut files[at];
        if !count_file(alloc, keys, room, keeps_sessions, &mut counted, file) {
            break;
        }
    }
}

/// Counts the files of each feeder in a thread of its own.
fn count_lists<R: Threads + Sync, I: Input + Send>(
    rt: &R,
    alloc: Global,
    keys: RandomState,
    room: Room,
    keeps_sessions: bool,
    lists: &mut Vec<Vec<LoginFile<I>>>,
    feeders: usize,
)
    requires feeders { 0 < feeders }
    requires uncounted { All (λ v. All (IsUncounted I.failures) v.items) lists.old.items }
    ensures { AreAllCounted (CameOf I.to_come I.can_fail room keeps_sessions) (StopsAt room) (λ v. v.items) lists.old.items lists.new.items }
{
    let count = |_: usize, files: &mut Vec<LoginFile<I>>|
        requires { All (IsUncounted I.failures) files.now.items }
        ensures { AreCounted (CameOf I.to_come I.can_fail room keeps_sessions) (StopsAt room) files.entry.now.items files.exit.now.items }
    { count_list(alloc, keys, room, keeps_sessions, files.as_mut_slice()) };
    thread::for_each_mut(rt, lists.as_mut_slice(), feeders, &count);
}

/// The fault of the file with this number where there are too many records, after so many: that of a book which stores the full
/// batches that follow.
fn too_many(room: Room, host: u32, before: u64) -> RunFault
    requires { before ≤ room }
    ensures { result ≡ RunFault.File host (feed_fault_of.LoginsFull (stored_when_full room before)) }
{
    let left = u64::from(room.records()) - before;
    RunFault::File {
        host,
        fault: FeedFault::LoginsFull {
            stored: before + left / BATCH_LIMIT as u64 * BATCH_LIMIT as u64,
        },
    }
}

/// What is counted of a file, after so many records of the files before it.
fn take_logins(
    room: Room,
    host: u32,
    before: u64,
    count: LoginCount,
) -> Result<ConnectSums, RunFault>
    requires tried { HasSums count ⊎ IsFault count }
    requires few { before ≤ room }
    ensures taken { IfOk result (λ sums. count ≡ Count.Sums sums) }
    ensures few { IfOk result (λ sums. before + sums.count ≤ room) }
    ensures fault { IfErr result (IsNotTaken room host before count) }
{
    let left = u64::from(room.records()) - before;
    match count {
        Count::Sums(sums) => {
            if sums.len() as u64 > left {
                return Err(too_many(room, host, before));
            }
            Ok(sums)
        }
        Count::Fault(Uncounted { counted, fault }) => {
            if counted > left {
                return Err(too_many(room, host, before));
            }
            Err(RunFault::File { host, fault })
        }
        Count::Untried => unreachable!(),
    }
}

/// The counts of all files of so many feeders, in their order. A fault is that of the first file that has one, or with which there are
/// too many records.
fn take_files<I: Drop>(
    alloc: Global,
    room: Room,
    mut lists: Vec<Vec<LoginFile<I>>>,
    feeders: usize,
    files: u32,
) -> Result<Vec<ConnectSums>, RunFault>
    requires some { 0 < feeders }
    requires all { length lists.items ≡ feeders }
    requires placed { (k : ℕ) → k < files → IsPlaced feeders (map (λ v. v.items) lists.items) k }
    requires explained { AreExplained (StopsAt room) feeders files (count_in feeders (map (λ v. v.items) lists.items)) }
    ensures taken { IfOk result (λ counts. AreTaken files (count_in feeders (map (λ v. v.items) lists.items)) counts.items) }
    ensures room { IfOk result (λ counts. sum_by (λ c. c.count) counts.items ≤ room) }
    ensures fault { IfErr result (IsTakeFault room files (count_in feeders (map (λ v. v.items) lists.items))) }
{
    let mut counts = Vec::with_capacity(alloc, files as usize)?;
    let mut counted = 0;
    for host in 0..files {
        let count = take_count(&mut lists, feeders, host as usize);
        let sums = take_logins(room, host, counted, count)?;
        counted += sums.len() as u64;
        counts.push_reserved(sums);
    }
    Ok(counts)
}

/// Counts the records of each file, several at once, and takes the counts in the order of the files. Their sessions are kept or not. A
/// fault is that of the first file that has one, or with which there are more records than all files may have together.
pub(crate) fn count_sources<R: Threads + Sync, I: Input + Send>(
    rt: &R,
    alloc: Global,
    keys: RandomState,
    room: Room,
    keeps_sessions: bool,
    sources: Vec<Source<I>>,
    feeders: usize,
) -> Result<Vec<ConnectSums>, RunFault>
    requires feeders { (0 < feeders) × (feeders ≤ 64) }
    requires few { length sources.items ≤ HOST_LIMIT }
    requires logins { All IsOfLogins sources.items }
    requires readable { All (IsReadable I.failures) sources.items }
    ensures whole { IfOk result (λ counts. (inputs : List Told) → Tell I.to_come sources.items inputs → AreCountedIn room inputs counts.items) }
    ensures few { IfOk result (λ counts. length counts.items ≤ HOST_LIMIT) }
    ensures kept { IfOk result (λ counts. All (λ c. c.keeps_sessions ≡ keeps_sessions) counts.items) }
    ensures room { IfOk result (λ counts. sum_by (λ c. c.count) counts.items ≤ room) }
    ensures cause { IfErr result (λ f. (inputs : List Told) → Tell I.to_come sources.items inputs → IsReadCause room inputs f) }
    ensures refused { IfErr result (λ f. (callers : ℕ) → IsLoginRefusal I.can_fail room callers sources.items f) }
    ensures unprinted { IfErr result IsUnprinted }
{
    let files = sources.len();
    let feeders = busy_feeders(feeders, files);
    let mut lists = deal(alloc, sources, feeders)?;
    count_lists(rt, alloc, keys, room, keeps_sessions, &mut lists, feeders);
    take_files(alloc, room, lists, feeders, files as u32)
}
