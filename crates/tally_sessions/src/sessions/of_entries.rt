//! Sessions of entries that are stored already, counted by one thread or by several.
ghost use Rattle.std.specs.Prelude.{◌≡◌, ◌≤◌, ◌<◌, ◌+◌, ◌⊎◌, All, IfErr, IfOk, MatchOption, length};
ghost use Rattle.tally_sessions.specs.inside.Entries.{entry_at};
ghost use Rattle.tally_sessions.specs.inside.Kept.{AreTracks, AreTracksFrom};

use crate::entries::list::EntryList;
use crate::sessions::{ENTRY_LIMIT, HOST_LIMIT, Sessions, new_tracks};
use crate::track::Track;
use std::alloc::Global;
use std::hash::RandomState;
use std::thread;
use std::thread::Threads;
use tally_records::Memory;

/// The fewest entries that are worth a thread.
const ENTRIES_FOR_A_THREAD: usize = 16_384;

/// The place of a host among so many from one on.
fn place_among(host: u32, first: u32, count: u32) -> Option<usize>
    ensures { MatchOption result ((host < first) ⊎ (first + count ≤ host)) (λ place. (first + place ≡ host) × (place < count)) }
{
    let place = host.checked_sub(first)?;
    if place < count {
        Some(place as usize)
    } else {
        None
    }
}

/// Where the host of the entry at a place stands among so many hosts from one on.
fn place_of_host(entries: &EntryList, at: usize, first: u32, count: u32) -> Option<usize>
    requires { at < length entries.now }
    ensures { MatchOption result (((entry_at entries.now at).host < first) ⊎ (first + count ≤ (entry_at entries.now at).host))
        (λ place. (first + place ≡ (entry_at entries.now at).host) × (place < count)) }
{
    place_among(entries.host(at), first, count)
}

/// The tracks of so many hosts from one on, after all entries.
fn tracks_of(
    alloc: Global,
    keys: RandomState,
    entries: &EntryList,
    first: u32,
    count: u32,
) -> Result<Vec<Track>, Memory>
    requires few { length entries.now ≤ ENTRY_LIMIT }
    requires hosts { first + count ≤ HOST_LIMIT }
    ensures { IfOk result (λ tracks. AreTracksFrom first count entries.now (length entries.now) tracks.items) }
{
    let mut tracks = new_tracks(alloc, keys, count)?;
    let mut at = 0;
    while at < entries.len() {
        let end = entries.batch_end(at);
        if let Some(place) = place_of_host(entries, at, first, count) {
            tracks[place].go_over(first + place as u32, entries, at, end)?;
        }
        at = end;
    }
    Ok(tracks)
}

/// The same, where each so many hosts are counted by a thread of their own, and the last of them
/// by this one.
#[cycle(parts)]
fn tracks_by<R: Threads + Sync>(
    rt: &R,
    alloc: Global,
    keys: RandomState,
    entries: &EntryList,
    first: u32,
    count: u32,
    size: u32,
) -> Result<Vec<Track>, Memory>
    requires few { length entries.now ≤ ENTRY_LIMIT }
    requires hosts { first + count ≤ HOST_LIMIT }
    requires some { 0 < size }
    ensures { IfOk result (λ tracks. AreTracksFrom first count entries.now (length entries.now) tracks.items) }
{
    if count <= size {
        return tracks_of(alloc, keys, entries, first, count);
    }
    let next = first + size;
    let left = count - size;
    let theirs = move || -> Result<Vec<Track>, Memory>
        requires { (length entries.now ≤ ENTRY_LIMIT) × (first + size ≤ HOST_LIMIT) }
        ensures { IfOk result (λ tracks. AreTracksFrom first size entries.entry.now (length entries.entry.now) tracks.items) }
    { tracks_of(alloc, keys, entries, first, size) };
    let after = move || -> Result<Vec<Track>, Memory>
        requires { (length entries.now ≤ ENTRY_LIMIT) × (next + left ≤ HOST_LIMIT) × (0 < size) }
        ensures { IfOk result (λ tracks. AreTracksFrom next left entries.entry.now (length entries.entry.now) tracks.items) }
    { tracks_by(rt, alloc, keys, entries, next, left, size) };
    let (tracks, others) = thread::join(rt, theirs, after);
    let mut tracks = tracks?;
    let mut others = others?;
    tracks.append(&mut others)?;
    Ok(tracks)
}

/// The tracks of all hosts, of which the first so many have entries.
fn all_tracks_by<R: Threads + Sync>(
    rt: &R,
    alloc: Global,
    keys: RandomState,
    entries: &EntryList,
    hosts: u32,
    size: u32,
) -> Result<Vec<Track>, Memory>
    requires few { length entries.now ≤ ENTRY_LIMIT }
    requires hosts { hosts ≤ HOST_LIMIT }
    requires some { 0 < size }
    ensures { IfOk result (λ tracks. AreTracks entries.now (length entries.now) tracks.items) }
{
    let mut tracks = tracks_by(rt, alloc, keys, entries, 0, hosts, size)?;
    let mut others = tracks_of(alloc, keys, entries, hosts, HOST_LIMIT - hosts)?;
    tracks.append(&mut others)?;
    Ok(tracks)
}

impl Sessions {
    /// The sessions of stored entries.
    pub(super) fn with_tracks(hosts: u32, entries: EntryList, tracks: Vec<Track>) -> Sessions
        requires few_hosts { hosts ≤ HOST_LIMIT }
        requires within { All (λ e. e.host < hosts) entries }
        requires few { length entries ≤ ENTRY_LIMIT }
        requires tracks { AreTracks entries (length entries) tracks.items }
        ensures { result ≡ record { hosts = hosts; entries = entries; ready = None } }
    {
        Sessions {
            hosts,
            stored: entries.len(),
            entries,
            ready: None,
            tracks,
        }
    }

    /// The sessions of the entries of so many hosts. Where memory is refused, the entries come back.
    pub fn of_entries(
        alloc: Global,
        keys: RandomState,
        hosts: u32,
        entries: EntryList,
    ) -> Result<Sessions, EntryList>
        requires few_hosts { hosts ≤ HOST_LIMIT }
        requires within { All (λ e. e.host < hosts) entries }
        requires few { length entries ≤ ENTRY_LIMIT }
        ensures value { IfOk result (λ s. s ≡ record { hosts = hosts; entries = entries; ready = None }) }
        ensures refused { IfErr result (λ back. back ≡ entries) }
    {
        match tracks_of(alloc, keys, &entries, 0, HOST_LIMIT) {
            Ok(tracks) => Ok(Sessions::with_tracks(hosts, entries, tracks)),
            Err(_) => Err(entries),
        }
    }

    /// The same, by so many threads at most: several hosts' sessions are counted side by side.
    pub fn of_entries_by<R: Threads + Sync>(
        rt: &R,
        alloc: Global,
        keys: RandomState,
        hosts: u32,
        entries: EntryList,
        threads: u32,
    ) -> Result<Sessions, EntryList>
        requires some_hosts { 0 < hosts }
        requires few_hosts { hosts ≤ HOST_LIMIT }
        requires within { All (λ e. e.host < hosts) entries }
        requires few { length entries ≤ ENTRY_LIMIT }
        ensures value { IfOk result (λ s. s ≡ record { hosts = hosts; entries = entries; ready = None }) }
        ensures refused { IfErr result (λ back. back ≡ entries) }
    {
        let worth = (entries.len() / ENTRIES_FOR_A_THREAD) as u32;
        let size = hosts.div_ceil(threads.min(worth).max(1));
        match all_tracks_by(rt, alloc, keys, &entries, hosts, size) {
            Ok(tracks) => Ok(Sessions::with_tracks(hosts, entries, tracks)),
            Err(_) => Err(entries),
        }
    }
}
