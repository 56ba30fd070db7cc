//! Failed logins of several files, printed one by one.
ghost use Rattle.std.specs.Prelude.{◌≤◌, ◌+◌, length};
ghost use Rattle.tally_sessions.specs.Days.{IsOffset};

use super::{is_printed, name};
use std::alloc::Global;
use std::process::Abort;
use tally_clock::Clock;
use tally_print::{
    Kept, Table, print_all_attempts, print_attempt_table, print_path_attempts, print_path_header,
};
use tally_records::{Batch, LoginChoice};
use tally_sessions::EntryList;

/// Writes a text into the bytes of a record at a place.
fn put(bytes: &mut [u8; 384], at: usize, text: &[u8])
    requires { at + length text.now ≤ 384 }
{
    bytes[at..at + text.len()].copy_from_slice(text);
}

/// The record of a btmp file of this type, user and time, on tty1.
fn record(kind: u8, user: &[u8], time: i32) -> [u8; 384]
    requires { length user.now ≤ 32 }
{
    let mut bytes = [0; 384];
    bytes[0] = kind;
    put(&mut bytes, 8, b"tty1");
    put(&mut bytes, 44, user);
    put(&mut bytes, 340, &time.to_le_bytes());
    bytes
}

/// Adds the records of a host.
fn add(rt: &impl Abort, alloc: Global, entries: &mut EntryList, host: u32, records: &[[u8; 384]]) {
    let batch = Batch::failed_logins(alloc, records.as_flattened()).expect(rt, "failed logins");
    assert!(rt; entries.len() < 100 && batch.len() < 100);
    entries.append_batch(host, &batch).expect(rt, "memory");
    drop(batch);
}

/// Three files: of an empty record and three failed logins, of none, and of one by bob before 1970. The first two of the first
/// file come before the third file.
fn three_files(rt: &impl Abort, alloc: Global) -> EntryList {
    let mut entries = EntryList::new(alloc);
    let first = [record(0, b"", 5), record(6, b"root", 1_000_000)];
    let later = [record(7, b"ann", 1_000_060), record(6, b"root", 1_000_120)];
    add(rt, alloc, &mut entries, 0, &first);
    add(rt, alloc, &mut entries, 2, &[record(6, b"bob", -1)]);
    add(rt, alloc, &mut entries, 0, &later);
    entries
}

/// Which failed logins are printed: the chosen ones up to a limit, at an offset.
#[derive(Clone, Copy)]
struct Asked {
    limit: Option<u32>,
    choice: LoginChoice,
    offset: i32,
}

/// Asserts that the failed logins of the three files are printed so, as lines and as a table.
fn expect_all(rt: &impl Abort, alloc: Global, asked: &Asked, text: &[u8], table: &[u8])
    requires { IsOffset asked.now.offset }
{
    let Asked {
        limit,
        choice,
        offset,
    } = *asked;
    let utc = Clock::utc(alloc);
    let list = three_files(rt, alloc);
    let entries = list.entries();
    let mut out = Kept::new(alloc);
    let printed = print_all_attempts(alloc, &utc, entries, 3, limit, &choice, offset, &mut out);
    is_printed(rt, printed, out, text);
    let mut out = Kept::new(alloc);
    let printed = print_attempt_table(alloc, &utc, entries, 3, limit, &choice, offset, &mut out);
    is_printed(rt, printed, out, table);
    drop(list);
    drop(utc);
}

#[test]
fn each_file_has_a_section(rt: HostRuntime) {
    let text = b"\
root     tty1                          1970-01-12 14:48:40
ann      tty1                          1970-01-12 14:47:40
root     tty1                          1970-01-12 14:46:40

btmp begins 1970-01-01 01:00:05

btmp has no records

bob      tty1                          1970-01-01 00:59:59

btmp begins 1970-01-01 00:59:59
";
    let table = b"\
file,user,line,remote,time,at
1,root,tty1,,1000120,1970-01-12T14:48:40+01:00
1,ann,tty1,,1000060,1970-01-12T14:47:40+01:00
1,root,tty1,,1000000,1970-01-12T14:46:40+01:00
3,bob,tty1,,-1,1970-01-01T00:59:59+01:00
";
    let asked = Asked {
        limit: None,
        choice: LoginChoice::every(),
        offset: 60,
    };
    expect_all(&rt, rt.alloc(), &asked, text, table);
}

#[test]
fn a_limit_counts_the_chosen_of_each_file(rt: HostRuntime) {
    let text = b"\
root     tty1                          1970-01-12 13:48:40

btmp begins 1970-01-01 00:00:05

btmp has no records


btmp begins 1969-12-31 23:59:59
";
    let table = b"\
file,user,line,remote,time,at
1,root,tty1,,1000120,1970-01-12T13:48:40+00:00
";
    let mut choice = LoginChoice::every();
    choice.users[0] = Some(name(b"root"));
    let asked = Asked {
        limit: Some(1),
        choice,
        offset: 0,
    };
    expect_all(&rt, rt.alloc(), &asked, text, table);
}

#[test]
fn no_file_has_no_section(rt: HostRuntime) {
    let rt = &rt;
    let alloc = rt.alloc();
    let utc = Clock::utc(alloc);
    let list = EntryList::new(alloc);
    let choice = LoginChoice::every();
    let mut out = Kept::new(alloc);
    let printed = print_all_attempts(alloc, &utc, list.entries(), 0, None, &choice, 0, &mut out);
    is_printed(rt, printed, out, b"");
    drop(list);
    drop(utc);
}

/// Asserts that the latest two failed logins of one of the three files are printed so with a path.
fn expect_path(rt: &impl Abort, alloc: Global, host: u32, path: &str, text: &[u8]) {
    let utc = Clock::utc(alloc);
    let list = three_files(rt, alloc);
    let entries = list.entries();
    let choice = LoginChoice::every();
    let limit = Some(2);
    let mut out = Kept::new(alloc);
    let mut printed = print_path_header(Table::Attempts, &mut out);
    if printed.is_ok() {
        printed = print_path_attempts(
            alloc, &utc, entries, host, limit, &choice, path, 60, &mut out,
        );
    }
    is_printed(rt, printed, out, text);
    drop(list);
    drop(utc);
}

#[test]
fn a_path_stands_after_the_number_of_its_file(rt: HostRuntime) {
    let rt = &rt;
    let alloc = rt.alloc();
    let text = b"\
file,path,user,line,remote,time,at
1,\"a,\"\"b?\",root,tty1,,1000120,1970-01-12T14:48:40+01:00
1,\"a,\"\"b?\",ann,tty1,,1000060,1970-01-12T14:47:40+01:00
";
    expect_path(rt, alloc, 0, "a,\"b\x1B", text);
    let text = b"file,path,user,line,remote,time,at\n";
    expect_path(rt, alloc, 1, "none", text);
    let text = b"\
file,path,user,line,remote,time,at
3,,bob,tty1,,-1,1970-01-01T00:59:59+01:00
";
    expect_path(rt, alloc, 2, "", text);
}
