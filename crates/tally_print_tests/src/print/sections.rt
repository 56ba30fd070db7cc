//! Sections of stays, beside the printers of the answers that they stand for.
ghost use Rattle.std.specs.Prelude.{◌≡◌, ◌+◌, ◌<◌, ◌≤◌, length};
ghost use Rattle.tally_answers.specs.Answers.{HasDays};
ghost use Rattle.tally_print.specs.Section.{NamesHostBelow, answer_in};
ghost use Rattle.tally_sessions.specs.Days.{IsOffset};

use super::{is_printed, name};
use std::alloc::Global;
use std::hash::RandomState;
use std::process::Abort;
use std::random::RandomSource;
use std::thread::Threads;
use tally_answers::Answer;
use tally_book::Book;
use tally_clock::Clock;
use tally_print::{
    Kept, Section, Table, print_all_sections, print_last, print_path_header, print_path_section,
    print_section_table, print_table,
};
use tally_records::{Batch, LoginChoice, Period};
use tally_sessions::Sessions;

/// Writes a text into the bytes of a record at a place.
fn put(bytes: &mut [u8; 384], at: usize, text: &[u8])
    requires { at + length text.now ≤ 384 }
{
    bytes[at..at + text.len()].copy_from_slice(text);
}

/// The login record of these fields.
fn record(kind: u8, line: &[u8], user: &[u8], time: i32) -> [u8; 384]
    requires line { length line.now ≤ 32 }
    requires user { length user.now ≤ 32 }
{
    let mut bytes = [0; 384];
    bytes[0] = kind;
    put(&mut bytes, 8, line);
    put(&mut bytes, 44, user);
    put(&mut bytes, 340, &time.to_le_bytes());
    bytes
}

/// Posts the records of a host.
fn post(rt: &impl Abort, alloc: Global, book: &mut Book, host: u32, records: &[[u8; 384]])
    requires { host < book.old.callers }
    ensures { book.new.callers ≡ book.old.callers }
{
    let batch = Batch::logins(alloc, records.as_flattened()).expect(rt, "login records");
    let _receipt = book.post(host, &batch).expect(rt, "a receipt");
    drop(batch);
}

/// The sessions of two hosts: of one a running time with a login in it, of the other two logins, of which one has not
/// ended.
fn sessions<R: Abort + RandomSource + Threads + Sync>(rt: &R, alloc: Global) -> Sessions
    ensures { result.hosts ≡ 2 }
{
    let boot = [
        record(2, b"~", b"reboot", 100),
        record(7, b"tty1", b"ann", 200),
        record(1, b"~", b"shutdown", 1000),
    ];
    let logins = [
        record(7, b"tty1", b"a,\"b", -200),
        record(7, b"tty2", b"bob", 0),
        record(8, b"tty1", b"", 90_000),
    ];
    let keys = RandomState::new(rt).expect(rt, "random bytes");
    let mut book = Book::new(alloc, keys, 2).expect(rt, "a book");
    post(rt, alloc, &mut book, 0, &boot);
    post(rt, alloc, &mut book, 1, &logins);
    book.into_sessions(rt, alloc, 2).expect(rt, "sessions")
}

/// Which stays are printed: the chosen ones of a host up to a limit, the open ones counted up to a moment, at an offset.
#[derive(Clone, Copy)]
struct Asked {
    host: u32,
    limit: Option<u32>,
    choice: LoginChoice,
    until: Option<i32>,
    offset: i32,
}

/// Asserts that a section of these stays is printed as the list of them.
fn expect_list(rt: &impl Abort, alloc: Global, clock: &Clock, sessions: &Sessions, asked: &Asked)
    requires host { asked.now.host < sessions.now.hosts }
    requires offset { IsOffset asked.now.offset }
{
    let Asked {
        host,
        limit,
        choice,
        until,
        offset,
    } = *asked;
    let first = sessions.first(host);
    let stays = sessions
        .stays(alloc, host, limit, &choice, until)
        .expect(rt, "stays");
    let mut wanted = Kept::new(alloc);
    let rows = stays.as_slice();
    print_last(alloc, clock, rows, first, offset, &mut wanted, until).expect(rt, "a list");
    drop(stays);
    let section = [Section::Stays {
        host,
        limit,
        choice,
        until,
    }];
    let mut out = Kept::new(alloc);
    let printed = print_all_sections(alloc, clock, sessions, &section, offset, &mut out, until);
    drop(section);
    is_printed(rt, printed, out, wanted.bytes());
    drop(wanted);
}

/// Asserts that the table of a section of these stays is the table of the list of them.
fn expect_table(rt: &impl Abort, alloc: Global, clock: &Clock, sessions: &Sessions, asked: &Asked)
    requires host { asked.now.host < sessions.now.hosts }
    requires offset { IsOffset asked.now.offset }
{
    let Asked {
        host,
        limit,
        choice,
        until,
        offset,
    } = *asked;
    let within = Some(choice.period);
    let table = Table::Stays { within };
    let rows = sessions
        .stays(alloc, host, limit, &choice, until)
        .expect(rt, "stays");
    let answers = [Answer::Last { rows, first: None }];
    let mut wanted = Kept::new(alloc);
    print_table(alloc, clock, table, &answers, offset, &mut wanted).expect(rt, "a table");
    drop(answers);
    let section = [Section::Stays {
        host,
        limit,
        choice,
        until,
    }];
    let mut out = Kept::new(alloc);
    let printed = print_section_table(alloc, clock, sessions, table, &section, offset, &mut out);
    drop(section);
    is_printed(rt, printed, out, wanted.bytes());
    drop(wanted);
}

/// The sessions of bob alone.
fn of_bob() -> LoginChoice {
    let mut choice = LoginChoice::every();
    choice.users[0] = Some(name(b"bob"));
    choice
}

/// What was before 1970-01-02.
fn of_the_first_day() -> LoginChoice {
    let mut choice = LoginChoice::every();
    choice.period = Period {
        from: None,
        to: Some(86_400),
    };
    choice
}

/// Asserts that the stays of both hosts are printed so, of each choice and up to each limit.
fn expect_sections(
    rt: &impl Abort,
    alloc: Global,
    clock: &Clock,
    sessions: &Sessions,
    until: Option<i32>,
    offset: i32,
)
    requires hosts { sessions.now.hosts ≡ 2 }
    requires offset { IsOffset offset }
{
    for choice in [LoginChoice::every(), of_bob(), of_the_first_day()] {
        for host in 0..2 {
            for limit in [None, Some(1), Some(2)] {
                let asked = Asked {
                    host,
                    limit,
                    choice,
                    until,
                    offset,
                };
                expect_list(rt, alloc, clock, sessions, &asked);
                expect_table(rt, alloc, clock, sessions, &asked);
            }
        }
    }
}

/// With sessions that have not ended up to the last record, and up to a moment after it.
#[test]
fn sections_of_stays_are_printed_as_lists_of_them(rt: HostRuntime) {
    let rt = &rt;
    let alloc = rt.alloc();
    let sessions = sessions(rt, alloc);
    let utc = Clock::utc(alloc);
    expect_sections(rt, alloc, &utc, &sessions, None, 0);
    expect_sections(rt, alloc, &utc, &sessions, Some(200_000), -330);
    drop(utc);
    drop(sessions);
}

/// Asserts that a section of the second host is printed so with a path.
fn expect_path(
    rt: &impl Abort,
    alloc: Global,
    sessions: &Sessions,
    table: Table,
    section: &Section,
    text: &[u8],
)
    requires host { NamesHostBelow sessions.now.hosts section.now }
    requires days { HasDays (answer_in sessions.now.entries section.now) }
{
    let utc = Clock::utc(alloc);
    let mut out = Kept::new(alloc);
    let mut printed = print_path_header(table, &mut out);
    if printed.is_ok() {
        let path = "/var/log/wtmp.1";
        printed = print_path_section(alloc, &utc, sessions, table, path, section, 0, &mut out);
    }
    is_printed(rt, printed, out, text);
    drop(utc);
}

#[test]
fn stays_have_the_path_of_their_file(rt: HostRuntime) {
    let rt = &rt;
    let alloc = rt.alloc();
    let sessions = sessions(rt, alloc);
    let section = Section::Stays {
        host: 1,
        limit: None,
        choice: of_bob(),
        until: None,
    };
    let text = b"\
file,path,user,line,remote,start,start_at,begin,end,end_time,end_at,seconds
2,/var/log/wtmp.1,bob,tty2,,0,1970-01-01T00:00:00+00:00,0,still,90000,1970-01-02T01:00:00+00:00,90000
";
    let table = Table::Stays { within: None };
    expect_path(rt, alloc, &sessions, table, &section, text);
    let text = b"\
file,path,user,line,remote,start,start_at,begin,end,end_time,end_at,seconds,within
2,/var/log/wtmp.1,bob,tty2,,0,1970-01-01T00:00:00+00:00,0,still,90000,1970-01-02T01:00:00+00:00,90000,86400
";
    let within = Some(of_the_first_day().period);
    let table = Table::Stays { within };
    expect_path(rt, alloc, &sessions, table, &section, text);
    let text = b"file,path,user,line,remote,time,at\n";
    expect_path(rt, alloc, &sessions, Table::Attempts, &section, text);
    drop(section);
    drop(sessions);
}
