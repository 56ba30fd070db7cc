//! Sections and rows of findings, whose texts were worked out by hand.
use crate::findings::{log_at, made, night, other, process};
use std::alloc::{AllocError, Global};
use std::process::Abort;
use tally_check::Findings;
use tally_check_text::{Origin, print_text, push_header, push_row, push_section};
use tally_clock::Clock;
use tally_kinds::Looks;
use tally_print::{FileColumns, Kept};

/// Asserts that all of a text was appended; where a growth was refused, a first part of it.
fn expect(rt: &impl Abort, appended: Result<(), AllocError>, text: Vec<u8>, wanted: &[u8]) {
    if appended.is_ok() {
        assert_eq!(rt; text.as_slice(), wanted);
    } else {
        assert!(rt; wanted.starts_with(text.as_slice()));
    }
    drop(text);
}

/// Asserts which section a file has, an hour east of UTC.
fn expect_section(
    rt: &impl Abort,
    alloc: Global,
    path: &str,
    origin: Origin<'_>,
    findings: &Findings,
    wanted: &[u8],
) {
    let utc = Clock::utc(alloc);
    let mut text = Vec::new(alloc);
    let appended = push_section(&mut text, &utc, path, origin, findings, 60);
    drop(utc);
    expect(rt, appended, text, wanted);
}

#[test]
fn a_section_names_each_thing_that_is_doubtful(rt: HostRuntime) {
    let rt = &rt;
    let wanted = b"\
f?: login records
size            3458
records         9
types           1 BOOT_TIME, 1 LOGIN_PROCESS, 2 USER_PROCESS, 1 DEAD_PROCESS
first           1970-01-01 01:16:40
last            1970-01-01 03:40:00
span            2:23:20
still open      1 session, 1:00:00
ended by a boot 2 sessions, 25:01:01
doubtful        2 records of zeros before other records: the first is record 1
doubtful        1 record of zeros at the end: record 8
doubtful        1 record of no known type: record 3
doubtful        2 steps back in time without a clock change, 1:00:00 at most
doubtful        2 bytes after the last whole record
";
    expect_section(rt, rt.alloc(), "f\t", Origin::File, &night(), wanted);
}

#[test]
fn a_packed_file_is_named_as_a_shell_reads_it(rt: HostRuntime) {
    let rt = &rt;
    let alloc = rt.alloc();
    let wanted = b"\
-it's: packed by xz
size            7
doubtful        no records that are read: try xzcat ./'-it'\\''s' | tally check /dev/stdin
";
    let packed = other(7, Looks::Xz);
    expect_section(rt, alloc, "-it's", Origin::File, &packed, wanted);
    let wanted = b"f: empty\nsize            0\ndoubtful        nothing\n";
    let empty = other(0, Looks::Nothing);
    expect_section(rt, alloc, "f", Origin::File, &empty, wanted);
}

#[test]
fn a_time_that_no_record_has_is_shown_as_the_nearest(rt: HostRuntime) {
    let rt = &rt;
    let wanted = b"\
f: login records
size            384
records         1
types           1 EMPTY
first           1901-12-13 21:45:52
last            2106-02-07 07:28:15
span            5124095576030431:00:15
still open      0 sessions
ended by a boot 0 sessions
doubtful        nothing
";
    let log = log_at(i64::MIN, i64::MAX);
    expect_section(rt, rt.alloc(), "f", Origin::File, &log, wanted);
}

#[test]
fn a_database_has_the_login_records_made_of_it(rt: HostRuntime) {
    let rt = &rt;
    let wanted = b"\
w.db: login records of a database
size            8192
records         1
types           1 USER_PROCESS
first           1970-01-01 01:16:40
last            1970-01-01 01:16:40
span            0:00:00
still open      1 session, 0:00:00
ended by a boot 0 sessions
doubtful        nothing
";
    let alloc = rt.alloc();
    expect_section(rt, alloc, "w.db", Origin::Database, &made(), wanted);
    let wanted = b"\
w.db: login records of a database
size            8192
doubtful        nothing
";
    let empty = other(8192, Looks::Nothing);
    expect_section(rt, alloc, "w.db", Origin::Database, &empty, wanted);
}

#[test]
fn a_database_of_which_no_records_were_made_says_why(rt: HostRuntime) {
    let rt = &rt;
    let wanted = b"\
w.db: an SQLite database, as of wtmpdb
size            1024
doubtful        no records that are read: no table of wtmpdb
";
    let refused = Origin::Refused("no table of wtmpdb");
    let database = other(1024, Looks::Sqlite);
    expect_section(rt, rt.alloc(), "w.db", refused, &database, wanted);
}

/// Asserts which row a file has, after the header, an hour east of UTC.
fn expect_row(
    rt: &impl Abort,
    alloc: Global,
    file: FileColumns<'_>,
    origin: Origin<'_>,
    findings: &Findings,
    wanted: &[u8],
) {
    let utc = Clock::utc(alloc);
    let mut text = Vec::new(alloc);
    let mut appended = push_header(&mut text, file.path.is_some());
    if appended.is_ok() {
        appended = push_row(&mut text, &utc, file, origin, findings, 60);
    }
    drop(utc);
    expect(rt, appended, text, wanted);
}

#[test]
fn rows_have_a_field_for_each_column(rt: HostRuntime) {
    let rt = &rt;
    let alloc = rt.alloc();
    let named = FileColumns {
        number: 2,
        path: Some("a,\"b\x1B"),
    };
    let wanted = b"\
file,path,kind,size,records,empty,run_lvl,boot_time,new_time,old_time,init_process,login_process,user_process,dead_process,accounting,version_2,version_3,first,first_at,last,last_at,open,open_seconds,crashed,crashed_seconds,zeros,zeros_at_end,first_zeros,unknown,first_unknown,steps_back,greatest_step,rest,doubtful
2,\"a,\"\"b?\",login,3458,9,0,0,1,0,0,0,1,2,1,0,,,1000,1970-01-01T01:16:40+01:00,9600,1970-01-01T03:40:00+01:00,1,3600,2,90061,3,1,1,1,3,2,3600,2,1
";
    expect_row(rt, alloc, named, Origin::File, &night(), wanted);
    let numbered = FileColumns {
        number: 1,
        path: None,
    };
    let wanted = b"\
file,kind,size,records,empty,run_lvl,boot_time,new_time,old_time,init_process,login_process,user_process,dead_process,accounting,version_2,version_3,first,first_at,last,last_at,open,open_seconds,crashed,crashed_seconds,zeros,zeros_at_end,first_zeros,unknown,first_unknown,steps_back,greatest_step,rest,doubtful
1,process,64,1,,,,,,,,,,,0,1,0,1970-01-01T01:00:00+01:00,4294967295,2106-02-07T07:28:15+01:00,,,,,0,0,,0,,,,0,0
";
    expect_row(rt, alloc, numbered, Origin::File, &process(), wanted);
}

#[test]
fn rows_have_the_kind_of_a_database(rt: HostRuntime) {
    let rt = &rt;
    let alloc = rt.alloc();
    let file = FileColumns {
        number: 1,
        path: None,
    };
    let wanted = b"\
file,kind,size,records,empty,run_lvl,boot_time,new_time,old_time,init_process,login_process,user_process,dead_process,accounting,version_2,version_3,first,first_at,last,last_at,open,open_seconds,crashed,crashed_seconds,zeros,zeros_at_end,first_zeros,unknown,first_unknown,steps_back,greatest_step,rest,doubtful
1,wtmpdb,8192,1,0,0,0,0,0,0,0,1,0,0,,,1000,1970-01-01T01:16:40+01:00,1000,1970-01-01T01:16:40+01:00,1,0,0,0,0,0,,0,,0,0,0,0
";
    expect_row(rt, alloc, file, Origin::Database, &made(), wanted);
    let wanted = b"\
file,kind,size,records,empty,run_lvl,boot_time,new_time,old_time,init_process,login_process,user_process,dead_process,accounting,version_2,version_3,first,first_at,last,last_at,open,open_seconds,crashed,crashed_seconds,zeros,zeros_at_end,first_zeros,unknown,first_unknown,steps_back,greatest_step,rest,doubtful
1,sqlite,1024,,,,,,,,,,,,,,,,,,,,,,,,,,,,,,1
";
    let refused = Origin::Refused("no table of wtmpdb");
    let database = other(1024, Looks::Sqlite);
    expect_row(rt, alloc, file, refused, &database, wanted);
}

#[test]
fn a_text_is_printed_whole(rt: HostRuntime) {
    let rt = &rt;
    let mut out = Kept::new(rt.alloc());
    if print_text(b"f: empty\n", &mut out).is_ok() {
        assert_eq!(rt; out.bytes(), b"f: empty\n".as_slice());
    }
    drop(out);
}
