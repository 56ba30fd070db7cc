//! Tables as CSV.
ghost use Rattle.std.specs.Prelude.{◌≡◌, ◌≤◌, ◌↔◌, All, length};
ghost use Rattle.tally_answers.specs.Answers.{HasDay, HasDays};
ghost use Rattle.tally_sessions.specs.Days.{IsDay, IsOffset};

use super::{berlin, boot, command, is_printed, login, name};
use std::alloc::Global;
use std::process::Abort;
use tally_answers::{Answer, ConnectRow};
use tally_clock::Clock;
use tally_print::{Kept, Table, print_table};
use tally_records::{List, Period};
use tally_sessions::{End, Stay};
use tally_usage::{UidRow, Usage};

/// 30 calls, with sums that differ.
const USAGE: Usage = Usage {
    count: 30,
    real: 6001,
    cpu: 180,
    io: 1000,
    mem_cpu: 90_000,
};

fn of_day(day: i32, user: &[u8], seconds: u64) -> ConnectRow
    requires { length user.now ≤ 32 }
    ensures { HasDay result ↔ IsDay day }
{
    ConnectRow {
        day: Some(day),
        user: Some(name(user)),
        seconds,
    }
}

fn list_of<T: Copy>(rt: &impl Abort, alloc: Global, rows: &[T]) -> List<T>
    ensures { result ≡ rows.now }
{
    let rows = Vec::from_slice(alloc, rows).expect(rt, "memory");
    List::from_vec(alloc, rows).expect(rt, "memory")
}

/// Asserts that the answers print this table, or a first part of it where a growth is refused.
fn expect_table(
    rt: &impl Abort,
    alloc: Global,
    clock: &Clock,
    table: Table,
    answers: &[Answer],
    offset: i32,
    text: &[u8],
)
    requires days { All HasDays answers.now }
    requires offset { IsOffset offset }
{
    let mut out = Kept::new(alloc);
    let printed = print_table(alloc, clock, table, answers, offset, &mut out);
    is_printed(rt, printed, out, text);
}

/// The same of one answer in UTC.
fn expect_answer(rt: &impl Abort, alloc: Global, table: Table, answer: Answer, text: &[u8])
    requires { HasDays answer }
{
    let utc = Clock::utc(alloc);
    let answers = [answer];
    expect_table(rt, alloc, &utc, table, &answers, 0, text);
    drop(answers);
    drop(utc);
}

/// The same of connect times.
fn expect_connect(
    rt: &impl Abort,
    alloc: Global,
    by_day: bool,
    by_user: bool,
    rows: &[ConnectRow],
    text: &[u8],
)
    requires { All HasDay rows.now }
{
    let rows = list_of(rt, alloc, rows);
    let answer = Answer::Connect { rows, total: 600 };
    let table = Table::Connect { by_day, by_user };
    expect_answer(rt, alloc, table, answer, text);
}

fn of_file(rt: &impl Abort, alloc: Global, stay: Stay) -> Answer
    ensures { HasDays result }
{
    let rows = list_of(rt, alloc, &[stay]);
    Answer::Last { rows, first: None }
}

#[test]
fn hostile_names_are_quoted(rt: HostRuntime) {
    let rt = &rt;
    let alloc = rt.alloc();
    let rows = [
        of_day(0, b"a,b", 1),
        of_day(1, b"say \"hi\"", 86_400),
        of_day(-1, b"x\ny\xFF", 4_294_967_295),
        of_day(2, b"\"", 0),
    ];
    let text = b"\
day,user,seconds
1970-01-01,\"a,b\",1
1970-01-02,\"say \"\"hi\"\"\",86400
1969-12-31,x?y?,4294967295
1970-01-03,\"\"\"\",0
";
    expect_connect(rt, alloc, true, true, &rows, text);
}

#[test]
fn an_empty_report_is_its_header_and_a_total_stands_alone(rt: HostRuntime) {
    let rt = &rt;
    let alloc = rt.alloc();
    expect_connect(rt, alloc, true, false, &[], b"day,seconds\n");
    expect_connect(rt, alloc, false, true, &[], b"user,seconds\n");
    expect_connect(rt, alloc, false, false, &[], b"seconds\n600\n");
}

#[test]
fn stays_of_two_files_stand_under_one_header(rt: HostRuntime) {
    let rt = &rt;
    let alloc = rt.alloc();
    let first = of_file(rt, alloc, boot(1100, End::Still, 1100, 0));
    let ann = login(b"ann", -200, End::Down, 1000, 1200);
    let answers = [first, of_file(rt, alloc, ann)];
    let text = b"\
file,user,line,remote,start,start_at,begin,end,end_time,end_at,seconds
1,reboot,,,1100,1969-12-31T18:48:20-05:30,1100,still,1100,1969-12-31T18:48:20-05:30,0
1,ann,tty1,,-200,1969-12-31T18:26:40-05:30,-200,down,1000,1969-12-31T18:46:40-05:30,1200
";
    let utc = Clock::utc(alloc);
    let table = Table::Stays { within: None };
    expect_table(rt, alloc, &utc, table, &answers, -330, text);
    drop(utc);
    drop(answers);
}

#[test]
fn the_offset_is_that_of_the_second(rt: HostRuntime) {
    let rt = &rt;
    let alloc = rt.alloc();
    let ann = login(b"ann", 1_774_745_999, End::Logout, 1_774_746_000, 1);
    let answers = [of_file(rt, alloc, ann)];
    let text = b"\
file,user,line,remote,start,start_at,begin,end,end_time,end_at,seconds
1,ann,tty1,,1774745999,2026-03-29T01:29:59+00:30,1774745999,logout,1774746000,2026-03-29T02:30:00+01:30,1
";
    let berlin = berlin(rt, alloc);
    let table = Table::Stays { within: None };
    expect_table(rt, alloc, &berlin, table, &answers, -30, text);
    drop(berlin);
    drop(answers);
}

/// A stay of twenty minutes, of which fifteen are in the period, one before it, and one that goes back.
#[test]
fn seconds_in_a_period_stand_last(rt: HostRuntime) {
    let rt = &rt;
    let alloc = rt.alloc();
    let answers = [
        of_file(rt, alloc, login(b"ann", 100, End::Logout, 1300, 1200)),
        of_file(rt, alloc, login(b"bob", 0, End::Next, 400, 400)),
        of_file(rt, alloc, login(b"eve", 900, End::Crash, 600, 0)),
    ];
    let text = b"\
file,user,line,remote,start,start_at,begin,end,end_time,end_at,seconds,within
1,ann,tty1,,100,1970-01-01T00:01:40+00:00,100,logout,1300,1970-01-01T00:21:40+00:00,1200,900
1,bob,tty1,,0,1970-01-01T00:00:00+00:00,0,next,400,1970-01-01T00:06:40+00:00,400,0
1,eve,tty1,,900,1970-01-01T00:15:00+00:00,900,crash,600,1970-01-01T00:10:00+00:00,0,0
";
    let utc = Clock::utc(alloc);
    let period = Period {
        from: Some(400),
        to: Some(5000),
    };
    let table = Table::Stays {
        within: Some(period),
    };
    expect_table(rt, alloc, &utc, table, &answers, 0, text);
    drop(utc);
    drop(answers);
}

#[test]
fn usage_has_ticks_and_sums(rt: HostRuntime) {
    let rt = &rt;
    let alloc = rt.alloc();
    let rows = [
        command(b"a\"b", true, false, USAGE),
        command(b"***other", false, true, USAGE),
    ];
    let rows = list_of(rt, alloc, &rows);
    let answer = Answer::Commands { rows, total: USAGE };
    let text = b"\
command,forked,other,calls,real_ticks,cpu_ticks,io,mem_cpu
\"a\"\"b\",1,0,30,6001,180,1000,90000
***other,0,1,30,6001,180,1000,90000
";
    expect_answer(rt, alloc, Table::Commands, answer, text);
}

#[test]
fn usage_of_users_has_their_numbers(rt: HostRuntime) {
    let rt = &rt;
    let alloc = rt.alloc();
    let row = UidRow {
        uid: 4_294_967_295,
        usage: USAGE,
    };
    let rows = list_of(rt, alloc, &[row]);
    let answer = Answer::Users { rows, total: USAGE };
    let text = b"\
uid,calls,real_ticks,cpu_ticks,io,mem_cpu
4294967295,30,6001,180,1000,90000
";
    expect_answer(rt, alloc, Table::Users, answer, text);
}
