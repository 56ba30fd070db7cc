//! The lines of ac(1).
ghost use Rattle.std.specs.Prelude.{◌≡◌, ◌≤◌, ◌↔◌, All, IfSome, None, length};
ghost use Rattle.tally_answers.specs.Answers.{HasDay};
ghost use Rattle.tally_sessions.specs.Days.{IsDay};

use super::{is_printed, name};
use std::alloc::Global;
use std::process::Abort;
use tally_answers::ConnectRow;
use tally_print::{Kept, print_connect};

/// Asserts that the rows and the total print this text.
/// Where a growth is refused, the second try prints it.
fn expect_connect(rt: &impl Abort, alloc: Global, rows: &[ConnectRow], total: u64, text: &[u8])
    requires { All HasDay rows.now }
{
    for _ in 0..2 {
        let mut out = Kept::new(alloc);
        let printed = print_connect(alloc, rows, total, &mut out);
        if is_printed(rt, printed, out, text) {
            return;
        }
    }
    panic!(rt; "refused twice");
}

fn of_day(day: i32, seconds: u64) -> ConnectRow
    ensures { HasDay result ↔ IsDay day }
{
    ConnectRow {
        day: Some(day),
        user: None,
        seconds,
    }
}

fn of_user(user: &[u8], seconds: u64) -> ConnectRow
    requires { length user.now ≤ 32 }
    ensures { result.day ≡ None }
{
    ConnectRow {
        day: None,
        user: Some(name(user)),
        seconds,
    }
}

#[test]
fn each_row_is_rounded_by_itself(rt: HostRuntime) {
    let rt = &rt;
    let alloc = rt.alloc();
    let rows = [of_user(b"ann", 600), of_user(b"bob", 600)];
    let text = b"\
ann                          0.17
bob                          0.17
total                        0.33
";
    expect_connect(rt, alloc, &rows, 1200, text);
}

#[test]
fn the_total_of_nothing_is_printed(rt: HostRuntime) {
    let rt = &rt;
    let alloc = rt.alloc();
    expect_connect(rt, alloc, &[], 0, b"total                        0.00\n");
}

#[test]
fn the_longest_stay_has_a_million_hours(rt: HostRuntime) {
    let rt = &rt;
    let alloc = rt.alloc();
    let text = b"total                  1193046.47\n";
    expect_connect(rt, alloc, &[], 4_294_967_295, text);
}

#[test]
fn days_have_their_civil_dates(rt: HostRuntime) {
    let rt = &rt;
    let alloc = rt.alloc();
    let rows = [
        of_day(-24857, 0),
        of_day(-1, 3600),
        of_day(11016, 0),
        of_day(24856, 0),
    ];
    let text = b"\
1901-12-12 total                        0.00
1969-12-31 total                        1.00
2000-02-29 total                        0.00
2038-01-20 total                        0.00
total                        1.00
";
    expect_connect(rt, alloc, &rows, 3600, text);
}

#[test]
fn a_day_and_user_has_both(rt: HostRuntime) {
    let rt = &rt;
    let alloc = rt.alloc();
    let mut ann = of_user(b"ann", 1800);
    ann.day = Some(1);
    let text = b"\
1970-01-02 ann                          0.50
total                        1.00
";
    expect_connect(rt, alloc, &[ann], 3600, text);
}
