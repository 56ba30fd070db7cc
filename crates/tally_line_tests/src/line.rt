//! What the words of a command line ask for.

mod answers;
mod attempts;
mod check;
mod files;
mod moments;
mod paths;
mod zones;

use crate::line::answers::{Wanted, expect_all, expect_each};
use tally_line::Report;
use tally_usage::Order;

#[test]
fn ac_sums_by_day_and_by_user(rt: HostRuntime) {
    let rows = [
        ("ac f", Wanted::Connect(false, false)),
        ("ac -d f", Wanted::Connect(true, false)),
        ("ac f -p", Wanted::Connect(false, true)),
        ("ac -dp f", Wanted::Connect(true, true)),
    ];
    expect_each(&rt, &rows);
}

#[test]
fn a_report_may_be_csv(rt: HostRuntime) {
    let lines = "\
last --csv f
ac f --csv
ac -dp --csv f
sa --csv f
sa -m f --csv";
    expect_all(&rt, lines, Wanted::Csv);
}

#[test]
fn last_may_be_limited(rt: HostRuntime) {
    let rows = [
        ("last f", Wanted::Last(None)),
        ("last -n 1 f", Wanted::Last(Some(1))),
        ("last f -n 2", Wanted::Last(Some(2))),
        ("last -n 16777216 f", Wanted::Last(Some(16_777_216))),
    ];
    expect_each(&rt, &rows);
}

#[test]
fn sa_orders_and_reverses_commands(rt: HostRuntime) {
    let rows = [
        ("sa f", Wanted::Commands(Order::Cpu, false, false)),
        ("sa -a f", Wanted::Commands(Order::Cpu, false, true)),
        ("sa -n f", Wanted::Commands(Order::Calls, false, false)),
        ("sa -r f", Wanted::Commands(Order::Cpu, true, false)),
        ("sa -anr f", Wanted::Commands(Order::Calls, true, true)),
    ];
    expect_each(&rt, &rows);
}

#[test]
fn sa_sums_by_user(rt: HostRuntime) {
    let rows = [
        ("sa -m f", Wanted::Users(Order::Cpu, false)),
        ("sa f -m -a", Wanted::Users(Order::Cpu, false)),
        ("sa -mnr f", Wanted::Users(Order::Calls, true)),
    ];
    expect_each(&rt, &rows);
}

#[test]
fn feeders_askers_and_the_offset_are_set(rt: HostRuntime) {
    let rows = [
        ("all w:f", Wanted::All(4, 0, 0)),
        ("all --feeders 1 w:f", Wanted::All(1, 0, 0)),
        ("all --askers 64 --feeders=64 w:f", Wanted::All(64, 64, 0)),
        ("all p:f --east 1439", Wanted::All(4, 0, 1439)),
        ("all --west=1439 p:f", Wanted::All(4, 0, -1439)),
        ("all --west=90 --east 60 p:f", Wanted::All(4, 0, -30)),
    ];
    expect_each(&rt, &rows);
}

#[test]
fn records_are_taken_by_the_million(rt: HostRuntime) {
    let rows = [
        ("last f", Wanted::Millions(1)),
        ("last --millions 16 f", Wanted::Millions(16)),
        ("lastb f --millions=2", Wanted::Millions(2)),
        ("ac --millions 1 -dp f", Wanted::Millions(1)),
        ("ac --feeders 3 f", Wanted::Millions(1)),
        ("all --millions 4 --feeders 2 w:f", Wanted::Millions(4)),
        ("all p:f", Wanted::Millions(1)),
        ("sa f", Wanted::Millions(1)),
        ("sa -m f", Wanted::Millions(1)),
    ];
    expect_each(&rt, &rows);
}

#[test]
fn other_millions_are_refused(rt: HostRuntime) {
    let lines = "\
last --millions 0 f
last --millions 17 f
lastb --millions many f
ac --millions -1 f
ac --millions=-16 f
ac --millions 1.5 f
ac --millions 1048576 f
last --millions
last --millions 1 --millions 2 f
all --millions 32 w:f
sa --millions 2 f
sa --millions 1 f
check --millions 2 f";
    expect_all(&rt, lines, Wanted::Usage);
}

#[test]
fn other_words_are_refused(rt: HostRuntime) {
    let lines = "\
x

all
all --askers 1
all -f w:f
ac -f
sa -f f
ac --east 1440 f
ac --east -1 f
--east 1 ac f
last -n 0 f
last -n 16777217 f
last -n x f
last --feeders 0 f
last --feeders 65 f
ac --feeders 1 --feeders 2 f
ac --askers 1 f
all --askers 65 w:f
sa -d f
sa -a -a f
all --csv w:f
ac --csv --csv f
ac --csv=1 f";
    expect_all(&rt, lines, Wanted::Usage);
}

#[test]
fn help_is_an_answer(rt: HostRuntime) {
    let lines = "\
--help
-h
ac -h
all --help f
lastb -h
check -h
help
help ac
help lastb
--version
-V";
    expect_all(&rt, lines, Wanted::Help);
}
