//! The worked reports with their printed lines, and outputs that fail.
ghost use Rattle.std.specs.Prelude.{◌≤◌, length};

use std::alloc::Global;
use std::process::Abort;
use tally_clock::Clock;
use tally_print::{Kept, PrintFault};
use tally_records::{Comm, Name};
use tally_sessions::{End, Stay};
use tally_usage::{CommandRow, Usage};

mod all_attempts;
mod attempts;
mod connect;
mod files;
mod last;
mod outputs;
mod sections;
mod tables;
mod usage;

/// Whether all of the text was printed. Where a growth was refused, a first part of it was.
fn is_printed(rt: &impl Abort, printed: Result<(), PrintFault>, out: Kept, text: &[u8]) -> bool {
    let is_whole = printed.is_ok();
    if is_whole {
        assert_eq!(rt; out.bytes(), text);
    } else {
        assert!(rt; text.starts_with(out.bytes()));
    }
    drop(out);
    is_whole
}

/// Berlin's clock by the rule that holds since 1996.
fn berlin(rt: &impl Abort, alloc: Global) -> Clock {
    Clock::of_rule(alloc, b"CET-1CEST,M3.5.0,M10.5.0/3").expect(rt, "a clock")
}

/// A name of utmp(5): its bytes, and zeros after them.
fn name(text: &[u8]) -> Name
    requires { length text.now ≤ 32 }
{
    let mut name = [0; 32];
    name[..text.len()].copy_from_slice(text);
    name
}

/// What a command used: its name, and zeros after it.
fn command(text: &[u8], forked: bool, other: bool, usage: Usage) -> CommandRow
    requires { length text.now ≤ 17 }
{
    let mut name: Comm = [0; 17];
    name[..text.len()].copy_from_slice(text);
    CommandRow {
        name,
        forked,
        other,
        usage,
    }
}

/// The stay of a login, whose clock nothing moved.
fn login(user: &[u8], start: i32, end: End, end_time: i32, seconds: u64) -> Stay
    requires { length user.now ≤ 32 }
{
    Stay {
        host: 0,
        is_boot: false,
        user: name(user),
        line: name(b"tty1"),
        remote: [0; 256],
        start,
        begin: start,
        end,
        end_time,
        length: seconds,
    }
}

/// The running time after a boot.
fn boot(start: i32, end: End, end_time: i32, seconds: u64) -> Stay {
    Stay {
        is_boot: true,
        line: name(b"~"),
        ..login(b"reboot", start, end, end_time, seconds)
    }
}
