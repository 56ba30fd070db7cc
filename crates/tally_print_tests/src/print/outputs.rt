//! Outputs that take little at a time, fail, or tell nothing.
ghost use Rattle.std.specs.Prelude.{◌≡◌, true};

use super::{boot, login};
use std::alloc::Global;
use std::io::{self, ErrorKind, Write};
use std::process::Abort;
use tally_clock::Clock;
use tally_print::{Output, OutputFault, PrintFault, Writing, print_last};
use tally_sessions::{End, Stay};

/// An output over memory that takes at most so many bytes at a time, and so many in all.
#[derive(Drop)]
struct Narrow {
    bytes: Vec<u8>,
    step: usize,
    room: usize,
    failures: u64,
}

impl Output for Narrow {
    ghost state = { λ narrow. record { tells = true; written = narrow.bytes.items; failures = narrow.failures } };

    fn put(&mut self, bytes: &[u8]) -> Result<usize, OutputFault> {
        let count = self.room.min(self.step).min(bytes.len());
        if count < 1 && !bytes.is_empty() {
            self.failures += 1;
            return Err(OutputFault);
        }
        match self.bytes.extend_from_slice(&bytes[..count]) {
            Ok(()) => {
                self.room -= count;
                Ok(count)
            }
            Err(_) => {
                self.failures += 1;
                Err(OutputFault)
            }
        }
    }

    fn finish(&mut self) -> Result<(), OutputFault> {
        Ok(())
    }
}

const BOOTS: &[u8] = b"\
reboot   system boot                   1970-01-01 00:18:20   still running
ann      tty1                          1970-01-01 00:03:20 - down                (00:13)
reboot   system boot                   1970-01-01 00:01:40 - down                (00:15)

wtmp begins 1970-01-01 00:01:40
";

fn boots() -> [Stay; 3] {
    [
        boot(1100, End::Still, 1100, 0),
        login(b"ann", 200, End::Down, 1000, 800),
        boot(100, End::Down, 1000, 900),
    ]
}

/// Asserts what printing answers over an output that takes `step` bytes at a time and `room` in all, and what it took.
fn expect_narrow(
    rt: &impl Abort,
    alloc: Global,
    step: usize,
    room: usize,
    wanted: Result<(), PrintFault>,
) {
    let mut out = Narrow {
        bytes: Vec::new(alloc),
        step,
        room,
        failures: 0,
    };
    let utc = Clock::utc(alloc);
    let printed = print_last(alloc, &utc, &boots(), Some(100), 0, &mut out, None);
    drop(utc);
    let taken = BOOTS.split_at(room.min(BOOTS.len())).0;
    let is_taken = out.bytes.as_slice() == taken;
    let is_counted = out.failures == u64::from(printed.is_err());
    drop(out);
    let is_answered = printed == wanted;
    assert!(rt; is_taken & is_counted & is_answered, "at {room}");
}

#[test]
fn a_failed_write_leaves_the_bytes_before_it(rt: HostRuntime) {
    let rt = &rt;
    let alloc = rt.alloc();
    for room in 0..BOOTS.len() {
        expect_narrow(rt, alloc, 1, room, Err(PrintFault::Write));
    }
}

#[test]
fn an_output_of_one_byte_at_a_time_takes_all(rt: HostRuntime) {
    expect_narrow(&rt, rt.alloc(), 1, BOOTS.len(), Ok(()));
}

#[test]
fn a_write_fails_in_mid_line(rt: HostRuntime) {
    expect_narrow(&rt, rt.alloc(), 1000, 100, Err(PrintFault::Write));
}

/// A writer that takes all and fails where it is to be flushed.
#[derive(Drop)]
struct Unflushed;

impl Write for Unflushed {
    fn write(&mut self, bytes: &[u8]) -> io::Result<usize> {
        Ok(bytes.len())
    }

    fn flush(&mut self) -> io::Result<()> {
        Err(io::Error::from(ErrorKind::Other))
    }
}

#[test]
fn the_writer_is_flushed_at_the_end(rt: HostRuntime) {
    let mut out = Writing::new(Unflushed);
    assert!(rt; out.put(b"total") == Ok(5));
    assert!(rt; out.finish() == Err(OutputFault));
}

#[test]
fn any_writer_takes_the_text(rt: HostRuntime) {
    let rt = &rt;
    let alloc = rt.alloc();
    let mut held = Vec::new(alloc);
    let mut out = Writing::new(&mut held);
    let utc = Clock::utc(alloc);
    print_last(alloc, &utc, &boots(), Some(100), 0, &mut out, None).expect(rt, "the text");
    drop(utc);
    out.finish().expect(rt, "a flush");
    drop(out);
    assert!(rt; held.as_slice() == BOOTS);
    drop(held);
}
