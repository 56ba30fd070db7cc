//! Desks, inputs and gates for tests.
ghost use Rattle.std.specs.Prelude.{◌≡◌, None, false, vec_len};
ghost use Rattle.std.specs.List.{All};

use std::alloc::Global;
use std::hash::RandomState;
use std::io::{ErrorKind, Read};
use std::process::Abort;
use std::random::RandomSource;
use std::sync::atomic::{AtomicU64, Ordering};
use std::{io, thread};
use tally_book::{Book, Room};
use tally_clock::Clock;
use tally_desk::{Desk, Gate, Input, InputFault, Pass};
use tally_records::Batch;

/// Keys of a book's tables.
pub(crate) fn new_keys<R: Abort + RandomSource>(rt: &R) -> RandomState {
    RandomState::new(rt).expect(rt, "random bytes")
}

/// A desk of one caller, and its pass.
pub(crate) fn opened<R: Abort + RandomSource>(rt: &R, alloc: Global) -> (Desk, Pass)
    ensures { result.1.desk ≡ result.0.id }
{
    opened_with_room(rt, alloc, Room::usual())
}

/// The same with so much room.
pub(crate) fn opened_with_room<R: Abort + RandomSource>(
    rt: &R,
    alloc: Global,
    room: Room,
) -> (Desk, Pass)
    ensures { result.1.desk ≡ result.0.id }
{
    let clock = Clock::utc(alloc);
    let opened = Desk::open_with_room(alloc, new_keys(rt), clock, room, 1);
    let (desk, mut passes) = opened.expect(rt, "a desk of one caller");
    let Some(pass) = passes.pop() else {
        unreachable!()
    };
    drop(passes);
    (desk, pass)
}

/// The passes of a desk of two callers.
pub(crate) fn both(desk: &Desk, mut passes: Vec<Pass>) -> (Pass, Pass)
    requires two { vec_len passes ≡ 2 }
    requires desk { All (λ p. p.desk ≡ desk.now.id) passes.items }
    ensures first { result.0.desk ≡ desk.now.id }
    ensures second { result.1.desk ≡ desk.now.id }
{
    let Some(second) = passes.pop() else {
        unreachable!()
    };
    let Some(first) = passes.pop() else {
        unreachable!()
    };
    drop(passes);
    (first, second)
}

/// A desk of two callers, and their passes.
pub(crate) fn pair<R: Abort + RandomSource>(rt: &R, alloc: Global) -> (Desk, Pass, Pass)
    ensures first { result.1.desk ≡ result.0.id }
    ensures second { result.2.desk ≡ result.0.id }
{
    let (desk, passes) = Desk::open(alloc, new_keys(rt), 2).expect(rt, "a desk of two callers");
    let (first, second) = both(&desk, passes);
    (desk, first, second)
}

/// Lets a desk of two callers go.
pub(crate) fn leave(desk: Desk, first: Pass, second: Pass) {
    drop(first);
    drop(second);
    drop(desk);
}

/// Passes of a desk, and another of them.
pub(crate) fn with_another(
    rt: &impl Abort,
    desk: &Desk,
    mut passes: Vec<Pass>,
    another: Pass,
) -> Vec<Pass>
    requires passes { All (λ p. p.desk ≡ desk.now.id) passes.items }
    requires another { another.desk ≡ desk.now.id }
    ensures { All (λ p. p.desk ≡ desk.now.id) result.items }
{
    passes.push(another).expect(rt, "memory");
    passes
}

/// The book of a desk, where all its passes are handed in.
pub(crate) fn book_of(rt: &impl Abort, desk: Desk, passes: Vec<Pass>) -> Book
    requires { All (λ p. p.desk ≡ desk.id) passes.items }
{
    desk.close(passes).ok().expect(rt, "all passes are there")
}

/// The book of a desk of one caller.
pub(crate) fn closed(rt: &impl Abort, alloc: Global, desk: Desk, pass: Pass) -> Book
    requires { pass.desk ≡ desk.id }
{
    let passes = Vec::from_array(alloc, [pass]).expect(rt, "memory");
    book_of(rt, desk, passes)
}

/// How many login records, process records and calls a book has.
pub(crate) fn counted(book: &Book) -> [usize; 3] {
    [book.logins().len(), book.procs().len(), book.calls().len()]
}

/// The same of the book of a desk of one caller.
pub(crate) fn closed_with(rt: &impl Abort, alloc: Global, desk: Desk, pass: Pass) -> [usize; 3]
    requires { pass.desk ≡ desk.id }
{
    let book = closed(rt, alloc, desk, pass);
    let counts = counted(&book);
    drop(book);
    counts
}

/// Process records of version 2.
pub(crate) fn twos(rt: &impl Abort, alloc: Global, count: usize) -> Vec<u8> {
    vec![in alloc; 2u8; count].expect(rt, "memory")
}

/// A reader of twos that gives at most `step` bytes a time, `left` in all, and may then fail.
/// Its first reads are interrupted.
#[derive(Drop)]
pub(crate) struct Trickle {
    pub(crate) step: usize,
    pub(crate) left: usize,
    pub(crate) fails: bool,
    pub(crate) interrupts: usize,
}

impl Read for Trickle {
    fn read(&mut self, buf: &mut [u8]) -> io::Result<usize> {
        if self.interrupts > 0 {
            self.interrupts -= 1;
            return Err(io::Error::from(ErrorKind::Interrupted));
        }
        let count = self.left.min(self.step).min(buf.len());
        if count == 0 && self.fails {
            return Err(io::Error::from(ErrorKind::Other));
        }
        buf[..count].fill(2);
        self.left -= count;
        Ok(count)
    }
}

/// Such a reader that is never interrupted and does not fail.
pub(crate) fn steady(step: usize, left: usize) -> Trickle {
    Trickle {
        step,
        left,
        fails: false,
        interrupts: 0,
    }
}

/// A reader of twos, `left` in all, which fails when it is read after it has said that it is at its end.
#[derive(Drop)]
pub(crate) struct Once {
    pub(crate) left: usize,
    pub(crate) ended: bool,
}

impl Read for Once {
    fn read(&mut self, buf: &mut [u8]) -> io::Result<usize> {
        if self.ended {
            return Err(io::Error::from(ErrorKind::Other));
        }
        let count = self.left.min(buf.len());
        self.ended = count == 0 && !buf.is_empty();
        buf[..count].fill(2);
        self.left -= count;
        Ok(count)
    }
}

/// An input of zeros that never ends.
#[derive(Drop)]
pub(crate) struct Zeros;

impl Input for Zeros {
    ghost to_come = { λ _. None };

    ghost can_fail = { λ _. false };

    ghost failures = { λ _. 0 };

    fn take(&mut self, buf: &mut [u8]) -> Result<usize, InputFault> {
        buf.fill(0);
        Ok(buf.len())
    }
}

/// A gate that keeps the turns that it has seen, as digits from 1.
#[derive(Drop)]
pub(crate) struct Turns {
    pub(crate) digits: AtomicU64,
}

impl Gate for Turns {
    fn before(&self, _caller: u32, turn: u32) {
        let before = self.digits.load(Ordering::SeqCst);
        let digits = before.wrapping_mul(10).wrapping_add(u64::from(turn) + 1);
        self.digits.store(digits, Ordering::SeqCst);
    }
}

/// The most turns of the processor that a caller gives up while it waits for the others.
const PATIENCE: u32 = 1_000_000;

/// A gate that lets so many callers go on together, each time that all have come to it. A caller
/// that has waited too long goes on alone, and is counted.
#[derive(Drop)]
pub(crate) struct Meeting {
    callers: u64,
    arrived: AtomicU64,
    late: AtomicU64,
}

impl Meeting {
    pub(crate) fn of(callers: u64) -> Meeting {
        Meeting {
            callers,
            arrived: AtomicU64::new(0),
            late: AtomicU64::new(0),
        }
    }

    /// How often a caller went on alone.
    pub(crate) fn late(&self) -> u64 {
        self.late.load(Ordering::SeqCst)
    }
}

impl Gate for Meeting {
    fn before(&self, _caller: u32, _turn: u32) {
        let before = self.arrived.fetch_add(1, Ordering::SeqCst);
        for _ in 0..PATIENCE {
            let together = self.arrived.load(Ordering::SeqCst) / self.callers.max(1);
            if together > before / self.callers.max(1) {
                return;
            }
            thread::yield_now();
        }
        self.late.fetch_add(1, Ordering::SeqCst);
    }
}

fn put(bytes: &mut [u8], at: usize, text: &[u8]) {
    for (to, from) in bytes.iter_mut().skip(at).zip(text) {
        *to = *from;
    }
}

fn login_record(kind: u8, user: &str, time: i32) -> [u8; 384] {
    let mut bytes = [0; 384];
    bytes[0] = kind;
    put(&mut bytes, 8, b"tty1");
    put(&mut bytes, 44, user.as_bytes());
    put(&mut bytes, 340, &time.to_le_bytes());
    bytes
}

fn make_record(flag: u8, numbers: &[u8; 10]) -> [u8; 64] {
    let mut bytes = [0; 64];
    bytes[0] = flag;
    bytes[1] = 2;
    put(&mut bytes, 12, numbers);
    put(&mut bytes, 36, b"make");
    bytes
}

/// No process records.
pub(crate) fn nothing(rt: &impl Abort, alloc: Global) -> Batch {
    Batch::procs(alloc, &[]).expect(rt, "no records")
}

/// A session of one hour.
pub(crate) fn hour(rt: &impl Abort, alloc: Global) -> Batch {
    let records = [
        login_record(7, "ann", 1_000_000),
        login_record(8, "", 1_003_600),
    ];
    Batch::logins(alloc, records.as_flattened()).expect(rt, "login records")
}

/// One run of make that executed, and two that only forked.
pub(crate) fn makes(rt: &impl Abort, alloc: Global) -> Batch {
    let executed = make_record(0, &[120, 0, 60, 0, 0x58, 2, 0xf4, 1, 0xe8, 3]);
    let forked = make_record(1, &[60, 0, 0, 0, 60, 0, 200, 0, 3, 0]);
    let records = [executed, forked, forked];
    Batch::procs(alloc, records.as_flattened()).expect(rt, "process records")
}
