//! Login records of a made file.

use crate::numbers::Numbers;
use crate::text::{hex, put, put_name};
use std::alloc::{AllocError, Global};
use tally_records::LOGIN_SIZE;

/// A login record of utmp(5).
type Record = [u8; LOGIN_SIZE];

/// How many lines a host has, and how many logins are made ready for each.
const LINES: u64 = 128;

const LOGINS_OF_A_LINE: u64 = 8;

/// When the records begin.
const FIRST: i32 = 1_000_000_000;

const BOOT: u8 = 2;

const NEW_TIME: u8 = 3;

const OLD_TIME: u8 = 4;

const LOGIN: u8 = 7;

const LOGOUT: u8 = 8;

/// What the logins of a file are like.
#[derive(Clone, Copy)]
pub(crate) struct Manner {
    /// The most seconds between two records.
    pub(crate) step: u64,
    /// Whether each login is of a user of its own, with texts that fill their fields.
    pub(crate) is_full: bool,
}

/// A host's login records, made one after another.
#[derive(Drop)]
pub(crate) struct Logins {
    manner: Manner,
    numbers: Numbers,
    time: i32,
    made: u64,
    logins: Vec<Record>,
    logouts: Vec<Record>,
    is_open: Vec<bool>,
}

fn event(kind: u8, line: &[u8], user: &[u8]) -> Record {
    let mut record = [0; LOGIN_SIZE];
    record[0] = kind;
    put(&mut record[8..40], line);
    put(&mut record[44..76], user);
    record
}

fn put_user(record: &mut Record, manner: Manner, number: u64) {
    if manner.is_full {
        put(&mut record[44..76], &[b'u'; 32]);
    } else {
        put_name(&mut record[44..76], b"ann", number);
    }
}

fn put_remote(record: &mut Record, manner: Manner, number: u64) {
    if manner.is_full {
        put(&mut record[76..332], &[b'h'; 256]);
    } else {
        put_name(&mut record[76..332], b"client.example.org.", number);
    }
}

/// A login on a line, by one of 200 users, from one of as many hosts.
fn login(numbers: &mut Numbers, manner: Manner, line: u64) -> Record {
    let mut record = [0; LOGIN_SIZE];
    record[0] = LOGIN;
    put_name(&mut record[8..40], b"pts/", line);
    let (user, remote) = (numbers.below(200), numbers.below(200));
    put_user(&mut record, manner, user);
    put_remote(&mut record, manner, remote);
    record
}

fn logout(line: u64) -> Record {
    let mut record = [0; LOGIN_SIZE];
    record[0] = LOGOUT;
    put_name(&mut record[8..40], b"pts/", line);
    record
}

impl Logins {
    pub(crate) fn new(alloc: Global, seed: u64, manner: Manner) -> Result<Logins, AllocError> {
        let mut numbers = Numbers::new(seed);
        let mut logins = Vec::new(alloc);
        let mut logouts = Vec::new(alloc);
        let mut is_open = Vec::new(alloc);
        for line in 0..LINES {
            for _ in 0..LOGINS_OF_A_LINE {
                logins.push(login(&mut numbers, manner, line))?;
            }
            logouts.push(logout(line))?;
            is_open.push(false)?;
        }
        Ok(Logins {
            manner,
            numbers,
            time: FIRST,
            made: 0,
            logins,
            logouts,
            is_open,
        })
    }

    /// A login on a line that is free, or the logout of one that is not.
    fn on_line(&mut self, number: u64) -> Record {
        let line = (number % LINES) as usize;
        let Some(is_open) = self.is_open.get_mut(line) else {
            return [0; LOGIN_SIZE];
        };
        *is_open = !*is_open;
        if !*is_open {
            return self.logouts.get(line).copied().unwrap_or([0; LOGIN_SIZE]);
        }
        let choice = (number % (LINES * LOGINS_OF_A_LINE)) as usize;
        let mut record = self.logins.get(choice).copied().unwrap_or([0; LOGIN_SIZE]);
        if self.manner.is_full {
            record[48..56].copy_from_slice(&hex(self.made));
        }
        record
    }

    /// The seconds of what was made.
    pub(crate) fn span(&self) -> u32 {
        self.time.saturating_sub(FIRST).unsigned_abs()
    }

    /// The next record.
    pub(crate) fn next(&mut self) -> Record {
        let number = self.numbers.next();
        self.made = self.made.wrapping_add(1);
        let step = (number >> 40) % self.manner.step.max(1);
        self.time = self.time.saturating_add((step % 1_000_000) as i32);
        let mut record = match (number >> 20) % 4096 {
            0 => {
                self.is_open.fill(false);
                event(BOOT, b"~", b"reboot")
            }
            1 => event(OLD_TIME, b"|", b"date"),
            2 => event(NEW_TIME, b"{", b"date"),
            _ => self.on_line(number),
        };
        record[340..344].copy_from_slice(&self.time.to_le_bytes());
        record
    }
}
