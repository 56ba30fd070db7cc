//! Process records of a made file.

use crate::numbers::Numbers;
use crate::text::{hex, put_name};
use std::alloc::{AllocError, Global};
use tally_records::PROC_SIZE;

/// A process record of acct(5).
type Record = [u8; PROC_SIZE];

/// How many commands there are, of which the first are run most.
const COMMANDS: u64 = 400;

/// When the processes begin.
const FIRST: u32 = 1_000_000_000;

const USERS: u64 = 60;

/// The processes of a host, made one after another.
#[derive(Drop)]
pub(crate) struct Processes {
    numbers: Numbers,
    /// 2 or 3.
    version: u8,
    /// Whether each process is of a command and a user of its own.
    is_full: bool,
    begin: u32,
    made: u64,
    commands: Vec<Record>,
}

fn command(version: u8, number: u64) -> Record {
    let mut record = [0; PROC_SIZE];
    record[1] = version;
    let place = if version == 2 { 36 } else { 48 };
    put_name(&mut record[place..place + 16], b"cmd", number);
    record[0] = u8::from(number % 7 == 0);
    record
}

impl Processes {
    pub(crate) fn new(
        alloc: Global,
        seed: u64,
        version: u8,
        is_full: bool,
    ) -> Result<Processes, AllocError> {
        let mut commands = Vec::new(alloc);
        for number in 0..COMMANDS {
            commands.push(command(version, number))?;
        }
        Ok(Processes {
            numbers: Numbers::new(seed),
            version,
            is_full,
            begin: FIRST,
            made: 0,
            commands,
        })
    }

    /// Writes the numbers of a process in the fields of its version.
    fn put_numbers(&self, record: &mut Record, number: u64) {
        let uid = if self.is_full {
            (self.made % 0x1_0000_0000) as u32
        } else {
            1000 + (number >> 50) as u32 % USERS as u32
        };
        let times = ((number >> 8) & 0x03ff_07ff) as u32;
        let sizes = ((number >> 16) & 0x1fff_2fff) as u32;
        if self.version == 2 {
            record[8..12].copy_from_slice(&self.begin.to_le_bytes());
            record[12..16].copy_from_slice(&times.to_le_bytes());
            record[16..18].copy_from_slice(&(((number >> 30) % 65_536) as u16).to_le_bytes());
            record[18..22].copy_from_slice(&sizes.to_le_bytes());
            record[56..60].copy_from_slice(&uid.to_le_bytes());
        } else {
            let elapsed = 0x4000_0000 + ((number >> 30) & 0x0bff_ffff) as u32;
            record[8..12].copy_from_slice(&uid.to_le_bytes());
            record[24..28].copy_from_slice(&self.begin.to_le_bytes());
            record[28..32].copy_from_slice(&elapsed.to_le_bytes());
            record[32..36].copy_from_slice(&times.to_le_bytes());
            record[36..40].copy_from_slice(&sizes.to_le_bytes());
        }
    }

    /// The seconds of what was made.
    pub(crate) fn span(&self) -> u32 {
        self.begin.saturating_sub(FIRST)
    }

    /// The next record.
    pub(crate) fn next(&mut self) -> Record {
        let number = self.numbers.next();
        self.made = self.made.wrapping_add(1);
        self.begin = self.begin.saturating_add((number % 3) as u32);
        let (one, other) = ((number >> 32) % COMMANDS, (number >> 44) % COMMANDS);
        let place = one.min(other) as usize;
        let mut record = self.commands.get(place).copied().unwrap_or([0; PROC_SIZE]);
        self.put_numbers(&mut record, number);
        if self.is_full {
            let at = if self.version == 2 { 36 } else { 48 };
            record[at..at + 8].copy_from_slice(&hex(self.made));
        }
        record
    }
}
