//! Counts and sums over process records.
ghost use Rattle.std.specs.Prelude.{◌≡◌, [], ◌∷◌};
ghost use Rattle.tally_records.specs.ProcRecord.{IsBounded};
ghost use Rattle.tally_usage.specs.inside.Usage.{Fits};
ghost use Rattle.tally_usage.specs.Usage.{no_usage, plus, usage_of};

use tally_records::ProcRecord;

/// The most records that sums count, 2^28. The processor time of each is below 2^35 ticks, so that of all is below
/// 2^63 and fits 64 bits.
pub const SUMS_LIMIT: usize = 268_435_456;

/// What a list of process records used.
#[derive(Clone, Copy, Debug, PartialEq, Eq)]
pub struct Usage {
    /// How many records.
    pub count: u64,
    /// Elapsed ticks.
    pub real: u128,
    /// User ticks plus system ticks.
    pub cpu: u64,
    /// Characters transferred.
    pub io: u64,
    /// The sum of each record's memory times its cpu.
    pub mem_cpu: u128,
}

impl Usage {
    /// What no record used.
    pub(crate) fn none() -> Usage
        ensures { result ≡ no_usage }
    {
        Usage {
            count: 0,
            real: 0,
            cpu: 0,
            io: 0,
            mem_cpu: 0,
        }
    }

    /// What one record used.
    #[tactic(auto, unfolding(crate::specs::Usage::usage_of))]
    pub(crate) fn of(process: &ProcRecord) -> Usage
        requires { IsBounded process.now }
        ensures { result ≡ usage_of (process.now ∷ []) }
    {
        let cpu = process.user_ticks + process.system_ticks;
        Usage {
            count: 1,
            real: u128::from(process.real_ticks),
            cpu,
            io: process.io,
            mem_cpu: u128::from(process.mem) * u128::from(cpu),
        }
    }

    /// Adds what other records used.
    pub(crate) fn add(&mut self, more: &Usage)
        requires { Fits (plus self.old more.now) }
        ensures { self.new ≡ plus self.old more.now }
    {
        self.count += more.count;
        self.real += more.real;
        self.cpu += more.cpu;
        self.io += more.io;
        self.mem_cpu += more.mem_cpu;
    }
}
