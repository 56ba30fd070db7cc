//! The moments that words say.
ghost use Rattle.std.specs.Prelude.{◌≡◌};
ghost use Rattle.tally_line.specs.Times.{is_now};

use tally_moments::Moment;

/// The moments that the options of a command line say, which the clock of the run makes seconds.
#[derive(Clone, Copy, Debug, PartialEq, Eq)]
pub struct Times {
    /// `--until`: up to when stays count that nothing has ended.
    pub until: Option<Moment>,
    /// `--from`, or the beginning of `--in`.
    pub from: Option<Moment>,
    /// `--to`, or the end of `--in`.
    pub to: Option<Moment>,
    /// `--at`, beside which there is none of these two.
    pub at: Option<Moment>,
}

fn is_now(moment: Option<Moment>) -> bool
    ensures { result ≡ is_now moment }
{
    match moment {
        Some(Moment::Now) => true,
        _ => false,
    }
}

impl Times {
    ghost use Rattle.tally_line.specs.Times.{ask_now};

    /// Whether one of them is when the words are read, so that the machine has to be asked for its time.
    pub fn ask_now(&self) -> bool
        ensures { result ≡ ask_now self.now }
    {
        is_now(self.until) || is_now(self.from) || is_now(self.to) || is_now(self.at)
    }
}
