//! The end of a stay, or that there is none, in 12 bytes.
ghost use Rattle.std.specs.Prelude.{◌≡◌, Some, None, is_some};

use crate::entry::End;
use crate::track::ending::Ending;
use std::marker::Model;

/// An end of a stay, if there is one. Without one the times are 0.
#[derive(Clone, Copy)]
pub(crate) struct KeptEnding {
    begin: i32,
    end_time: i32,
    end: Option<End>,
}

impl Model for KeptEnding {
    ghost use Rattle.std.specs.Prelude.{Option};
    ghost use Rattle.tally_sessions.specs.declared.track.ending.Ending.{Ending as Ended};

    ghost Value = { Option Ended };

    ghost use Rattle.tally_sessions.specs.inside.Endings.{ending_in, AreKept, begin_in, end_in, end_time_in, begin_back, end_back, end_time_back};

    ghost view = { λ kept. ending_in kept.end kept.begin kept.end_time };

    ghost invariant = { λ kept. AreKept kept.end kept.begin kept.end_time };

    ghost inverse = { λ ending. record { begin = begin_in ending; end_time = end_time_in ending; end = end_in ending } };

    ghost inverse_ok = { λ kept h i. record { begin = begin_back kept.end kept.begin kept.end_time h i; end_time = end_time_back kept.end kept.begin kept.end_time h i; end = end_back kept.end kept.begin kept.end_time i } };
}

impl KeptEnding {
    /// No end.
    pub(crate) fn none() -> KeptEnding
        ensures { result ≡ None }
    {
        KeptEnding {
            begin: 0,
            end_time: 0,
            end: None,
        }
    }

    /// This end.
    pub(crate) fn of(ending: Ending) -> KeptEnding
        ensures { result ≡ Some ending }
    {
        KeptEnding {
            begin: ending.begin,
            end_time: ending.end_time,
            end: Some(ending.end),
        }
    }

    /// Whether there is one.
    pub(crate) fn is_some(&self) -> bool
        ensures { result ≡ is_some self.now }
    {
        self.end.is_some()
    }

    /// The end, if there is one.
    pub(crate) fn get(&self) -> Option<Ending>
        ensures { result ≡ self.now }
    {
        match self.end {
            Some(end) => Some(Ending {
                begin: self.begin,
                end,
                end_time: self.end_time,
            }),
            None => None,
        }
    }
}
