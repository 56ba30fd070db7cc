//! The dates of moments, most of which are that of the moment before.
ghost use Rattle.std.specs.Prelude.{◌≡◌};
ghost use Rattle.tally_print.specs.Text.{date};
ghost use Rattle.tally_sessions.specs.Days.{IsDay};

use crate::date::date_digits;

/// A day and its date in digits. How many rows of a clock had begun then is a first guess at the next moment.
#[derive(Drop)]
pub(crate) struct PrintedDay {
    day: i32,
    digits: [u8; 10],
    pub(crate) begun: usize,
    ghost is_date: { digits ≡ date day },
}

impl PrintedDay {
    /// 1970-01-01.
    pub(crate) fn first() -> PrintedDay {
        PrintedDay {
            day: 0,
            digits: date_digits(0),
            begun: 0,
        }
    }

    /// Goes on to another day.
    #[cold]
    #[inline(never)]
    fn turn_to(&mut self, day: i32)
        requires { IsDay day }
        ensures { self.new.day ≡ day }
    {
        self.digits = date_digits(day);
        self.day = day;
    }

    /// The date of a day in digits, which are made only where the day before was another.
    pub(crate) fn date_of(&mut self, day: i32) -> [u8; 10]
        requires { IsDay day }
        ensures { result ≡ date day }
    {
        if self.day != day {
            self.turn_to(day);
        }
        self.digits
    }
}

/// The days of the starts and of the ends that were printed last.
#[derive(Drop)]
pub(crate) struct PrintedDays {
    pub(crate) start: PrintedDay,
    pub(crate) end: PrintedDay,
}

impl PrintedDays {
    pub(crate) fn first() -> PrintedDays {
        PrintedDays {
            start: PrintedDay::first(),
            end: PrintedDay::first(),
        }
    }
}
