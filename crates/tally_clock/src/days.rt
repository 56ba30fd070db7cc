//! What holds of the days of every clock.
ghost use Rattle.tally_clock.specs.Days.{DaysAddUp, DaysHoldTheirTimes, DaysOfOneOffset, PartsAddUp};

/// The seconds of a stay over the days are its length, whatever the clock; those of two parts of it
/// are those of the whole; and where the clock stays, a day is from its start up to the next.
pub fn days_add_up()
    ensures parts { PartsAddUp }
    ensures days { DaysAddUp }
    ensures one_offset { DaysOfOneOffset }
{}

/// At one offset the day of a second, rounded down, is the one day that has begun and is not over then.
pub fn days_hold_their_times()
    ensures { DaysHoldTheirTimes }
{}
