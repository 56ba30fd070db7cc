//! Laws of the rows of connect time and of what is chosen, which hold of every list of entries.
ghost use Rattle.tally_sessions.specs.ChoiceLaws.{NothingIsLeftOut, PeriodsAddUp, UsersAddUp};
ghost use Rattle.tally_sessions.specs.Laws.{HostsAreAlike, RowsAddUp, TimesHaveRows};

/// Each user, each day, and each user on a day with connect time has a row, on every clock, and whatever sessions are
/// chosen.
pub fn times_have_rows()
    ensures { TimesHaveRows }
{}

/// The rows of the users add up to the total, whatever sessions are chosen.
pub fn user_rows_add_up()
    ensures { RowsAddUp }
{}

/// The seconds up to a moment and those from it on are the seconds of the whole period: of all users and of each, on all days and
/// on each.
pub fn periods_add_up()
    ensures { PeriodsAddUp }
{}

/// The seconds of some users and those of the others are the seconds of all of them.
pub fn users_add_up()
    ensures { UsersAddUp }
{}

/// A choice that names nothing leaves out no stay and no second, and all such choices have the same sessions.
pub fn every_session_is_chosen()
    ensures { NothingIsLeftOut }
{}

/// The sessions of all hosts are those of each host's records by themselves, as a count of these has them.
pub fn hosts_are_alike()
    ensures { HostsAreAlike }
{}
