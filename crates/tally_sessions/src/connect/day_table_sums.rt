//! A table of the seconds of users on days, filled with those of sessions.
ghost use Rattle.std.specs.Prelude.{◌≡◌, ◌≤◌, ◌<◌, ◌*◌, ◌^◌, ℕ, All, IfOk, IfSome, IsTrue, get_or, length};
ghost use Rattle.std.specs.Cmp.Lexicographic.{slice_cmp};
ghost use Rattle.std.specs.List.Sorted.{IsStrictlySortedBy};
ghost use Rattle.std.specs.Ordering.{nat_cmp};
ghost use Rattle.tally_sessions.specs.Days as days;
ghost use Rattle.tally_sessions.specs.Days.{local};
ghost use Rattle.tally_sessions.specs.Rows.{day_user_times};
ghost use Rattle.tally_sessions.specs.Sums.{sessions_of};
ghost use Rattle.tally_sessions.specs.inside.Tables.{HasSeconds};

use crate::connect::day_table::{Column, add_session, rank_by};
use crate::connect::day_table_rows::rows_of_cells;
use crate::connect::day_user_rows::day_user_rows;
use crate::connect::name_key::{KEY_MARKS, NameKey};
use crate::connect::source::SessionSource;
use crate::sessions::{ENTRY_LIMIT, Sessions};
use crate::times::DayUserTime;
use std::alloc::Global;
use tally_clock::Clock;
use tally_records::{LoginChoice, Memory};

/// Adds the sessions of a source to the cells of a table with a user at each rank. It gives up where the table
/// has no cell for some second of a session.
fn add_all<S: SessionSource>(
    cells: &mut [u64],
    users: &[NameKey],
    first: i32,
    clock: &Clock,
    offset: i32,
    source: &mut S,
) -> bool
    requires offset_in { days.IsOffset offset }
    requires first_in { days.IsDay first }
    requires narrow { length users.now < 2 ^ 40 }
    requires ascending { IsStrictlySortedBy (slice_cmp nat_cmp) users.now }
    requires empty { (i : ℕ) → get_or cells.old i 0 ≡ 0 }
    requires few { length (S.ahead source.old) ≤ ENTRY_LIMIT }
    ensures { IsTrue result → HasSeconds (local clock.now offset) first users.now cells.new (S.ahead source.old) }
{
    let mut hints = [0u16; KEY_MARKS];
    while let Some(session) = source.next_session() {
        let user = NameKey::of(&session.user);
        let Some(rank) = rank_by(users, &user, &mut hints[user.mark()]) else {
            return false;
        };
        let column = Column {
            first,
            width: users.len(),
            rank,
        };
        if !add_session(cells, column, clock, offset, &session) {
            return false;
        }
    }
    true
}

/// The rows of the users on days that have any time, from a table of so many cells: one for each user on each
/// day from the first on. There are none where it has no cell for some second of a session.
pub(crate) fn rows_from_table<S: SessionSource>(
    alloc: Global,
    users: &[NameKey],
    first: i32,
    count: usize,
    clock: &Clock,
    offset: i32,
    source: &mut S,
) -> Result<Option<Vec<DayUserTime>>, Memory>
    requires offset_in { days.IsOffset offset }
    requires first_in { days.IsDay first }
    requires some { 0 < length users.now }
    requires narrow { length users.now < 2 ^ 40 }
    requires ascending { IsStrictlySortedBy (slice_cmp nat_cmp) users.now }
    requires small { count ≤ 2 ^ 17 * length users.now }
    requires few { length (S.ahead source.old) ≤ ENTRY_LIMIT }
    ensures rows { IfOk result (λ found. IfSome found (λ rows. rows.items ≡ day_user_times (local clock.now offset) (S.ahead source.old))) }
    ensures days { IfOk result (λ found. IfSome found (λ rows. All (λ row. days.IsDay row.day) rows.items)) }
{
    let mut cells = vec![in alloc; 0; count]?;
    let all = add_all(&mut cells, users, first, clock, offset, source);
    if !all {
        return Ok(None);
    }
    let rows = rows_of_cells(alloc, first, users, &cells)?;
    Ok(Some(rows))
}

impl Sessions {
    /// The rows of the users on days that have any time, from a table with a cell for each user on each
    /// day, where that is small enough.
    fn rows_by_table(
        &self,
        alloc: Global,
        clock: &Clock,
        offset: i32,
        choice: &LoginChoice,
        until: Option<i32>,
    ) -> Result<Option<Vec<DayUserTime>>, Memory>
        requires { days.IsOffset offset }
        ensures rows { IfOk result (λ found. IfSome found (λ rows. rows.items ≡ day_user_times (local clock.now offset) (sessions_of choice.now self.now.entries until))) }
        ensures days { IfOk result (λ found. IfSome found (λ rows. All (λ row. days.IsDay row.day) rows.items)) }
    {
        let extent = self.extent(clock, choice, until);
        let Some(table) = extent.table_days(self.host_users()) else {
            return Ok(None);
        };
        if extent.cells(table.count, self.most_users()).is_none() {
            return Ok(None);
        }
        let users = self.users_in_order(alloc)?;
        let Some(count) = extent.cells(table.count, users.len()) else {
            return Ok(None);
        };
        let mut walk = self.walk(choice, until);
        rows_from_table(alloc, &users, table.first, count, clock, offset, &mut walk)
    }

    /// The rows of the users on days that have any time, by day and then by name bytes.
    pub(crate) fn rows_by_day_user(
        &self,
        alloc: Global,
        clock: &Clock,
        offset: i32,
        choice: &LoginChoice,
        until: Option<i32>,
    ) -> Result<Vec<DayUserTime>, Memory>
        requires { days.IsOffset offset }
        ensures rows { IfOk result (λ rows. rows.items ≡ day_user_times (local clock.now offset) (sessions_of choice.now self.now.entries until)) }
        ensures days { IfOk result (λ rows. All (λ row. days.IsDay row.day) rows.items) }
    {
        match self.rows_by_table(alloc, clock, offset, choice, until)? {
            Some(rows) => Ok(rows),
            None => day_user_rows(alloc, clock, offset, &mut self.walk(choice, until)),
        }
    }
}
