//! The rows of users on days, from a table with a cell for each.
ghost use Rattle.std.specs.Prelude.{◌≡◌, ◌≤◌, ◌<◌, ◌*◌, ◌^◌, ℕ, ℤ, All, List, IfOk, length};
ghost use Rattle.std.specs.Cmp.Lexicographic.{slice_cmp};
ghost use Rattle.std.specs.List.Sorted.{IsStrictlySortedBy};
ghost use Rattle.std.specs.Ordering.{nat_cmp};
ghost use Rattle.tally_sessions.specs.Days as days;
ghost use Rattle.tally_sessions.specs.Rows.{day_user_times};
ghost use Rattle.tally_sessions.specs.declared.sums.Session.{Session as Counted};
ghost use Rattle.tally_sessions.specs.inside.Tables.{HasSeconds};

use crate::connect::day_table::day_at;
use crate::connect::name_key::NameKey;
use crate::times::DayUserTime;
use std::alloc::Global;
use tally_records::Memory;

/// The rows of the cells that are above 0, by day and then by name bytes.
pub(crate) fn rows_of_cells(
    alloc: Global,
    first: i32,
    users: &[NameKey],
    cells: &[u64],
) -> Result<Vec<DayUserTime>, Memory>
    requires first_in { days.IsDay first }
    requires some { 0 < length users.now }
    requires ascending { IsStrictlySortedBy (slice_cmp nat_cmp) users.now }
    requires few { length cells.now ≤ 2 ^ 17 * length users.now }
    ensures rows { IfOk result (λ rows. (clock : ℤ → ℤ) (sessions : List Counted) → HasSeconds clock first users.now cells.now sessions → rows.items ≡ day_user_times clock sessions) }
    ensures days { IfOk result (λ rows. (clock : ℤ → ℤ) (sessions : List Counted) → HasSeconds clock first users.now cells.now sessions → All (λ row. days.IsDay row.day) rows.items) }
{
    let mut rows = Vec::new(alloc);
    let mut place = 0;
    let mut rank = 0;
    for seconds in cells {
        if *seconds > 0 {
            rows.push(DayUserTime {
                day: day_at(first, place),
                user: users[rank].name(),
                seconds: *seconds,
            })?;
        }
        rank += 1;
        if rank == users.len() {
            rank = 0;
            place += 1;
        }
    }
    Ok(rows)
}
