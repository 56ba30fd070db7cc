//! When something begins or ends, and in which order that comes.
ghost use Rattle.std.specs.Prelude.{◌≡◌, ◌++◌, ◌∷◌, OnOk, IfOk};
ghost use Rattle.tally_wtmpdb.specs.Moments as Spec;
ghost use Rattle.tally_wtmpdb.specs.Rows.{login_of, logout_of};

use crate::row::{is_boot, is_session, login, logout};
use sqlite_value::row::Row;
use std::alloc::{AllocError, Global};
use std::cmp::Ordering;

/// What happens at a moment. Of one microsecond they come in this order.
#[derive(Clone, Copy, Debug, PartialEq, Eq)]
pub enum What {
    /// A session ends.
    Logout,
    /// The host is shut down.
    Down,
    /// The host boots.
    Boot,
    /// A session begins.
    Login,
    /// A session ends at the microsecond at which it began.
    LogoutAtOnce,
}

/// When something happens.
#[derive(Clone, Copy, Debug, PartialEq, Eq)]
pub struct Moment {
    /// Microseconds since 1970.
    pub micros: i64,
    pub what: What,
    /// The place of the row that says so, from 0.
    pub place: usize,
}

fn rank(what: What) -> u8
    ensures { result ≡ Spec.rank what }
{
    match what {
        What::Logout => 0,
        What::Down => 1,
        What::Boot => 2,
        What::Login => 3,
        What::LogoutAtOnce => 4,
    }
}

fn compare(a: &Moment, b: &Moment) -> Ordering
    ensures { result ≡ Spec.moment_cmp a.now b.now }
{
    let by_what = rank(a.what).cmp(&rank(b.what));
    let by_place = a.place.cmp(&b.place);
    a.micros.cmp(&b.micros).then(by_what.then(by_place))
}

fn logout_kind(row: &Row, logout: i64) -> What
    ensures { result ≡ Spec.logout_kind row.now logout }
{
    if login(row) < logout {
        What::Logout
    } else {
        What::LogoutAtOnce
    }
}

fn push_session(all: &mut Vec<Moment>, place: usize, row: &Row) -> Result<(), AllocError>
    ensures { OnOk result (all.new.items ≡ all.old.items ++ (Spec.moment place What.Login (login_of row.now) ∷ Spec.session_end place row.now (logout_of row.now))) }
{
    all.push(Moment {
        micros: login(row),
        what: What::Login,
        place,
    })?;
    if let Some(micros) = logout(row) {
        all.push(Moment {
            micros,
            what: logout_kind(row, micros),
            place,
        })?;
    }
    Ok(())
}

fn push_boot(all: &mut Vec<Moment>, place: usize, row: &Row) -> Result<(), AllocError>
    ensures { OnOk result (all.new.items ≡ all.old.items ++ (Spec.moment place What.Boot (login_of row.now) ∷ Spec.boot_end place (logout_of row.now))) }
{
    all.push(Moment {
        micros: login(row),
        what: What::Boot,
        place,
    })?;
    if let Some(micros) = logout(row) {
        all.push(Moment {
            micros,
            what: What::Down,
            place,
        })?;
    }
    Ok(())
}

/// Adds the moments of the row at a place.
fn push_moments(all: &mut Vec<Moment>, place: usize, row: &Row) -> Result<(), AllocError>
    ensures { OnOk result (all.new.items ≡ all.old.items ++ Spec.moments_of place row.now) }
{
    if is_session(row) {
        push_session(all, place, row)
    } else if is_boot(row) {
        push_boot(all, place, row)
    } else {
        Ok(())
    }
}

/// The moments of all rows, in the table's order.
fn moments(alloc: Global, rows: &[Row]) -> Result<Vec<Moment>, AllocError>
    ensures { IfOk result (λ all. all.items ≡ Spec.moments rows.now) }
{
    let mut all = Vec::new(alloc);
    for (place, row) in rows.iter().enumerate() {
        push_moments(&mut all, place, row)?;
    }
    Ok(all)
}

/// The moments of all rows, in their order.
pub(crate) fn ordered_moments(alloc: Global, rows: &[Row]) -> Result<Vec<Moment>, AllocError>
    ensures { IfOk result (λ all. Spec.AreInOrder (Spec.moments rows.now) all.items) }
{
    let mut all = moments(alloc, rows)?;
    all.sort_unstable_by(|a, b| compare(a, b));
    Ok(all)
}
