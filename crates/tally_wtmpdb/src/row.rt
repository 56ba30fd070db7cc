//! What a row of the table says.
ghost use Rattle.std.specs.Prelude.{◌≡◌, slice_index_or};
ghost use Rattle.tally_wtmpdb.specs.Rows as Spec;

use crate::fault::RowFault;
use sqlite_value::row::Row;
use sqlite_value::value::ValueRef;

/// The places of the columns.
const TYPE: usize = 2;

const USER: usize = 3;

const LOGIN: usize = 4;

const LOGOUT: usize = 5;

const TTY: usize = 6;

const REMOTE: usize = 7;

/// Type, of a boot and of a user's session.
const BOOT: i64 = 1;

const SESSION: i64 = 3;

/// The bytes that `ut_user` of utmp(5) has.
const USER_SIZE: usize = 32;

const MICROS: i64 = 1_000_000;

fn int_at(row: &Row, place: usize) -> Option<i64>
    ensures { result ≡ Spec.int_at place row.now }
{
    match row.get(place) {
        ValueRef::Int(n) => Some(n),
        _ => None,
    }
}

/// The bytes of the text at a place, none of another value.
pub(crate) fn text_at(row: &Row, place: usize) -> &[u8]
    ensures { result.now ≡ Spec.text_at place row.now }
{
    match row.get(place) {
        ValueRef::Text(text) => text,
        _ => &[],
    }
}

/// The row's number, ID.
pub(crate) fn id(row: &Row) -> i64
    ensures { result ≡ Spec.id_of row.now }
{
    int_at(row, 0).unwrap_or(0)
}

pub(crate) fn user(row: &Row) -> &[u8]
    ensures { result.now ≡ Spec.user_of row.now }
{
    text_at(row, USER)
}

pub(crate) fn tty(row: &Row) -> &[u8]
    ensures { result.now ≡ Spec.tty_of row.now }
{
    text_at(row, TTY)
}

pub(crate) fn remote(row: &Row) -> &[u8]
    ensures { result.now ≡ Spec.remote_of row.now }
{
    text_at(row, REMOTE)
}

/// The row at a place, or one without columns.
pub(crate) fn row_at<'a>(rows: &'a [Row], none: &'a Row, place: usize) -> &'a Row
    ensures { result.now ≡ slice_index_or rows.now place none.now }
{
    match rows.get(place) {
        Some(row) => row,
        None => none,
    }
}

/// Login, in microseconds since 1970.
pub(crate) fn login(row: &Row) -> i64
    ensures { result ≡ Spec.login_of row.now }
{
    int_at(row, LOGIN).unwrap_or(0)
}

/// Logout, at Login or after it.
pub(crate) fn logout(row: &Row) -> Option<i64>
    ensures { result ≡ Spec.logout_of row.now }
{
    let logout = int_at(row, LOGOUT)?;
    Some(login(row).max(logout))
}

fn is_blank(text: &[u8]) -> bool
    ensures { result ≡ Spec.is_blank text.now }
{
    match text.first() {
        Some(byte) => *byte == 0,
        None => true,
    }
}

fn is_of(kind: i64, row: &Row) -> bool
    ensures { result ≡ Spec.is_of kind row.now }
{
    int_at(row, TYPE).unwrap_or(0) == kind && int_at(row, LOGIN).is_some()
}

pub(crate) fn is_session(row: &Row) -> bool
    ensures { result ≡ Spec.is_session row.now }
{
    is_of(SESSION, row) && !is_blank(user(row)) && !is_blank(tty(row))
}

pub(crate) fn is_boot(row: &Row) -> bool
    ensures { result ≡ Spec.is_boot row.now }
{
    is_of(BOOT, row)
}

/// The whole second that microseconds are in, where a login record can hold it.
pub(crate) fn second(micros: i64) -> Option<i32>
    ensures { result ≡ Spec.second_of micros }
{
    let second = micros.div_euclid(MICROS);
    if second < -2_147_483_648 || second > 2_147_483_647 {
        return None;
    }
    Some(second as i32)
}

fn has_second(micros: Option<i64>) -> bool
    ensures { result ≡ Spec.has_second micros }
{
    match micros {
        Some(micros) => second(micros).is_some(),
        None => true,
    }
}

fn has_short_user(row: &Row) -> bool
    ensures { result ≡ Spec.has_short_user row.now }
{
    !is_session(row) || user(row).len() <= USER_SIZE
}

fn has_seconds(row: &Row) -> bool
    ensures { result ≡ Spec.has_seconds row.now }
{
    has_second(int_at(row, LOGIN)) && has_second(int_at(row, LOGOUT))
}

/// Why a row that should have login records has none.
fn fault(row: &Row) -> Option<RowFault>
    ensures { result ≡ Spec.fault_of row.now }
{
    if !is_session(row) && !is_boot(row) {
        return None;
    }
    let id = id(row);
    if !has_short_user(row) {
        return Some(RowFault::LongUser { id });
    }
    if !has_seconds(row) {
        return Some(RowFault::Time { id });
    }
    None
}

/// The first row's fault.
pub(crate) fn first_fault(rows: &[Row]) -> Option<RowFault>
    ensures { result ≡ Spec.first_fault rows.now }
{
    for row in rows {
        let found = fault(row);
        if found.is_some() {
            return found;
        }
    }
    None
}
