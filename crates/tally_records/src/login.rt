ghost use Rattle.std.specs.Prelude.{◌≡◌, ◌≤◌, ◌+◌, MatchResult, OnOk, Ok, Err};
ghost use Rattle.tally_records.specs.LoginRecord.{login_fields, login_result, login_type};
ghost use Rattle.tally_records.specs.Text.{i32_at};

mod decode;
mod events;
pub(crate) mod failed;
mod head;
pub(crate) mod key;
pub(crate) mod logins;
mod texts;
mod words;

use crate::fault::RecordFault;
use crate::field::{Name, Remote, number_at, text};
use byteorder::{ByteOrder, LittleEndian};

/// The size of a login record in bytes.
pub const LOGIN_SIZE: usize = 384;

/// A record of a wtmp file, as utmp(5) has it on Linux x86-64.
#[derive(Clone, Copy, Debug, PartialEq, Eq)]
pub struct LoginRecord {
    /// `ut_type`, 0 to 9.
    pub kind: u8,
    pub line: Name,
    pub user: Name,
    pub remote: Remote,
    /// Seconds since 1970-01-01 00:00:00 UTC.
    pub time: i32,
}

/// What a login record means.
#[derive(Clone, Copy, Debug, PartialEq, Eq)]
pub enum Event {
    /// A user logs in on a line.
    Login,
    /// The session on a line ends.
    Logout,
    /// The host starts.
    Boot,
    /// The host is shut down.
    Down,
    /// The clock is about to be changed; the record's time is the old one.
    OldTime,
    /// The clock was changed; the record's time is the new one.
    NewTime,
    /// Nothing about sessions.
    Nothing,
}

fn type_of(bytes: &[u8; LOGIN_SIZE]) -> i16
    ensures { result ≡ login_type bytes.now }
{
    LittleEndian::read_i16(bytes)
}

fn time_at(bytes: &[u8; LOGIN_SIZE], offset: usize) -> i32
    requires { offset + 4 ≤ 384 }
    ensures { result ≡ i32_at offset bytes.now }
{
    number_at(bytes, offset).cast_signed()
}

/// The kind of a record, or why the bytes are none.
fn kind_of(bytes: &[u8; LOGIN_SIZE]) -> Result<u8, RecordFault>
    ensures exact { MatchResult result
        (λ _. login_result bytes.now ≡ Ok (login_fields bytes.now))
        (λ fault. login_result bytes.now ≡ Err fault) }
    ensures kind { OnOk result (result ≡ Ok (login_fields bytes.now).kind) }
{
    let kind = type_of(bytes);
    if kind < 0 || kind > 9 {
        return Err(RecordFault::LoginType(kind));
    }
    Ok(kind as u8)
}

/// Reads a login record by the layout of utmp(5).
pub fn read_login(bytes: &[u8; LOGIN_SIZE]) -> Result<LoginRecord, RecordFault>
    ensures { result ≡ login_result bytes.now }
{
    let kind = kind_of(bytes)?;
    Ok(LoginRecord {
        kind,
        line: text(&bytes[8..40]),
        user: text(&bytes[44..76]),
        remote: text(&bytes[76..332]),
        time: time_at(bytes, 340),
    })
}
