//! How many records a book has room for.
ghost use Rattle.std.specs.Prelude.{◌≡◌, ◌<◌, ◌≤◌, ◌⊎◌, ◌*◌, MatchOption};
ghost use Rattle.tally_book.specs.Rooms.{batches_in};

use std::marker::Model;
use tally_records::BATCH_LIMIT;

/// How many records a million of a room is.
pub const MILLION: u32 = 1_048_576;

/// The most millions of a room.
pub const MOST_MILLIONS: u32 = 16;

/// How many records of each kind a book has room for: 1 to 16 millions, each of 1,048,576 records. A contract sees it as the number of
/// records.
#[derive(Clone, Copy, Debug, PartialEq, Eq)]
pub struct Room(u32);

impl Model for Room {
    ghost use Rattle.std.specs.Prelude.{ℕ};
    ghost use Rattle.tally_book.specs.Rooms.{IsRoom};

    ghost Value = { ℕ };

    ghost view = { λ room. room.0 };

    ghost invariant = { λ room. IsRoom room.0 };

    ghost inverse = { λ n. record { 0 = n } };
}

impl Room {
    /// The room of a book for which none is asked: one million.
    pub fn usual() -> Room
        ensures { result ≡ MILLION }
    {
        Room(MILLION)
    }

    /// So many millions. There is no room of none, nor of more than 16.
    pub fn of_millions(millions: u32) -> Option<Room>
        ensures { MatchOption result ((millions ≡ 0) ⊎ (MOST_MILLIONS < millions)) (λ room. room ≡ MILLION * millions) }
    {
        if millions == 0 || millions > MOST_MILLIONS {
            return None;
        }
        Some(Room(MILLION * millions))
    }

    /// How many records it is for.
    pub fn records(self) -> u32
        ensures value { result ≡ self }
        ensures few { result ≤ MILLION * MOST_MILLIONS }
    {
        self.0
    }

    /// How many full batches it is for, which fill it.
    pub fn batches(self) -> u32
        ensures value { result ≡ batches_in self }
        ensures whole { BATCH_LIMIT * result ≡ self }
    {
        self.0 / BATCH_LIMIT as u32
    }
}
