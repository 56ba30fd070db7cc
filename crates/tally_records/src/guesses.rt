//! Guesses at where names stand in a table.
ghost use Rattle.std.specs.Prelude.{◌≡◌, ◌%◌, ℕ, OnErr, OnOk, get_or, length, slice_set};

use std::alloc::{AllocError, Global};
use std::marker::Model;

/// How many marks there are.
const MARKS: usize = 1024;

/// A place for each mark, as where the names of that mark were last found in their table. Most records are of a name
/// that was there before, and a wrong guess costs a search alone.
#[derive(Drop)]
pub struct Guesses {
    places: Vec<usize>,
}

impl Model for Guesses {
    ghost use Rattle.std.specs.Prelude.{List, ℕ};

    ghost Value = { List ℕ };

    ghost view = { λ guesses. guesses.places.items };
}

impl Guesses {
    /// No guess yet, and no room for one.
    pub fn new(alloc: Global) -> Guesses
        ensures { length result ≡ 0 }
    {
        Guesses {
            places: Vec::new(alloc),
        }
    }

    /// Makes room for all marks, and keeps the place of each, which is 0 until it is set. Where memory is
    /// refused, all is as it was.
    pub fn make_room(&mut self) -> Result<(), AllocError>
        ensures room { OnOk result (length self.new ≡ 1024) }
        ensures places { (mark : ℕ) → get_or self.new (mark % 1024) 0 ≡ get_or self.old (mark % 1024) 0 }
        ensures refused { OnErr result (self.new ≡ self.old) }
    {
        self.places.resize(MARKS, 0)
    }

    /// The place of a mark.
    pub fn get(&self, mark: usize) -> usize
        ensures { result ≡ get_or self.now (mark % 1024) 0 }
    {
        match self.places.get(mark % MARKS) {
            Some(place) => *place,
            None => 0,
        }
    }

    /// Sets the place of a mark, where there is room.
    pub fn set(&mut self, mark: usize, place: usize)
        ensures { self.new ≡ slice_set self.old (mark % 1024) place }
    {
        if let Some(guess) = self.places.get_mut(mark % MARKS) {
            *guess = place;
        }
    }
}
