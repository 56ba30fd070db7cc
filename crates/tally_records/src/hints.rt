//! Hints at where names stand in a table, four times as many as `Guesses` and half as large each.
ghost use Rattle.std.specs.Prelude.{◌≡◌, ◌%◌, ◌^◌, ℕ, OnErr, OnOk, get_or, length, slice_set};

use std::alloc::{AllocError, Global};
use std::marker::Model;

/// How many marks there are.
const MARKS: usize = 4096;

/// A place for each mark, as where the names of that mark were last found in their table. A table of some hundred
/// names has few that share a mark. A wrong hint costs a search alone.
#[derive(Drop)]
pub struct Hints {
    places: Vec<u32>,
}

impl Model for Hints {
    ghost use Rattle.std.specs.Prelude.{List, ℕ};

    ghost Value = { List ℕ };

    ghost view = { λ hints. hints.places.items };
}

impl Hints {
    /// No hint yet, and no room for one.
    pub fn new(alloc: Global) -> Hints
        ensures { length result ≡ 0 }
    {
        Hints {
            places: Vec::new(alloc),
        }
    }

    /// Makes room for all marks, and keeps the place of each, which is 0 until it is set. Where memory is
    /// refused, all is as it was.
    pub fn make_room(&mut self) -> Result<(), AllocError>
        ensures room { OnOk result (length self.new ≡ 4096) }
        ensures places { (mark : ℕ) → get_or self.new (mark % 4096) 0 ≡ get_or self.old (mark % 4096) 0 }
        ensures refused { OnErr result (self.new ≡ self.old) }
    {
        self.places.resize(MARKS, 0)
    }

    /// The place of a mark.
    pub fn get(&self, mark: usize) -> usize
        ensures { result ≡ get_or self.now (mark % 4096) 0 }
    {
        match self.places.get(mark % MARKS) {
            Some(place) => *place as usize,
            None => 0,
        }
    }

    /// Sets the place of a mark, where there is room. Of a place the lowest 32 bits are kept, so that the hint at
    /// a place past them is wrong.
    pub fn set(&mut self, mark: usize, place: usize)
        ensures { self.new ≡ slice_set self.old (mark % 4096) (place % 2 ^ 32) }
    {
        if let Some(hint) = self.places.get_mut(mark % MARKS) {
            *hint = (place % 0x1_0000_0000) as u32;
        }
    }
}
