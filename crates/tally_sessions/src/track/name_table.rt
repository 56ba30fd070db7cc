//! A table by names, which first looks where a name of the same mark was last found.
ghost use Rattle.std.specs.Prelude.{◌≡◌, ◌≤◌, ◌<◌, ◌+◌, ◌^◌, ◌++◌, [], ◌∷◌, ℕ, List, Option, Some, None, true, IfSome, IfNone, OnOk, bytes_eq, if◌then◌else◌, length, nat_eq, slice_get, unwrap_or};
ghost use Rattle.std.specs.List.{IsDistinct};
ghost use Rattle.std.specs.Map.{keys_of, lookup};
ghost use Rattle.tally_records.specs.Choice.{is_name};
ghost use Rattle.tally_sessions.specs.inside.Chosen.{ArePlacesOf};
ghost use Rattle.tally_sessions.specs.inside.Numbers.{StandsAt};

use crate::track::ending::NO_USER;
use indexmap::IndexMap;
use std::alloc::Global;
use std::hash::RandomState;
use std::marker::Model;
use std::mem;
use tally_records::{Hints, Key, Memory, NAMED_LIMIT, Name, Names};

/// A number for each name, in the order in which the names came.
#[derive(Drop)]
pub(crate) struct NameTable {
    numbers: IndexMap<Key, u64, RandomState>,
    hints: Hints,
}

impl Model for NameTable {
    ghost use Rattle.indexmap.specs.IndexMap.{spare};
    ghost use Rattle.tally_sessions.specs.inside.Numbers.{Numbers};

    ghost Value = { Numbers };

    ghost view = { λ table. record { entries = table.numbers.entries; spare = spare table.numbers } };
}

/// A number that few names share: from their first 16 bytes, a number of 12 bits.
fn mark_of(name: &Key) -> usize
    ensures { result < 2 ^ 12 }
{
    let words = name.words();
    let mixed = (words[0] ^ words[1].rotate_left(32)).wrapping_mul(0x9E37_79B9_7F4A_7C15);
    (mixed >> 52) as usize
}

impl NameTable {
    /// No name has a number.
    pub(crate) fn new(alloc: Global, keys: RandomState) -> NameTable
        ensures { result.entries ≡ [] }
    {
        NameTable {
            numbers: IndexMap::with_hasher(alloc, keys),
            hints: Hints::new(alloc),
        }
    }

    /// Makes room for as many names more.
    pub(crate) fn reserve(&mut self, count: usize) -> Result<(), Memory>
        ensures entries { self.new.entries ≡ self.old.entries }
        ensures room { OnOk result (count ≤ self.new.spare) }
    {
        self.numbers.reserve(count)?;
        self.hints.make_room()?;
        Ok(())
    }

    /// How many names have a number.
    pub(crate) fn len(&self) -> usize
        ensures len { result ≡ length self.now.entries }
        ensures distinct { IsDistinct bytes_eq (keys_of self.now.entries) }
    {
        self.numbers.len()
    }

    /// The number of the name at a place.
    pub(crate) fn number_at(&self, place: usize) -> u64
        requires { place < length self.now.entries }
        ensures value { (e : List ℕ × ℕ) → slice_get self.now.entries place ≡ Some e → result ≡ e.1 }
        ensures found { (e : List ℕ × ℕ) → slice_get self.now.entries place ≡ Some e → lookup (bytes_eq e.0) self.now.entries ≡ Some result }
    {
        match self.numbers.get_index(place) {
            Some((_, number)) => *number,
            None => 0,
        }
    }

    /// The name at a place, and its number.
    pub(crate) fn pair_at(&self, place: usize) -> (Name, u64)
        requires { place < length self.now.entries }
        ensures { slice_get self.now.entries place ≡ Some result }
    {
        let (name, number) = self.numbers.get_index(place).unwrap();
        (name.name(), *number)
    }

    /// Whether a name stands at a place.
    fn is_at(&self, place: usize, name: &Key) -> bool
        ensures { result ≡ true → StandsAt self.now place name.now }
    {
        match self.numbers.get_index(place) {
            Some((own, _)) => own == name,
            None => false,
        }
    }

    /// Where the table finds a name, whatever its hint.
    fn search(&self, name: &Key) -> Option<usize>
        ensures found { IfSome result (λ i. StandsAt self.now i name.now) }
        ensures absent { IfNone result (lookup (bytes_eq name.now) self.now.entries ≡ None) }
    {
        self.numbers.get_index_of(name)
    }

    /// Where a name stands: where the names of its mark were last found, or where the table finds it.
    fn place_of(&self, name: &Key) -> Option<usize>
        ensures found { IfSome result (λ i. StandsAt self.now i name.now) }
        ensures absent { IfNone result (lookup (bytes_eq name.now) self.now.entries ≡ None) }
    {
        let hint = self.hints.get(mark_of(name));
        if self.is_at(hint, name) {
            return Some(hint);
        }
        self.search(name)
    }

    /// Where a name that a choice has stands; the place after all names where it stands nowhere, or where there is no name.
    pub(crate) fn place_among(&self, wanted: &Option<Name>) -> u32
        requires { length self.now.entries < NO_USER }
        ensures { (place : ℕ) (user : List ℕ) → StandsAt self.now place user → place < NO_USER → nat_eq result place ≡ is_name user wanted.now }
    {
        let count = self.len() as u32;
        match wanted {
            Some(name) => match self.place_of(&Key::of(name)) {
                Some(place) => place as u32,
                None => count,
            },
            None => count,
        }
    }

    /// Where the names that a choice has stand.
    pub(crate) fn places_among(&self, names: &Names) -> [u32; NAMED_LIMIT]
        requires { length self.now.entries < NO_USER }
        ensures { ArePlacesOf self.now names.now result }
    {
        let mut places = [NO_USER; NAMED_LIMIT];
        for k in 0..NAMED_LIMIT {
            places[k] = self.place_among(&names[k]);
        }
        places
    }

    /// The number of a name.
    pub(crate) fn get(&self, name: &Key) -> Option<u64>
        ensures { result ≡ lookup (bytes_eq name.now) self.now.entries }
    {
        let place = self.place_of(name)?;
        let (_, number) = self.numbers.as_slice().get_index(place)?;
        Some(*number)
    }

    /// Where a name stands. From now on it is first looked for there.
    pub(crate) fn find(&mut self, name: &Key) -> Option<usize>
        ensures found { IfSome result (λ i. StandsAt self.old i name.now) }
        ensures absent { IfNone result (lookup (bytes_eq name.now) self.old.entries ≡ None) }
        ensures same { self.new ≡ self.old }
    {
        let mark = mark_of(name);
        let hint = self.hints.get(mark);
        if self.is_at(hint, name) {
            return Some(hint);
        }
        let place = self.search(name)?;
        self.hints.set(mark, place);
        Some(place)
    }

    /// Enters a name that is new, in the room that there is for it, and answers its place.
    pub(crate) fn push(&mut self, name: Key, number: u64) -> usize
        requires room { 0 < self.old.spare }
        requires new { lookup (bytes_eq name) self.old.entries ≡ None }
        ensures place { result ≡ length self.old.entries }
        ensures entries { self.new.entries ≡ self.old.entries ++ (name, number) ∷ [] }
        ensures set { (other : List ℕ) → lookup (bytes_eq other) self.new.entries ≡ (if bytes_eq name other then Some number else lookup (bytes_eq other) self.old.entries) }
        ensures room { self.old.spare ≤ self.new.spare + 1 }
    {
        let place = self.numbers.len();
        self.hints.set(mark_of(&name), place);
        self.numbers.insert(name, number).unwrap();
        place
    }

    /// The place of a name, which has 0 if it is new.
    pub(crate) fn enter(&mut self, name: Key) -> usize
        requires room { 0 < self.old.spare }
        ensures place { StandsAt self.new result name }
        ensures sums { (other : List ℕ) → unwrap_or (lookup (bytes_eq other) self.new.entries) 0 ≡ unwrap_or (lookup (bytes_eq other) self.old.entries) 0 }
        ensures kept { (place : ℕ) (other : List ℕ) → StandsAt self.old place other → StandsAt self.new place other }
        ensures few { length self.new.entries ≤ length self.old.entries + 1 }
        ensures room { self.old.spare ≤ self.new.spare + 1 }
    {
        if let Some(place) = self.find(&name) {
            return place;
        }
        self.push(name, 0)
    }

    /// Gives a name this number, in the room that there is for it if it is new, and answers the one that it had.
    pub(crate) fn replace(&mut self, name: Key, number: u64) -> Option<u64>
        requires room { 0 < self.old.spare }
        ensures had { result ≡ lookup (bytes_eq name) self.old.entries }
        ensures set { (other : List ℕ) → lookup (bytes_eq other) self.new.entries ≡ (if bytes_eq name other then Some number else lookup (bytes_eq other) self.old.entries) }
        ensures room { self.old.spare ≤ self.new.spare + 1 }
    {
        if let Some(place) = self.find(&name) {
            let (_, held) = self.numbers.pair_mut(place);
            return Some(mem::replace(held, number));
        }
        self.push(name, number);
        None
    }

    /// Adds to the number of the name at a place.
    pub(crate) fn add_at(&mut self, place: usize, more: u64)
        requires place { place < length self.old.entries }
        requires fits { (name : List ℕ) → StandsAt self.old place name → unwrap_or (lookup (bytes_eq name) self.old.entries) 0 + more < 2 ^ 64 }
        ensures set { (name : List ℕ) → StandsAt self.old place name → (other : List ℕ)
            → lookup (bytes_eq other) self.new.entries ≡ (if bytes_eq name other then Some (unwrap_or (lookup (bytes_eq name) self.old.entries) 0 + more) else lookup (bytes_eq other) self.old.entries) }
        ensures kept { keys_of self.new.entries ≡ keys_of self.old.entries }
        ensures room { self.new.spare ≡ self.old.spare }
    {
        let (_, held) = self.numbers.pair_mut(place);
        *held += more;
    }
}
