//! The names of users.
ghost use Rattle.std.specs.Prelude.{◌≡◌, ℕ, [], ◌∷◌, None, Some, IfOk, OnOk, if◌then◌else◌, nat_eq};
ghost use Rattle.std.specs.Option.{option_map, option_or};
ghost use Rattle.tally_usage.specs.Names.{name_among, name_in, names_of};
ghost use Rattle.tally_usage.specs.inside.Names.{names_kept};

use crate::passwd::user_in;
use std::alloc::Global;
use std::collections::BTreeMap;
use std::marker::Model;
use tally_records::Memory;

/// The names of users by number. A number has one name or none.
#[derive(Drop)]
pub struct UserNames {
    names: BTreeMap<u32, Vec<u8>>,
}

impl Model for UserNames {
    ghost use Rattle.std.specs.Prelude.{List, ℕ};

    ghost Value = { List (ℕ × List ℕ) };

    ghost use Rattle.tally_usage.specs.inside.Names.{names_kept};

    ghost view = { λ s. names_kept s.names.entries };
}

/// Keeps a name, unless the number has one already.
fn keep_first(
    alloc: Global,
    names: &mut BTreeMap<u32, Vec<u8>>,
    uid: u32,
    name: &[u8],
) -> Result<(), Memory>
    ensures { OnOk result ((q : ℕ) → names_of (names_kept names.new.entries) q
        ≡ option_or (names_of (names_kept names.old.entries) q) (if nat_eq q uid then Some name.now else None)) }
{
    if !names.contains_key(&uid) {
        names.insert(uid, Vec::from_slice(alloc, name)?)?;
    }
    Ok(())
}

/// Keeps the name of the line's user, where it is a line of passwd(5), unless the number has one.
fn read_line(alloc: Global, names: &mut BTreeMap<u32, Vec<u8>>, line: &[u8]) -> Result<(), Memory>
    ensures { OnOk result ((q : ℕ) → names_of (names_kept names.new.entries) q
        ≡ option_or (names_of (names_kept names.old.entries) q) (name_among (line.now ∷ []) q)) }
{
    match user_in(line) {
        Some((uid, name)) => keep_first(alloc, names, uid, name),
        None => Ok(()),
    }
}

/// The names of the lines of a file, of which the first with a number counts.
fn names_of_lines(alloc: Global, bytes: &[u8]) -> Result<BTreeMap<u32, Vec<u8>>, Memory>
    ensures { IfOk result (λ names. (uid : ℕ) → names_of (names_kept names.entries) uid ≡ name_in bytes.now uid) }
{
    let mut names = BTreeMap::new(alloc);
    for line in bytes.split(|byte| *byte == b'\n') {
        read_line(alloc, &mut names, line)?;
    }
    Ok(names)
}

/// The kept name of a number, where it has one.
fn kept_name(names: &BTreeMap<u32, Vec<u8>>, uid: u32) -> Option<&[u8]>
    ensures { option_map (λ name. name.now) result ≡ names_of (names_kept names.now.entries) uid }
{
    match names.get(&uid) {
        Some(name) => Some(name.as_slice()),
        None => None,
    }
}

impl UserNames {
    /// No names.
    pub fn new(alloc: Global) -> UserNames
        ensures { result ≡ [] }
    {
        UserNames {
            names: BTreeMap::new(alloc),
        }
    }

    /// The names in a file of passwd(5): a number has that of its first line. A line has seven fields
    /// between colons, of which the first is a name that is not empty, and the third a decimal number
    /// below 2^32; another is passed over. It errs where memory runs out.
    pub fn of_passwd(alloc: Global, bytes: &[u8]) -> Result<UserNames, Memory>
        ensures { IfOk result (λ names. (uid : ℕ) → names_of names uid ≡ name_in bytes.now uid) }
    {
        Ok(UserNames {
            names: names_of_lines(alloc, bytes)?,
        })
    }

    /// The name of a user, where there is one: bytes as the file has them.
    pub fn name_of(&self, uid: u32) -> Option<&[u8]>
        ensures { option_map (λ name. name.now) result ≡ names_of self.now uid }
    {
        kept_name(&self.names, uid)
    }
}
