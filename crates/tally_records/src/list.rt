ghost use Rattle.std.specs.Prelude.{◌≡◌, ◌++◌, ◌∷◌, [], length, OnOk, OnErr, IfOk, slice_get};

use crate::fault::Memory;
use std::alloc::Global;
use std::marker::Model;
use std::sync::Arc;

/// Where the values of a list are: in a vector of its own, which grows, or in one that all copies
/// of the list hold, which nobody changes.
#[derive(Drop)]
enum Values<T: Copy> {
    Own(Vec<T>),
    Shared(Arc<Vec<T>, Global>),
}

/// A list of plain values.
#[derive(Drop)]
pub struct List<T: Copy> {
    alloc: Global,
    values: Values<T>,
}

impl<T: Copy> Model for List<T> {
    ghost use Rattle.std.specs.Prelude.{List as Items};
    ghost use Rattle.tally_records.specs.inside.Values.{values_in};

    ghost Value = { Items T };

    ghost view = { λ l. values_in l.values };
}

/// The values and one more, in a vector of their own.
fn with_one_more<T: Copy>(alloc: Global, values: &[T], value: T) -> Result<Vec<T>, Memory>
    ensures { IfOk result (λ all. all.items ≡ values.now ++ value ∷ []) }
{
    let mut all = Vec::from_slice(alloc, values)?;
    all.push(value)?;
    Ok(all)
}

impl<T: Copy> List<T> {
    /// The empty list, which takes no memory.
    pub fn new(alloc: Global) -> List<T>
        ensures { result ≡ [] }
    {
        List {
            alloc,
            values: Values::Own(Vec::new(alloc)),
        }
    }

    /// The list of a vector's values, which its copies share. It errs where memory runs out.
    pub fn from_vec(alloc: Global, items: Vec<T>) -> Result<List<T>, Memory>
        ensures { IfOk result (λ list. list ≡ items.items) }
    {
        Ok(List {
            alloc,
            values: Values::Shared(Arc::new(alloc, items)?),
        })
    }

    /// Adds a value at the end.
    pub fn push(&mut self, value: T) -> Result<(), Memory>
        ensures stored { OnOk result (self.new ≡ self.old ++ value ∷ []) }
        ensures refused { OnErr result (self.new ≡ self.old) }
    {
        if let Values::Own(own) = &mut self.values {
            own.push(value)?;
            return Ok(());
        }
        let all = with_one_more(self.alloc, self.as_slice(), value)?;
        self.values = Values::Own(all);
        Ok(())
    }

    /// How many values it holds.
    pub fn len(&self) -> usize
        ensures { result ≡ length self.now }
    {
        self.as_slice().len()
    }

    /// The value at a place, counted from 0.
    pub fn get(&self, index: usize) -> Option<T>
        ensures { result ≡ slice_get self.now index }
    {
        self.as_slice().get(index).copied()
    }

    /// All values.
    pub fn as_slice(&self) -> &[T]
        ensures { result.now ≡ self.now }
    {
        match &self.values {
            Values::Own(own) => own.as_slice(),
            Values::Shared(shared) => shared.as_slice(),
        }
    }

    /// A list of the same values, which it shares where it can.
    pub fn try_copy(&self, alloc: Global) -> Result<List<T>, Memory>
        ensures { IfOk result (λ copy. copy ≡ self.now) }
    {
        let values = match &self.values {
            Values::Own(own) => Values::Own(Vec::from_slice(alloc, own.as_slice())?),
            Values::Shared(shared) => Values::Shared(Arc::try_clone(shared)?),
        };
        Ok(List { alloc, values })
    }
}
