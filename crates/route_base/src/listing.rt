// One generic list type; the named lists are aliases of it.
ghost use Rattle.std.specs.Prelude.{◌≡◌, ◌∷◌, ◌++◌, [], List, length, slice_get, option_copied, OnOk, OnErr};

use crate::OutOfMemory;
use std::alloc::Global;
use std::marker::Model;

/// A list, which contracts see as the list of its items.
pub struct Listing<T> {
    held: Vec<T>,
}

impl<T> Model for Listing<T> {
    ghost Value = { List T };

    ghost view = { λ a. a.held.items };
}

// By hand, so that the drops of its parts are proved here alone.
impl<T: Drop> Drop for Listing<T> {
    fn drop(self) {
        let Listing { held: _ } = self;
    }
}

impl<T> Listing<T> {
    /// The empty list.
    pub fn new(alloc: Global) -> Self
        ensures { result ≡ [] }
    {
        Listing {
            held: Vec::new(alloc),
        }
    }

    /// The vector's items, at no cost.
    pub fn from_vec(items: Vec<T>) -> Self
        ensures { result ≡ items.items }
    {
        Listing { held: items }
    }

    /// The number of items.
    pub fn len(&self) -> usize
        ensures { result ≡ length self.now }
    {
        self.held.len()
    }

    /// The item at place i from 0; `None` exactly where i isn't below the length.
    pub fn get(&self, i: usize) -> Option<&T>
        ensures { option_copied result ≡ slice_get self.now i }
    {
        self.held.get(i)
    }

    /// All items, at no cost.
    pub fn as_slice(&self) -> &[T]
        ensures { result.now ≡ self.now }
    {
        self.held.as_slice()
    }
}

impl<T: Drop> Listing<T> {
    /// Appends the item, in constant time on average.
    pub fn push(&mut self, item: T) -> Result<(), OutOfMemory>
        ensures ok { OnOk result (self.new ≡ self.old ++ item ∷ []) }
        ensures err { OnErr result (self.new ≡ self.old) }
    {
        self.held.push(item)?;
        Ok(())
    }
}
