ghost use Rattle.std.specs.Prelude.{◌≡◌, ◌↔◌, ◌<◌, [], ◌∷◌, ◌++◌, length, IfSome, IsSome, OnOk, OnErr, slice_get};
ghost use Rattle.std.specs.Option.{option_copied};

use crate::memory::NoMemory;
use std::alloc::Global;
use std::marker::Model;

/// A list of items that contracts see as a list.
#[derive(Drop)]
pub struct Rows<T> {
    items: Vec<T>,
}

impl<T> Model for Rows<T> {
    ghost use Rattle.std.specs.Prelude.{List};

    ghost Value = { List T };

    ghost view = { λ rows. rows.items.items };
}

impl<T> Rows<T> {
    /// The empty list. It takes no memory.
    pub fn new(alloc: Global) -> Rows<T>
        ensures { result ≡ [] }
    {
        Rows {
            items: Vec::new(alloc),
        }
    }

    /// The number of items.
    pub fn len(&self) -> usize
        ensures { result ≡ length self.now }
    {
        self.items.len()
    }

    /// The item at place `i`, from 0; `None` exactly where `i` is past the last.
    pub fn get(&self, i: usize) -> Option<&T>
        ensures value { option_copied result ≡ slice_get self.now i }
    {
        self.items.get(i)
    }

    /// The items, in order.
    pub fn as_slice(&self) -> &[T]
        ensures { result.now ≡ self.now }
    {
        self.items.as_slice()
    }

    /// The items as a `Vec`, in order. It takes no memory and copies no item. The crates above use it where they
    /// change items in place.
    #[doc(hidden)]
    pub fn into_vec(self) -> Vec<T>
        ensures { result.items ≡ self }
    {
        self.items
    }
}

impl<T: Drop> Rows<T> {
    /// Appends an item. For want of memory the list stays as it was, and the item is dropped.
    pub fn push(&mut self, item: T) -> Result<(), NoMemory>
        ensures ok { OnOk result (self.new ≡ self.old ++ item ∷ []) }
        ensures err { OnErr result (self.new ≡ self.old) }
    {
        self.items.push(item)?;
        Ok(())
    }
}

impl<T> From<Vec<T>> for Rows<T> {
    ghost from_gives = { λ items rows. rows ≡ items.items };

    /// The items of a `Vec`, in order. It takes no memory and copies no item. The crates above use it
    /// where they gather bytes in pieces.
    fn from(items: Vec<T>) -> Rows<T> {
        Rows { items }
    }
}
