ghost use Rattle.std.specs.Prelude.{◌≡◌, [], ◌∷◌, ◌++◌, length, take, OnOk, slice_get};
ghost use Rattle.std.specs.Option.{option_copied};
ghost use Rattle.te_reader.specs.Rules.{is_among};

use crate::label::Label;
use std::alloc::Global;
use std::collections::BTreeMap;
use std::marker::Model;
use te_terms::NoMemory;

/// A list of names with an index, by which it is found whether a name is among them. It is seen as the list.
#[derive(Drop)]
pub struct NameSet<'a> {
    names: Vec<Label<'a>>,
    numbers: BTreeMap<&'a [u8], usize>,
}

impl<'a> Model for NameSet<'a> {
    ghost use Rattle.std.specs.Prelude.{List, ℕ};
    ghost use Rattle.te_reader.specs.NameSets.{FindsEachName};

    ghost Value = { List (List ℕ) };

    ghost view = { λ s. s.names.items };

    ghost invariant = { λ s. FindsEachName s.names.items s.numbers };
}

// The name at a place.
fn label_at<'s, 'a>(names: &'s [Label<'a>], i: usize) -> Option<&'s Label<'a>>
    ensures { option_copied result ≡ slice_get names.now i }
{
    names.get(i)
}

impl<'a> NameSet<'a> {
    /// No name. It takes no memory.
    pub fn new(alloc: Global) -> NameSet<'a>
        ensures { result ≡ [] }
    {
        NameSet {
            names: Vec::new(alloc),
            numbers: BTreeMap::new(alloc),
        }
    }

    /// The number of names.
    pub fn len(&self) -> usize
        ensures { result ≡ length self.now }
    {
        self.names.len()
    }

    /// Whether a name is among them.
    pub fn contains(&self, name: &[u8]) -> bool
        ensures { result ≡ is_among name.now self.now }
    {
        match self.numbers.get(name) {
            Some(number) => match label_at(self.names.as_slice(), *number) {
                Some(found) => found.bytes() == name,
                None => false,
            },
            None => false,
        }
    }

    /// Appends a name.
    pub fn push(&mut self, name: &'a [u8]) -> Result<(), NoMemory>
        ensures { OnOk result (self.new ≡ self.old ++ name.now ∷ []) }
    {
        if !self.contains(name) {
            let number = self.names.len();
            self.numbers.insert(name, number)?;
        }
        self.names.push(Label::new(name))?;
        Ok(())
    }

    /// Keeps so many of the first names.
    pub fn truncate(&mut self, len: usize)
        ensures { self.new ≡ take len self.old }
    {
        self.names.truncate(len);
    }
}
