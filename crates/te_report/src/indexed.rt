// Names in a list, found by their bytes.

ghost use Rattle.std.specs.Prelude.{◌≡◌, ◌<◌, length, IfSome, IsTrue};
ghost use Rattle.te_report.specs.FirstPlaces.{place_of_name, IsFirstPlace, AreFirstPlaces};

use std::marker::Model;
use te_terms::{Name, Rows};

/// A list of names, with a table of the places that names of some bytes are likely to have.
#[derive(Drop)]
pub(crate) struct IndexedNames {
    names: Rows<Name>,
    likely: [u8; 256],
}

impl Model for IndexedNames {
    ghost use Rattle.std.specs.Prelude.{List, ℕ};
    ghost use Rattle.te_report.specs.FirstPlaces.{AreFirstPlaces};

    ghost Value = { List (List ℕ) };

    ghost view = { λ n. n.names };

    ghost invariant = { λ n. AreFirstPlaces n.names n.likely };
}

// Where the table tells of a name.
fn slot(name: &[u8]) -> u8 {
    let mut slot = 0u8;
    for byte in name {
        slot = slot.wrapping_mul(31).wrapping_add(*byte);
    }
    slot
}

// The first place of a name in a list.
#[tactic(auto, unfolding(crate::specs::FirstPlaces::place_of_name))]
fn first_place(names: &[Name], name: &[u8]) -> Option<usize>
    ensures value { result ≡ place_of_name names.now name.now }
    ensures below { IfSome result (λ i. i < length names.now) }
{
    names.iter().position(|x| x.bytes() == name)
}

// Whether a place is the first of the name that stands there.
fn is_first(names: &[Name], place: usize) -> bool
    requires { place < length names.now }
    ensures { IsTrue result → IsFirstPlace names.now place }
{
    match first_place(names, names[place].bytes()) {
        Some(first) => first == place,
        None => false,
    }
}

// The table for a list. A name that stands twice, or behind the first 256, is left out.
fn places(names: &[Name]) -> [u8; 256]
    ensures { AreFirstPlaces names.now result }
{
    let mut likely = [0u8; 256];
    'names: for place in 0..names.len().min(256) {
        if is_first(names, place) {
            likely[slot(names[place].bytes()) as usize] = place as u8;
        }
    }
    likely
}

impl IndexedNames {
    pub(crate) fn of(names: Rows<Name>) -> IndexedNames
        ensures { result ≡ names }
    {
        let likely = places(names.as_slice());
        IndexedNames { names, likely }
    }

    /// The first place of a name.
    pub(crate) fn place(&self, name: &[u8]) -> Option<usize>
        ensures value { result ≡ place_of_name self.now name.now }
        ensures below { IfSome result (λ i. i < length self.now) }
    {
        let names = self.names.as_slice();
        let likely = self.likely[slot(name) as usize] as usize;
        if likely < names.len() && names[likely].bytes() == name {
            return Some(likely);
        }
        first_place(names, name)
    }
}
