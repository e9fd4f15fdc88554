ghost use Rattle.std.specs.Prelude.{◌≡◌, ◌↔◌, ◌<◌, ◌≤◌, [], length, IsTrue};
ghost use Rattle.te_reader.specs.ChannelIndex.{slot_behind};
ghost use Rattle.te_reader.specs.NameReads.{first_place_of, declared_in};
ghost use Rattle.te_reader.specs.Answering.{DeclaresChannel};
ghost use Rattle.te_script.specs.Limits.{most_channels};

use crate::names::declare;
use crate::refusal::Refusal;
use std::alloc::Global;
use std::collections::BTreeMap;
use std::marker::Model;
use te_script::MOST_CHANNELS;
use te_terms::{Name, Rows};

const SLOTS: usize = 256;

/// The names of channels, of which there are at most 256, with an index by which their numbers are found.
/// They are seen as the list of the names.
#[derive(Drop)]
pub struct Channels<'a> {
    names: Rows<Name>,
    numbers: BTreeMap<&'a [u8], u32>,
    // For each slot one and the number of the last channel whose name has it, or 0 where no name has it. Most lookups
    // end here: they find the channel, or that there is none.
    slots: [u32; SLOTS],
}

impl<'a> Model for Channels<'a> {
    ghost use Rattle.std.specs.Prelude.{List, ℕ};
    ghost use Rattle.te_reader.specs.ChannelIndex.{IsIndex};

    ghost Value = { List (List ℕ) };

    ghost view = { λ c. c.names };

    ghost invariant = { λ c. IsIndex c.names c.numbers c.slots };
}

// The slot of a name.
fn slot_of(name: &[u8]) -> usize
    ensures value { result ≡ slot_behind 0 name.now }
    ensures within { result < 256 }
{
    let mut slot = 0;
    for b in name {
        slot = (slot * 31 + *b as usize) % SLOTS;
    }
    slot
}

impl<'a> Channels<'a> {
    /// No channel.
    pub fn new(alloc: Global) -> Channels<'a>
        ensures { result ≡ [] }
    {
        Channels {
            names: Rows::new(alloc),
            numbers: BTreeMap::new(alloc),
            slots: [0; SLOTS],
        }
    }

    /// Whether there is none.
    pub fn is_empty(&self) -> bool
        ensures empty { IsTrue result ↔ self.now ≡ [] }
        ensures few { length self.now ≤ most_channels }
    {
        self.names.len() == 0
    }

    /// The number of a channel.
    pub fn number_of(&self, name: &[u8]) -> Option<u32>
        ensures { result ≡ first_place_of self.now name.now }
    {
        let slot = self.slots[slot_of(name)];
        if slot == 0 {
            return None;
        }
        match self.names.get(slot as usize - 1) {
            Some(found) if found.bytes() == name => Some(slot - 1),
            _ => self.numbers.get(name).copied(),
        }
    }

    /// The channels with one name more. It is refused where there are 256, where the name has more than 32
    /// bytes, and where it is among them.
    pub fn declare(self, name: &'a [u8]) -> Result<Channels<'a>, Refusal>
        requires { 0 < length name.now }
        ensures { DeclaresChannel result (declared_in most_channels self.entry name.now) }
    {
        let Channels {
            mut names,
            mut numbers,
            mut slots,
        } = self;
        let number = names.len() as u32;
        declare(MOST_CHANNELS, &mut names, name)?;
        numbers.insert(name, number)?;
        slots[slot_of(name)] = number + 1;
        Ok(Channels {
            names,
            numbers,
            slots,
        })
    }

    /// The names by number.
    pub fn into_names(self) -> Rows<Name>
        ensures { result ≡ self.entry }
    {
        let Channels {
            names,
            numbers: _,
            slots: _,
        } = self;
        names
    }
}
