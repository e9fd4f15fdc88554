ghost use Rattle.std.specs.Prelude.{◌≡◌, ◌<◌, ◌≤◌, ℕ, List, length};
ghost use Rattle.std.specs.Option.{option_map};
ghost use Rattle.te_terms.specs.Codes.{variable_of};
ghost use Rattle.te_reader.specs.Grammar.{Names as Scope, with_inner};
ghost use Rattle.te_reader.specs.NameReads.{first_place_of, names_of, variable_named, bound_in};
ghost use Rattle.te_reader.specs.Answering.{Binds};
ghost use Rattle.te_terms.specs.Limits.{most_registers, greatest_height};

use crate::channels::Channels;
use crate::names::place_of;
use crate::refusal::Refusal;
use std::alloc::Global;
use std::marker::Model;
use te_terms::{Name, Rows, Var};

/// The names in scope at a place in an event: the channels, the registers that were written before, and the
/// inner names, the outermost first.
#[derive(Drop)]
pub struct Names<'a, 'b> {
    channels: &'a Channels<'b>,
    registers: &'a Rows<Name>,
    inners: Vec<Name>,
}

impl<'a, 'b> Model for Names<'a, 'b> {
    ghost use Rattle.std.specs.Prelude.{length, ◌≤◌};
    ghost use Rattle.te_terms.specs.Limits.{most_registers, greatest_height};
    ghost use Rattle.te_reader.specs.Grammar.{Names as Scope};

    ghost Value = { Scope };

    ghost view = { λ n. record { channels = n.channels.now; registers = n.registers.now; inners = n.inners.items } };

    ghost invariant = { λ n. (length n.registers.now ≤ most_registers) × (length n.inners.items ≤ greatest_height) };
}

impl<'a, 'b> Names<'a, 'b> {
    /// No inner name yet. It takes no memory.
    pub fn new(
        alloc: Global,
        channels: &'a Channels<'b>,
        registers: &'a Rows<Name>,
    ) -> Names<'a, 'b>
        requires { length registers.now ≤ most_registers }
        ensures { result ≡ names_of channels.now registers.now }
    {
        Names {
            channels,
            registers,
            inners: Vec::new(alloc),
        }
    }

    /// The number of a channel.
    pub fn channel(&self, name: &[u8]) -> Option<u32>
        ensures { result ≡ first_place_of self.now.channels name.now }
    {
        self.channels.number_of(name)
    }

    /// The level of an inner name.
    pub fn inner(&self, name: &[u8]) -> Option<u8>
        ensures { result ≡ first_place_of self.now.inners name.now }
    {
        match place_of(self.inners.as_slice(), name) {
            Some(level) => Some(level as u8),
            None => None,
        }
    }

    /// The register of a name, or else its inner name.
    #[tactic(auto, unfolding(crate::specs::NameReads::variable_named))]
    pub fn variable(&self, name: &[u8]) -> Option<Var>
        ensures { option_map variable_of result ≡ variable_named self.now name.now }
    {
        if let Some(register) = place_of(self.registers.as_slice(), name) {
            return Some(Var::Reg(register as u8));
        }
        match self.inner(name) {
            Some(level) => Some(Var::Inner(level)),
            None => None,
        }
    }

    /// Brings one inner name more in scope. It is refused where the name has more than 32 bytes, and where
    /// it is that of a channel, a register or an inner name.
    #[tactic(auto, unfolding(crate::specs::NameReads::bound_in))]
    pub fn bind(&mut self, name: &[u8]) -> Result<(), Refusal>
        requires room { length self.old.inners < greatest_height }
        requires named { 0 < length name.now }
        ensures { Binds result self.new (bound_in self.old name.now) }
    {
        if self.channel(name).is_some() {
            return Err(Refusal::Refused);
        }
        if place_of(self.registers.as_slice(), name).is_some() {
            return Err(Refusal::Refused);
        }
        if self.inner(name).is_some() {
            return Err(Refusal::Refused);
        }
        let Some(name) = Name::of(name) else {
            return Err(Refusal::Refused);
        };
        self.inners.push(name)?;
        Ok(())
    }

    /// Takes the innermost name out of scope.
    pub fn unbind(&mut self)
        ensures { (s : Scope) → (n : List ℕ) → self.old ≡ with_inner s n → self.new ≡ s }
    {
        self.inners.pop();
    }
}
