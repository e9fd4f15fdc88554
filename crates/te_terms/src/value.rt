ghost use Rattle.std.specs.Prelude.{◌≡◌, ◌↔◌, ◌<◌, ◌≤◌, [], ◌∷◌, ◌++◌, length, slice_get, IfSome, IsNone};
ghost use Rattle.te_terms.specs.Values.{trap_value};
ghost use Rattle.te_terms.specs.Expressions.{integer_of, channel_of};
ghost use Rattle.te_terms.specs.Limits.{most_atoms};
ghost use Rattle.te_terms.specs.Packed.{word_of, is_channel, atom_in, IsNarrow};

use crate::limits::MOST_ATOMS;
use std::marker::Model;

/// An integer, or a channel named by its number.
#[derive(Clone, Copy, Debug, PartialEq, Eq)]
pub enum Atom {
    Int(i64),
    Chan(u32),
}

impl Atom {
    // The word that stands for the atom, beside its kind.
    fn word(self) -> i64
        ensures value { result ≡ word_of self }
        ensures narrow { IsNarrow result (is_channel self) }
    {
        match self {
            Atom::Int(z) => z,
            Atom::Chan(c) => c as i64,
        }
    }

    fn is_channel(self) -> bool
        ensures { result ≡ is_channel self }
    {
        matches!(self, Atom::Chan(_))
    }

    // The atom that a word stands for.
    fn of(word: i64, is_channel: bool) -> Atom
        requires { IsNarrow word is_channel }
        ensures { result ≡ atom_in word is_channel }
    {
        if is_channel {
            Atom::Chan(word as u32)
        } else {
            Atom::Int(word)
        }
    }

    pub(crate) fn integer(self) -> Result<i64, Trap>
        ensures { result ≡ integer_of self }
    {
        match self {
            Atom::Int(z) => Ok(z),
            Atom::Chan(_) => Err(Trap::Kind),
        }
    }

    pub(crate) fn channel(self) -> Result<u32, Trap>
        ensures { result ≡ channel_of self }
    {
        match self {
            Atom::Int(_) => Err(Trap::Kind),
            Atom::Chan(c) => Ok(c),
        }
    }
}

// 40 bytes without a gap, since values are copied more than anything else: a word for each atom, its kind,
// and fillers behind them, so that equal values have equal fields.
/// A value: a tuple of 0 to 4 atoms, seen as the list of them.
#[derive(Clone, Copy, Debug)]
pub struct Value {
    words: [i64; MOST_ATOMS],
    are_channels: [bool; MOST_ATOMS],
    len: u32,
}

impl Model for Value {
    ghost use Rattle.std.specs.Prelude.{List, length};
    ghost use Rattle.te_terms.specs.declared.value.Atom.{Atom};
    ghost use Rattle.te_terms.specs.Packed.{atoms_in, words_of, kinds_of, IsPacked};

    ghost Value = { List Atom };

    ghost view = { λ v. atoms_in v.len v.words v.are_channels };

    ghost invariant = { λ v. IsPacked v.len v.words v.are_channels };

    ghost inverse = { λ atoms. record { words = words_of atoms; are_channels = kinds_of atoms; len = length atoms } };

    ghost inverse_ok = { λ a p. λ i. record { words = p.words_are i; are_channels = p.kinds_are i; len = p.as_long i } };
}

impl Value {
    /// The empty tuple.
    pub fn unit() -> Value
        ensures { result ≡ [] }
    {
        Value {
            words: [0; MOST_ATOMS],
            are_channels: [false; MOST_ATOMS],
            len: 0,
        }
    }

    /// The tuple of these atoms; `None` exactly where there are more than 4.
    pub fn of(atoms: &[Atom]) -> Option<Value>
        ensures some { IfSome result (λ v. v ≡ atoms.now) }
        ensures none { IsNone result ↔ (most_atoms < length atoms.now) }
    {
        if atoms.len() > MOST_ATOMS {
            return None;
        }
        let mut value = Value::unit();
        for atom in atoms {
            value.push(*atom);
        }
        Some(value)
    }

    /// The number of atoms.
    pub fn len(&self) -> usize
        ensures value { result ≡ length self.now }
        ensures range { length self.now ≤ most_atoms }
    {
        self.len as usize
    }

    /// The atom at place `d`, from 0; `None` exactly where there is no such place.
    pub fn get(&self, d: usize) -> Option<Atom>
        ensures { result ≡ slice_get self.now d }
    {
        if d < self.len as usize {
            Some(Atom::of(self.words[d], self.are_channels[d]))
        } else {
            None
        }
    }

    /// Puts one more atom behind the others.
    pub(crate) fn push(&mut self, atom: Atom)
        requires { length self.old < most_atoms }
        ensures { self.new ≡ self.old ++ atom ∷ [] }
    {
        let place = self.len as usize;
        self.words[place] = atom.word();
        self.are_channels[place] = atom.is_channel();
        self.len += 1;
    }
}

impl PartialEq for Value {
    ghost use Rattle.std.specs.Cmp.{partial_equiv_from_equiv};
    ghost use Rattle.te_terms.specs.Values.{same_value};
    ghost use Rattle.te_terms.specs.Sameness.{same_value_equiv};

    ghost eq = { same_value };

    ghost laws = { partial_equiv_from_equiv same_value_equiv };

    fn eq(&self, other: &Value) -> bool {
        if self.len != other.len {
            return false;
        }
        if self.words != other.words {
            return false;
        }
        self.are_channels == other.are_channels
    }
}

impl Eq for Value {
    ghost use Rattle.te_terms.specs.Sameness.{same_value_equiv};

    ghost laws = { same_value_equiv };
}

impl Default for Value {
    ghost use Rattle.std.specs.Prelude.{◌≡◌, []};

    ghost is_default = { λ value. value ≡ [] };

    fn default() -> Value {
        Value::unit()
    }
}

/// Why an expression has no value.
#[derive(Clone, Copy, Debug, PartialEq, Eq)]
pub enum Trap {
    /// A sum, difference or product lies outside 64 bits.
    Range,
    /// A place is missing, a variable isn't in scope, or an atom is of the wrong kind.
    Kind,
}

impl Trap {
    /// The value that the trap raises: (-1) for `Range`, (-2) for `Kind`.
    pub fn value(self) -> Value
        ensures { result ≡ trap_value self }
    {
        let mut value = Value::unit();
        value.push(match self {
            Trap::Range => Atom::Int(-1),
            Trap::Kind => Atom::Int(-2),
        });
        value
    }
}
