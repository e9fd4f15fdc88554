ghost use Rattle.std.specs.Prelude.{◌≡◌, ◌↔◌, ◌<◌, ◌≤◌, [], ◌∷◌, ◌++◌, ◌⊎◌, length, IfSome, IsNone};
ghost use Rattle.te_terms.specs.Limits.{longest_name};

use crate::limits::LONGEST_NAME;
use std::marker::Model;

/// A name of 1 to 32 bytes, seen as the list of them.
#[derive(Clone, Copy, Debug, PartialEq, Eq)]
pub struct Name {
    len: u32,
    bytes: [u8; LONGEST_NAME],
}

impl Model for Name {
    ghost use Rattle.std.specs.Prelude.{List, ℕ, ◌<◌, length, take};
    ghost use Rattle.te_terms.specs.Limits.{longest_name};
    ghost use Rattle.te_terms.specs.Padding.{padded, IsPadded, length_back};

    ghost Value = { List ℕ };

    ghost view = { λ v. take v.len v.bytes };

    ghost invariant = { λ v. IsPadded longest_name 0 v.len v.bytes × (0 < v.len) };

    ghost inverse = { λ xs. record { len = length xs; bytes = padded longest_name 0 xs } };

    ghost inverse_ok = { λ a p. λ i. record { len = length_back p.0 i; bytes = p.0.padded_so i } };
}

impl Name {
    /// The name of these bytes; `None` exactly where there are 0 or more than 32.
    pub fn of(bytes: &[u8]) -> Option<Name>
        ensures some { IfSome result (λ name. name ≡ bytes.now) }
        ensures none { IsNone result ↔ ((length bytes.now ≡ 0) ⊎ (longest_name < length bytes.now)) }
    {
        if bytes.is_empty() || bytes.len() > LONGEST_NAME {
            return None;
        }
        let mut room = [0; LONGEST_NAME];
        room[..bytes.len()].copy_from_slice(bytes);
        Some(Name {
            len: bytes.len() as u32,
            bytes: room,
        })
    }

    /// The bytes of the name.
    pub fn bytes(&self) -> &[u8]
        ensures value { result.now ≡ self.now }
        ensures range { (0 < length self.now) × (length self.now ≤ longest_name) }
    {
        &self.bytes[..self.len as usize]
    }
}
