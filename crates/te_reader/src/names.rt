ghost use Rattle.std.specs.Prelude.{◌≡◌, ◌<◌, ◌≤◌, length, IfSome, IsErrOf};
ghost use Rattle.te_reader.specs.declared.refusal.Refusal.TheVariants.{Refused};
ghost use Rattle.te_reader.specs.NameReads.{first_place_of, declared_in};
ghost use Rattle.te_reader.specs.Answering.{Declares};

use crate::refusal::Refusal;
use te_terms::{Name, Rows};

/// The first place of a name in a list.
#[tactic(auto, unfolding(crate::specs::NameReads::first_place_of))]
pub fn place_of(names: &[Name], name: &[u8]) -> Option<usize>
    ensures value { result ≡ first_place_of names.now name.now }
    ensures below { IfSome result (λ i. i < length names.now) }
{
    names.iter().position(|x| x.bytes() == name)
}

/// Appends a name to a list. It is refused where the list has so many already, where the name has more
/// than 32 bytes, and where it is among them.
#[tactic(auto, unfolding(crate::specs::NameReads::declared_in))]
pub fn declare(most: usize, names: &mut Rows<Name>, name: &[u8]) -> Result<(), Refusal>
    requires { 0 < length name.now }
    ensures names { Declares result names.new (declared_in most names.old name.now) }
    ensures few { length names.old ≤ most → length names.new ≤ most }
    ensures same { IsErrOf result Refused → names.new ≡ names.old }
{
    if place_of(names.as_slice(), name).is_some() || names.len() >= most {
        return Err(Refusal::Refused);
    }
    let Some(name) = Name::of(name) else {
        return Err(Refusal::Refused);
    };
    names.push(name)?;
    Ok(())
}
