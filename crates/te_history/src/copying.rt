// Copies of what an entry holds.

ghost use Rattle.std.specs.Prelude.{◌≡◌, IfOk};

use std::alloc::Global;
use te_cert::{Cert, Member};
use te_terms::{NoMemory, Rows};

/// The same items once more.
pub(crate) fn copy_rows<T: Copy>(alloc: Global, items: &[T]) -> Result<Rows<T>, NoMemory>
    ensures { IfOk result (λ rows. rows ≡ items.now) }
{
    let mut copy = Vec::new(alloc);
    copy.extend_from_slice(items)?;
    Ok(Rows::from(copy))
}

fn copy_members(alloc: Global, members: &[Member]) -> Result<Rows<Member>, NoMemory>
    ensures { IfOk result (λ rows. rows ≡ members.now) }
{
    let mut copy = Vec::new(alloc);
    for member in members {
        let choices = copy_rows(alloc, member.choices.as_slice())?;
        copy.push(Member {
            thread: member.thread,
            ticket: member.ticket,
            choices,
        })?;
    }
    Ok(Rows::from(copy))
}

/// The same certificate once more.
pub(crate) fn copy_cert(alloc: Global, cert: &Cert) -> Result<Cert, NoMemory>
    ensures { IfOk result (λ copy. copy ≡ cert.now) }
{
    let members = copy_members(alloc, cert.members.as_slice())?;
    let meets = copy_rows(alloc, cert.meets.as_slice())?;
    Ok(Cert { members, meets })
}
