// Callers sleep, each on a parker of its own, until another wakes them. Who sleeps has found that nothing can be done,
// in a list that only posts make longer; so whoever posts without searching wakes all others, and so does whoever ends,
// rests, withdraws or declares the board stuck. A commit wakes its members.

ghost use Rattle.std.specs.Prelude.{◌≡◌, ◌<◌, IfOk, length};

use crate::answers::Driven;
use crate::fault::SyncFault;
use crate::runtime::TeRuntime;
use std::alloc::Global;
use std::sync::Wait;
use std::thread::Parker;
use te_search::Found;
use te_terms::NoMemory;

/// One parker for each caller.
pub(crate) fn parkers_for(alloc: Global, callers: u32) -> Result<Vec<Parker>, NoMemory>
    ensures { IfOk result (λ parkers. length parkers.items ≡ callers) }
{
    let mut parkers = Vec::new(alloc);
    for made in 0..callers {
        parkers.push(Parker::new())?;
    }
    Ok(parkers)
}

/// Which callers are members of the group that was found, if one was.
pub(crate) fn members_of(found: &Found) -> [bool; 64] {
    let mut members = [false; 64];
    if let Found::Group(cert) = found {
        for member in cert.members.as_slice() {
            if let Some(is_member) = members.get_mut(member.thread as usize) {
                *is_member = true;
            }
        }
    }
    members
}

impl TeRuntime {
    // Sleeps until another caller wakes this one; a call of `wake_others` or `wake_members` since its last sleep wakes
    // it at once.
    pub(crate) fn sleep<R: Wait>(&self, rt: &R, by: u32)
        requires { by < self.now.callers }
    {
        self.parkers[by as usize].park(rt);
    }

    // Wakes all callers but this one.
    pub(crate) fn wake_others(&self, by: u32) {
        for (caller, parker) in self.parkers.iter().enumerate() {
            if caller != by as usize {
                parker.unpark();
            }
        }
    }

    // Wakes the members of a group but this caller.
    fn wake_members(&self, by: u32, members: &[bool; 64]) {
        for (caller, parker) in self.parkers.iter().enumerate() {
            if caller != by as usize && members.get(caller) == Some(&true) {
                parker.unpark();
            }
        }
    }

    // Wakes whoever has something to do after what was done with what was found.
    pub(crate) fn wake_after(
        &self,
        by: u32,
        driven: &Result<Driven, SyncFault>,
        members: &[bool; 64],
    ) {
        match driven {
            Ok(Driven::Committed { .. }) => self.wake_members(by, members),
            Ok(Driven::Stuck) => self.wake_others(by),
            _ => {}
        }
    }
}
