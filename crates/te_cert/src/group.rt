// Who enters a play.

ghost use Rattle.std.specs.Prelude.{◌≡◌, ◌<◌, length, Some, slice_get};
ghost use Rattle.te_cert.specs.Lending.{AreLent};
ghost use Rattle.te_cert.specs.Players.{IsEntering, of_group, entered};

use crate::cert::Member;
use crate::lent::Lent;
use te_path::Posted;

/// The members of a certificate, with the parts of their events.
#[derive(Clone, Copy)]
pub(crate) struct Group<'a> {
    pub(crate) members: &'a [Member],
    pub(crate) lents: &'a [Lent<'a>],
}

/// One of them: what its moves read, the node of its event, and its letters.
#[derive(Clone, Copy)]
pub(crate) struct Entrant<'a> {
    pub(crate) posted: Posted<'a>,
    pub(crate) root: u32,
    pub(crate) choices: &'a [bool],
}

impl<'a> Group<'a> {
    /// The member at place `i`.
    pub(crate) fn entrant(&self, i: usize) -> Entrant<'a>
        requires as_many { length self.now.members.now ≡ length self.now.lents.now }
        requires within { i < length self.now.members.now }
        requires lent { AreLent self.now.lents.now }
        ensures is { slice_get (of_group self.now) i ≡ Some (entered result) }
        ensures entering { IsEntering (entered result) }
    {
        let member = &self.members[i];
        let lent = &self.lents[i];
        Entrant {
            posted: Posted {
                code: lent.code,
                regs: lent.regs,
                thread: member.thread,
                ticket: member.ticket,
            },
            root: lent.root,
            choices: member.choices.as_slice(),
        }
    }
}
