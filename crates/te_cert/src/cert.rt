use std::marker::Model;
use te_terms::Rows;

/// One member of a group: the number of its thread, from 0; the ticket of its event, which is the number of the
/// thread's earlier posts; and its choices in order, where true is the left. This project's own.
#[derive(Drop)]
pub struct Member {
    pub thread: u32,
    pub ticket: u32,
    pub choices: Rows<bool>,
}

/// A meeting, by the places of the sender and the receiver among the members, from 0. In a certificate that is right
/// they are two different places. This project's own.
#[derive(Clone, Copy, Debug, PartialEq, Eq)]
pub struct Meeting {
    pub sender: u32,
    pub receiver: u32,
}

/// How a group reduces: its members, and their meetings in order, of which there are fewer than 2^32. It needn't be
/// right: `check` tests it against the events. Certificates are this project's own.
#[derive(Drop)]
pub struct Cert {
    pub members: Rows<Member>,
    pub meets: Rows<Meeting>,
}

impl Model for Cert {
    ghost use Rattle.te_cert.specs.Certificates.{Certificate, coded_certificate};

    ghost Value = { Certificate };

    ghost coded = { coded_certificate };

    ghost use Rattle.std.specs.Prelude.{◌^◌, ◌<◌, length};

    ghost view = { λ c. record { members = c.members; meets = c.meets } };

    ghost invariant = { λ c. length c.meets < 2 ^ 32 };
}

/// Why a certificate doesn't show that the events of its members reduce together: the first thing that is wrong.
/// Places count from 0. This project's own.
#[derive(Clone, Copy, Debug, PartialEq, Eq)]
pub enum CertFault {
    /// There is no member.
    Empty,
    /// The threads of the members don't rise strictly.
    Order,
    /// This meeting is the first that names a place that is no member, or one place twice.
    Index(u32),
    /// The play fails first at this meeting: its sender doesn't stand at a send, or its receiver at a receive on the
    /// same channel.
    Meet(u32),
    /// The play fails first at this member: it needs a choice that it hasn't, or it is final with one over in the end.
    Choices(u32),
    /// The play fails first at this member: it isn't final in the end.
    Unfinished(u32),
    /// There was no memory.
    Memory,
}
