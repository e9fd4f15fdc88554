ghost use Rattle.std.specs.Prelude.{◌≡◌, ◌≢◌, ℕ, ◌≤◌, ◌<◌, ◌^◌, [], length, true, IfOk, IfErr, OnOk, IsTrue};
ghost use Rattle.te_cert.specs.declared.cert.CertFault.TheVariants.{Index, Memory};
ghost use Rattle.te_cert.specs.Lending.{lent_terms, AreLent};
ghost use Rattle.te_cert.specs.Checks.{IsChecked, Reduced, ThreadsRise, RiseAfter, IsBetween, AreBetween, IsFirstAstray, IsOutOfOrder};

use crate::cert::{Cert, CertFault, Meeting, Member};
use crate::group::Group;
use crate::lent::Lent;
use crate::playing::play;
use crate::room::Room;
use std::alloc::Global;
use te_terms::{Event, Outcome, Rows};

/// Checks that the events of the members reduce together by the certificate, and answers their outcomes, in
/// order of the members. Condition: there are as many events as members. Each event stands under its member's
/// thread and ticket, which name the fresh channels that it makes.
///
/// The play: in order, each member advances, which is its quiet steps and its choices by its own letters; at each
/// meeting, in order, both ends move, the sender advances, and then the receiver; in the end each member is final and
/// no letter is left over.
///
/// The refusals, in the order in which they are tested: `Empty` where there is no member; `Order` where the
/// threads don't rise strictly; `Index` of the first meeting with a place that is no member or with two equal
/// places; then the first failure of the play, `Choices` of a member that needs a letter and has none left or
/// `Meet` of a meeting whose ends don't fit; then, of the first member that fails in the end, `Unfinished` where
/// it isn't final and `Choices` where letters are left over. `Memory` is want of memory, which may come once the
/// first three are tested, before any failure of the play. A refusal changes nothing.
///
/// The events are those of Donnelly and Fluet, Transactional Events, JFP 18(5-6), 2008; certificates and their
/// play are this project's own.
pub fn check(alloc: Global, cert: &Cert, events: &[Event]) -> Result<Rows<Outcome>, CertFault>
    requires { length cert.now.members ≡ length events.now }
    ensures checked { IsChecked cert.now events.now result }
    ensures reduces { IfOk result (λ outcomes. Reduced cert.now events.now outcomes) }
{
    let members = cert.members.as_slice();
    let meetings = cert.meets.as_slice();
    in_order(members)?;
    all_between(members.len(), meetings)?;
    let lents = lend_all(alloc, events)?;
    let group = Group {
        members,
        lents: lents.as_slice(),
    };
    play(alloc, &mut Room::new(alloc), &group, meetings)
}

/// The same as `check`, on events where they lie and in room that serves for many plays: only the outcomes take
/// memory, once the room has grown. It is public for the crates above alone.
#[doc(hidden)]
pub fn check_in(
    alloc: Global,
    room: &mut Room,
    cert: &Cert,
    lents: &[Lent],
) -> Result<Rows<Outcome>, CertFault>
    requires as_many { length cert.now.members ≡ length lents.now }
    requires lent { AreLent lents.now }
    ensures checked { IsChecked cert.now (lent_terms lents.now) result }
    ensures reduces { IfOk result (λ outcomes. Reduced cert.now (lent_terms lents.now) outcomes) }
{
    let members = cert.members.as_slice();
    let meetings = cert.meets.as_slice();
    in_order(members)?;
    all_between(members.len(), meetings)?;
    play(alloc, room, &Group { members, lents }, meetings)
}

// The parts of all events.
fn lend_all<'a>(alloc: Global, events: &'a [Event]) -> Result<Vec<Lent<'a>>, CertFault>
    ensures ok { IfOk result (λ lents. lent_terms lents.items ≡ events.now) }
    ensures lent { IfOk result (λ lents. AreLent lents.items) }
    ensures err { IfErr result (λ e. e ≡ Memory) }
{
    let Ok(mut lents) = Vec::with_capacity(alloc, events.len()) else {
        return Err(CertFault::Memory);
    };
    for event in events {
        let Ok(()) = lents.push(Lent::of(event)) else {
            return Err(CertFault::Memory);
        };
    }
    Ok(lents)
}

// Whether there are members, and their threads rise strictly.
fn in_order(members: &[Member]) -> Result<(), CertFault>
    ensures some { OnOk result (members.now ≢ []) }
    ensures rise { OnOk result (ThreadsRise members.now) }
    ensures few { OnOk result (length members.now ≤ 2 ^ 32) }
    ensures err { IfErr result (λ e. IsOutOfOrder members.now e) }
{
    let [first, rest @ ..] = members else {
        return Err(CertFault::Empty);
    };
    if !rise_after(first.thread, rest) {
        return Err(CertFault::Order);
    }
    Ok(())
}

fn rise_after(thread: u32, members: &[Member]) -> bool
    ensures rise { IsTrue result → RiseAfter thread members.now }
    ensures not { ¬ IsTrue result → ¬ RiseAfter thread members.now }
    ensures few { IsTrue result → length members.now < 2 ^ 32 }
{
    let mut last = thread;
    for member in members {
        if member.thread <= last {
            return false;
        }
        last = member.thread;
    }
    true
}

// Whether each meeting names two different places of so many.
fn all_between(members: usize, meetings: &[Meeting]) -> Result<(), CertFault>
    requires { length meetings.now < 2 ^ 32 }
    ensures ok { OnOk result (AreBetween members meetings.now) }
    ensures err { IfErr result (λ e. (j : ℕ) × (e ≡ Index j) × IsFirstAstray members meetings.now j) }
{
    for j in 0..meetings.len() {
        if !is_between(members, meetings[j]) {
            return Err(CertFault::Index(j as u32));
        }
    }
    Ok(())
}

fn is_between(members: usize, meeting: Meeting) -> bool
    ensures yes { IsTrue result → IsBetween members meeting }
    ensures no { ¬ IsTrue result → ¬ IsBetween members meeting }
{
    (meeting.sender as usize) < members
        && (meeting.receiver as usize) < members
        && meeting.sender != meeting.receiver
}
