// The play of a certificate: all members advance, then the meetings, then the endings.

ghost use Rattle.std.specs.Prelude.{◌≡◌, ◌⊎◌, ℕ, ◌<◌, ◌≤◌, ◌^◌, List, [], length, Some, slice_get, IfOk, IfErr, OnOk, Ok};
ghost use Rattle.te_terms.specs.Joint.{Label};
ghost use Rattle.te_path.specs.Growth.{AreLinked, Grows};
ghost use Rattle.te_cert.specs.declared.cert.CertFault.TheVariants as faults;
ghost use Rattle.te_cert.specs.Play.{Player, meets, all_advanced, all_meet, endings};
ghost use Rattle.te_cert.specs.Checks.{IsBetween, AreBetween};
ghost use Rattle.te_cert.specs.Lending.{AreLent};
ghost use Rattle.te_cert.specs.Players.{of_group, starts_of, seats_of, AreSeated, table_of, BecomesTable, PlayerGoesOn, Lacks, value_at, StandsAtEnd, passing, played_by, PlaysTo, TellsFault};

use crate::cert::{CertFault, Meeting};
use crate::group::Group;
use crate::room::Room;
use crate::seat::{End, Seat, ending, hand, take_seat};
use std::alloc::Global;
use te_path::{Cells, Stop};
use te_terms::{Outcome, Rows, Value};

/// The play of those who enter, in this room.
pub(crate) fn play(
    alloc: Global,
    room: &mut Room,
    group: &Group,
    meetings: &[Meeting],
) -> Result<Rows<Outcome>, CertFault>
    requires as_many { length group.now.members.now ≡ length group.now.lents.now }
    requires lent { AreLent group.now.lents.now }
    requires few { length group.now.members.now ≤ 2 ^ 32 }
    requires between { AreBetween (length group.now.members.now) meetings.now }
    requires few_meetings { length meetings.now < 2 ^ 32 }
    ensures { PlaysTo (played_by (of_group group.now) meetings.now) result }
{
    let empty = room.cells.mark();
    room.seats.clear();
    let answer = stages(alloc, &mut room.cells, &mut room.seats, group, meetings);
    room.cells.cut(empty);
    answer
}

// All advance, all meet, all end.
fn stages(
    alloc: Global,
    cells: &mut Cells,
    seats: &mut Vec<Seat>,
    group: &Group,
    meetings: &[Meeting],
) -> Result<Rows<Outcome>, CertFault>
    requires linked { AreLinked cells.old }
    requires empty { seats.old.items ≡ [] }
    requires as_many { length group.now.members.now ≡ length group.now.lents.now }
    requires lent { AreLent group.now.lents.now }
    requires few { length group.now.members.now ≤ 2 ^ 32 }
    requires between { AreBetween (length group.now.members.now) meetings.now }
    requires few_meetings { length meetings.now < 2 ^ 32 }
    ensures grows { Grows cells.old cells.new }
    ensures plays { PlaysTo (played_by (of_group group.now) meetings.now) result }
{
    seat_all(cells, seats, group)?;
    meet_all(cells, seats, group, meetings)?;
    outcomes(alloc, cells, seats, group)
}

/// The seats of all members, once each has advanced, in order.
pub(crate) fn seat_all(
    cells: &mut Cells,
    seats: &mut Vec<Seat>,
    group: &Group,
) -> Result<(), CertFault>
    requires linked { AreLinked cells.old }
    requires empty { seats.old.items ≡ [] }
    requires as_many { length group.now.members.now ≡ length group.now.lents.now }
    requires lent { AreLent group.now.lents.now }
    requires few { length group.now.members.now ≤ 2 ^ 32 }
    ensures grows { Grows cells.old cells.new }
    ensures seated { OnOk result (AreSeated cells.new (of_group group.now) seats.new.items) }
    ensures ok { OnOk result (BecomesTable (all_advanced 0 (starts_of (of_group group.now))) (seats_of cells.new (of_group group.now) seats.new.items)) }
    ensures err { IfErr result (λ e. TellsFault (all_advanced 0 (starts_of (of_group group.now))) e) }
{
    for i in 0..group.members.len() {
        take_seat(cells, seats, i as u32, &group.entrant(i))?;
    }
    Ok(())
}

/// Makes all meetings, in order.
pub(crate) fn meet_all(
    cells: &mut Cells,
    seats: &mut [Seat],
    group: &Group,
    meetings: &[Meeting],
) -> Result<(), CertFault>
    requires linked { AreLinked cells.old }
    requires seated { AreSeated cells.old (of_group group.now) seats.old }
    requires as_many { length group.now.members.now ≡ length group.now.lents.now }
    requires lent { AreLent group.now.lents.now }
    requires between { AreBetween (length group.now.members.now) meetings.now }
    requires few { length meetings.now < 2 ^ 32 }
    ensures grows { Grows cells.old cells.new }
    ensures seated { OnOk result (AreSeated cells.new (of_group group.now) seats.new) }
    ensures ok { OnOk result ((word : List Label)
        → BecomesTable (all_meet 0 meetings.now (table_of cells.old (of_group group.now) seats.old word))
        (seats_of cells.new (of_group group.now) seats.new)) }
    ensures err { IfErr result (λ e. (word : List Label) → TellsFault (all_meet 0 meetings.now (table_of cells.old (of_group group.now) seats.old word)) e) }
{
    for j in 0..meetings.len() {
        meet(cells, seats, group, j as u32, &meetings[j])?;
    }
    Ok(())
}

// Makes meeting `j`: both ends move, then the sender advances, then the receiver.
fn meet(
    cells: &mut Cells,
    seats: &mut [Seat],
    group: &Group,
    j: u32,
    meeting: &Meeting,
) -> Result<(), CertFault>
    requires linked { AreLinked cells.old }
    requires seated { AreSeated cells.old (of_group group.now) seats.old }
    requires as_many { length group.now.members.now ≡ length group.now.lents.now }
    requires lent { AreLent group.now.lents.now }
    requires between { IsBetween (length group.now.members.now) meeting.now }
    ensures grows { Grows cells.old cells.new }
    ensures seated { OnOk result (AreSeated cells.new (of_group group.now) seats.new) }
    ensures ok { OnOk result ((word : List Label) → BecomesTable (meets j meeting.now (table_of cells.old (of_group group.now) seats.old word)) (seats_of cells.new (of_group group.now) seats.new)) }
    ensures err { IfErr result (λ e. (word : List Label) → TellsFault (meets j meeting.now (table_of cells.old (of_group group.now) seats.old word)) e) }
{
    let sender = meeting.sender as usize;
    let receiver = meeting.receiver as usize;
    let Some(value) = passes(&seats[sender], &seats[receiver]) else {
        return Err(CertFault::Meet(j));
    };
    go_on(cells, seats, group, meeting.sender, End::Sender)?;
    go_on(cells, seats, group, meeting.receiver, End::Receiver(value))
}

// The member at place `i` goes on from an end of a meeting, and advances.
fn go_on(
    cells: &mut Cells,
    seats: &mut [Seat],
    group: &Group,
    i: u32,
    end: End,
) -> Result<(), CertFault>
    requires linked { AreLinked cells.old }
    requires seated { AreSeated cells.old (of_group group.now) seats.old }
    requires as_many { length group.now.members.now ≡ length group.now.lents.now }
    requires lent { AreLent group.now.lents.now }
    requires within { i < length group.now.members.now }
    requires stands { (p : Player) → slice_get (seats_of cells.old (of_group group.now) seats.old) i ≡ Some p → StandsAtEnd end p.member.term }
    ensures grows { Grows cells.old cells.new }
    ensures seated { OnOk result (AreSeated cells.new (of_group group.now) seats.new) }
    ensures ok { OnOk result (PlayerGoesOn i (value_at end) (seats_of cells.old (of_group group.now) seats.old) (seats_of cells.new (of_group group.now) seats.new)) }
    ensures err { IfErr result (λ e. (e ≡ faults.Memory) ⊎ ((e ≡ faults.Choices i) × Lacks i (value_at end) (seats_of cells.old (of_group group.now) seats.old))) }
{
    let mut seat = seats[i as usize];
    match hand(cells, &group.entrant(i as usize), &mut seat, end) {
        Ok(true) => {
            seats[i as usize] = seat;
            Ok(())
        }
        Ok(false) => Err(CertFault::Choices(i)),
        Err(_) => Err(CertFault::Memory),
    }
}

// What the one sends, where the other receives on the same channel.
fn passes(sender: &Seat, receiver: &Seat) -> Option<Value>
    ensures { result ≡ passing sender.now.spot.stop receiver.now.spot.stop }
{
    let Stop::Send(channel, value) = sender.spot.stop() else {
        return None;
    };
    let Stop::Recv(on) = receiver.spot.stop() else {
        return None;
    };
    if channel == on { Some(value) } else { None }
}

/// The outcomes of all members in the end, in order.
pub(crate) fn outcomes(
    alloc: Global,
    cells: &Cells,
    seats: &[Seat],
    group: &Group,
) -> Result<Rows<Outcome>, CertFault>
    requires seated { AreSeated cells.now (of_group group.now) seats.now }
    requires as_many { length group.now.members.now ≡ length group.now.lents.now }
    requires lent { AreLent group.now.lents.now }
    requires few { length group.now.members.now ≤ 2 ^ 32 }
    ensures ok { IfOk result (λ outcomes. endings 0 (seats_of cells.now (of_group group.now) seats.now) ≡ Ok outcomes) }
    ensures err { IfErr result (λ e. TellsFault (endings 0 (seats_of cells.now (of_group group.now) seats.now)) e) }
{
    let mut outcomes = Rows::new(alloc);
    for i in 0..group.members.len() {
        let outcome = ending(cells, i as u32, &group.entrant(i), &seats[i])?;
        let Ok(()) = outcomes.push(outcome) else {
            return Err(CertFault::Memory);
        };
    }
    Ok(outcomes)
}
