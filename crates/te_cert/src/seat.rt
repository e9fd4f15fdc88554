// One member in play.

ghost use Rattle.std.specs.Prelude.{◌≡◌, ◌↔◌, IfOk, IfErr, OnOk, IsTrue, drop};
ghost use Rattle.te_terms.specs.Steps.{outcome_of};
ghost use Rattle.te_path.specs.declared.spot.Stop.TheVariants.{Choice};
ghost use Rattle.te_path.specs.Growth.{AreLinked, Grows};
ghost use Rattle.te_path.specs.Spots.{spelled};
ghost use Rattle.te_cert.specs.Play.{advanced, ending};
ghost use Rattle.te_cert.specs.Players.{IsEntering, entered, start_of, seat_of, IsSeat, TakesSeat, Comes, player_handed, value_at, StandsAtEnd, PassesOn, TellsFault, TellsPart};

use crate::cert::CertFault;
use crate::group::Entrant;
use te_path::{Cells, Spot, Stop};
use te_terms::{NoMemory, Outcome, Value};

/// Where a member stands in play, over the cells of the play, and how many of its letters it has used.
#[derive(Clone, Copy)]
pub(crate) struct Seat {
    pub(crate) spot: Spot,
    pub(crate) used: usize,
}

/// An end of a meeting.
#[derive(Clone, Copy)]
pub(crate) enum End {
    Sender,
    Receiver(Value),
}

/// Puts the seat of the member at place `i` behind the others, once it has advanced from its event.
pub(crate) fn take_seat(
    cells: &mut Cells,
    seats: &mut Vec<Seat>,
    i: u32,
    entrant: &Entrant,
) -> Result<(), CertFault>
    requires linked { AreLinked cells.old }
    requires entering { IsEntering (entered entrant.now) }
    ensures grows { Grows cells.old cells.new }
    ensures ok { OnOk result (TakesSeat i (entered entrant.now) cells.new seats.old.items seats.new.items) }
    ensures err { IfErr result (λ e. TellsFault (advanced i (start_of (entered entrant.now))) e) }
{
    let Ok(spot) = cells.start(&entrant.posted, entrant.root) else {
        return Err(CertFault::Memory);
    };
    // Named, since the prover plans no copy of an enum that the function doesn't name.
    let _stop: Stop = spot.stop();
    let mut seat = Seat { spot, used: 0 };
    match advance(cells, entrant, &mut seat) {
        Ok(true) => {}
        Ok(false) => return Err(CertFault::Choices(i)),
        Err(_) => return Err(CertFault::Memory),
    }
    match seats.push(seat) {
        Ok(()) => Ok(()),
        Err(_) => Err(CertFault::Memory),
    }
}

/// Goes on from the end of a meeting at which the member stands, and advances; answers whether it lacked no
/// letter.
pub(crate) fn hand(
    cells: &mut Cells,
    entrant: &Entrant,
    seat: &mut Seat,
    end: End,
) -> Result<bool, NoMemory>
    requires seat { IsSeat cells.old (entered entrant.now) seat.old }
    requires stands { StandsAtEnd end (spelled (entered entrant.now).origin cells.old seat.old.spot).term }
    ensures grows { Grows cells.old cells.new }
    ensures seat { IfOk result (λ done. IsSeat cells.new (entered entrant.now) seat.new) }
    ensures comes { IfOk result (λ done. Comes (player_handed (value_at end) (seat_of cells.old (entered entrant.now) seat.old)) done (seat_of cells.new (entered entrant.now) seat.new)) }
{
    pass_on(cells, entrant, seat, end)?;
    advance(cells, entrant, seat)
}

// Goes on from the end of a meeting at which the member stands, with its quiet steps alone.
fn pass_on(cells: &mut Cells, entrant: &Entrant, seat: &mut Seat, end: End) -> Result<(), NoMemory>
    requires seat { IsSeat cells.old (entered entrant.now) seat.old }
    requires stands { StandsAtEnd end (spelled (entered entrant.now).origin cells.old seat.old.spot).term }
    ensures grows { Grows cells.old cells.new }
    ensures seat { OnOk result (IsSeat cells.new (entered entrant.now) seat.new) }
    ensures passed { OnOk result (PassesOn (value_at end) (seat_of cells.old (entered entrant.now) seat.old) (seat_of cells.new (entered entrant.now) seat.new)) }
{
    match end {
        End::Sender => cells.sent(&entrant.posted, &mut seat.spot),
        End::Receiver(value) => cells.received(&entrant.posted, &mut seat.spot, value),
    }
}

// Takes the next letter at each choice, until it stands at none; answers whether it lacked no letter.
fn advance(cells: &mut Cells, entrant: &Entrant, seat: &mut Seat) -> Result<bool, NoMemory>
    requires seat { IsSeat cells.old (entered entrant.now) seat.old }
    ensures grows { Grows cells.old cells.new }
    ensures seat { IfOk result (λ done. IsSeat cells.new (entered entrant.now) seat.new) }
    ensures comes { IfOk result (λ done. Comes (seat_of cells.old (entered entrant.now) seat.old) done (seat_of cells.new (entered entrant.now) seat.new)) }
{
    'letters: while is_at_choice(&seat.spot) {
        let Some(left) = entrant.choices.get(seat.used) else {
            return Ok(false);
        };
        cells.choose(&entrant.posted, &mut seat.spot, *left)?;
        seat.used += 1;
    }
    Ok(true)
}

fn is_at_choice(spot: &Spot) -> bool
    ensures { IsTrue result ↔ (spot.now.stop ≡ Choice) }
{
    match spot.stop() {
        Stop::Choice => true,
        _ => false,
    }
}

/// The outcome of the member at place `i` in the end.
pub(crate) fn ending(
    cells: &Cells,
    i: u32,
    entrant: &Entrant,
    seat: &Seat,
) -> Result<Outcome, CertFault>
    requires { IsSeat cells.now (entered entrant.now) seat.now }
    ensures { TellsPart (ending i (outcome_of (spelled (entered entrant.now).origin cells.now seat.now.spot).term) (drop seat.now.used (entered entrant.now).letters)) result }
{
    let outcome = match seat.spot.stop() {
        Stop::Done(value) => Outcome::Gives(value),
        Stop::Raised(value) => Outcome::Raises(value),
        _ => return Err(CertFault::Unfinished(i)),
    };
    if seat.used < entrant.choices.len() {
        return Err(CertFault::Choices(i));
    }
    Ok(outcome)
}
