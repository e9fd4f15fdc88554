// A place in an event, and the walk over its quiet steps.

ghost use Rattle.std.specs.Prelude.{◌≡◌, ◌+◌, ◌<◌, ◌≤◌, length, IfOk, OnOk, OnErr};
ghost use Rattle.te_terms.specs.Shape.{IsForest};
ghost use Rattle.te_path.specs.Growth.{Grows};
ghost use Rattle.te_path.specs.Origins.{origin_of};
ghost use Rattle.te_path.specs.Paths.{HasFewFresh};
ghost use Rattle.te_path.specs.Places.{placed, ending_in, AreAround, IsPlace, nodes_left, left_at, Alike};
ghost use Rattle.te_path.specs.Spots.{spelled, stop_of, IsSpot};
ghost use Rattle.te_path.specs.Leading.{Turns};
ghost use Rattle.te_path.specs.Wents.{GoesOn, Keeps, ComesOn};

use crate::cells::Cells;
use crate::frames::{FrameCell, value_in};
use crate::fresh::fresh_value;
use crate::looking::{Next, Turn, look, stop_of_turn, turn_of};
use crate::posted::Posted;
use crate::spot::{Spot, Stop};
use te_terms::{NoMemory, Outcome};

/// A node as head, with the links of its inner values and its frames, and how many fresh channels have been
/// made.
#[derive(Clone, Copy)]
pub(crate) struct Place {
    pub(crate) node: u32,
    pub(crate) values: u32,
    pub(crate) frames: u32,
    pub(crate) count: u32,
}

// A place and what comes of its node.
#[derive(Clone, Copy)]
struct Down {
    place: Place,
    turn: Turn,
}

/// What one step leaves: another place, or nothing to do, with the spot written.
#[derive(Clone, Copy)]
pub(crate) enum Went {
    To(Place),
    At,
}

/// Makes all quiet steps.
pub(crate) fn settle(
    cells: &mut Cells,
    posted: &Posted,
    from: Place,
    spot: &mut Spot,
) -> Result<(), NoMemory>
    requires { IsPlace (origin_of posted.now) cells.old from }
    ensures grows { Grows cells.old cells.new }
    ensures spot { OnOk result (IsSpot (origin_of posted.now) cells.new spot.new) }
    ensures alike { OnOk result (Alike (placed (origin_of posted.now) cells.old from) (spelled (origin_of posted.now) cells.new spot.new)) }
    ensures err { OnErr result (spot.new ≡ spot.old) }
{
    let mut place = from;
    'all: loop {
        let down = descend(cells, posted, place)?;
        match arrive(cells, posted, down, spot)? {
            Went::To(next) => place = next,
            Went::At => return Ok(()),
        }
    }
}

// Goes on while the node at the head has a part that comes next. It holds no large value, so a turn of its loop is
// cheap.
#[inline(always)]
fn descend(cells: &mut Cells, posted: &Posted, from: Place) -> Result<Down, NoMemory>
    requires { IsPlace (origin_of posted.now) cells.old from }
    ensures grows { Grows cells.old cells.new }
    ensures ok { IfOk result (λ down. ComesOn (origin_of posted.now) (placed (origin_of posted.now) cells.old from) (nodes_left posted.now.code.now cells.old from) cells.new down.place) }
    ensures turn { IfOk result (λ down. Turns (origin_of posted.now) cells.new down.place down.turn) }
    ensures forest { IfOk result (λ down. IsForest posted.now.code.now) }
{
    let mut place = from;
    'down: loop {
        match turn_of(posted, cells, place) {
            Turn::Goes(node) => place.node = node,
            Turn::Enters(awaits, node, second) => {
                place.frames = cells.frames.push(FrameCell {
                    second,
                    values: place.values,
                    parent: place.frames,
                    awaits,
                })?;
                place.node = node;
            }
            turn => return Ok(Down { place, turn }),
        }
    }
}

// Writes the spot where the node rests, or goes on from it.
fn arrive(cells: &mut Cells, posted: &Posted, down: Down, spot: &mut Spot) -> Result<Went, NoMemory>
    requires place { IsPlace (origin_of posted.now) cells.old down.place }
    requires turn { Turns (origin_of posted.now) cells.old down.place down.turn }
    requires forest { IsForest posted.now.code.now }
    ensures grows { Grows cells.old cells.new }
    ensures ok { IfOk result (λ went. GoesOn (origin_of posted.now) (placed (origin_of posted.now) cells.old down.place)
        (nodes_left posted.now.code.now cells.old down.place) cells.new spot.new went) }
    ensures kept { IfOk result (Keeps spot.old spot.new) }
    ensures err { OnErr result (spot.new ≡ spot.old) }
{
    let place = down.place;
    match stop_of_turn(down.turn) {
        Some(stop) => {
            *spot = Spot {
                stop,
                node: place.node + 1,
                values: place.values,
                frames: place.frames,
                count: place.count,
            };
            Ok(Went::At)
        }
        None => step(cells, posted, place, spot),
    }
}

// Goes into the node at the head or makes its quiet step.
#[inline(never)]
fn step(cells: &mut Cells, posted: &Posted, place: Place, spot: &mut Spot) -> Result<Went, NoMemory>
    requires { IsPlace (origin_of posted.now) cells.old place }
    ensures grows { Grows cells.old cells.new }
    ensures ok { IfOk result (λ went. GoesOn (origin_of posted.now) (placed (origin_of posted.now) cells.old place) (nodes_left posted.now.code.now cells.old place) cells.new spot.new went) }
    ensures kept { IfOk result (Keeps spot.old spot.new) }
    ensures err { OnErr result (spot.new ≡ spot.old) }
{
    match look(posted, cells, place) {
        Next::Stays(stop) => {
            *spot = Spot {
                stop,
                node: place.node + 1,
                values: place.values,
                frames: place.frames,
                count: place.count,
            };
            Ok(Went::At)
        }
        Next::Goes(node) => Ok(Went::To(Place {
            node,
            values: place.values,
            frames: place.frames,
            count: place.count,
        })),
        Next::Enters(awaits, node, second) => {
            let frames = cells.frames.push(FrameCell {
                second,
                values: place.values,
                parent: place.frames,
                awaits,
            })?;
            Ok(Went::To(Place {
                node,
                values: place.values,
                frames,
                count: place.count,
            }))
        }
        Next::Ends(outcome) => end(cells, posted, place.count, place.frames, &outcome, spot),
        Next::Fresh => {
            let made = Outcome::Gives(fresh_value(posted, place.count));
            end(cells, posted, place.count + 1, place.frames, &made, spot)
        }
    }
}

/// Hands the outcome to the innermost frame that takes it; where none does, it is the end.
pub(crate) fn end(
    cells: &mut Cells,
    posted: &Posted,
    count: u32,
    frames: u32,
    outcome: &Outcome,
    spot: &mut Spot,
) -> Result<Went, NoMemory>
    requires around { AreAround posted.now.code.now cells.old 0 frames }
    requires few { HasFewFresh (ending_in (origin_of posted.now) cells.old count frames outcome.now) }
    ensures grows { Grows cells.old cells.new }
    ensures ok { IfOk result (λ went. GoesOn (origin_of posted.now) (ending_in (origin_of posted.now) cells.old count
        frames outcome.now) (1 + left_at posted.now.code.now cells.old frames) cells.new spot.new went) }
    ensures kept { IfOk result (Keeps spot.old spot.new) }
    ensures err { OnErr result (spot.new ≡ spot.old) }
{
    match cells.frames.unwind(frames, outcome) {
        None => {
            *spot = Spot {
                stop: stop_of(outcome),
                node: 0,
                values: 0,
                frames: 0,
                count,
            };
            Ok(Went::At)
        }
        Some(frame) => {
            let values = cells.values.push(value_in(outcome), frame.values)?;
            Ok(Went::To(Place {
                node: frame.second,
                values,
                frames: frame.parent,
                count,
            }))
        }
    }
}

// Where an ending stands.
fn stop_of(outcome: &Outcome) -> Stop
    ensures { result ≡ stop_of outcome.now }
{
    match outcome {
        Outcome::Gives(value) => Stop::Done(*value),
        Outcome::Raises(value) => Stop::Raised(*value),
    }
}
