// What comes of the node at the head of a place.

ghost use Rattle.std.specs.Prelude.{◌≡◌, ◌<◌, length, Some, slice_get};
ghost use Rattle.te_terms.specs.declared.event.Outcome.TheVariants.{Raises};
ghost use Rattle.te_terms.specs.Values.{trap_value};
ghost use Rattle.te_terms.specs.Shape.{IsForest};
ghost use Rattle.te_terms.specs.Views.{expression_seen, node_seen, IsShort, IsShortNode};
ghost use Rattle.te_path.specs.declared.looking.Next.TheVariants.{Ends};
ghost use Rattle.te_path.specs.Chains.{inner_at};
ghost use Rattle.te_path.specs.Origins.{origin_of};
ghost use Rattle.te_path.specs.Scopes.{channel_over, value_over};
ghost use Rattle.te_path.specs.Leading.{Leads, Turns, Sends, stop_of_turn};

use crate::cells::Cells;
use crate::frames::Awaits;
use crate::place::Place;
use crate::posted::Posted;
use crate::spot::Stop;
use crate::values::ValueCells;
use te_terms::{EventCode, ExprView, NodeView, Outcome, Prim, Scope, Trap, Value, Var};

/// What comes of the node at the head.
#[derive(Clone, Copy)]
pub(crate) enum Next {
    /// No quiet step is left.
    Stays(Stop),
    /// Another node takes its place.
    Goes(u32),
    /// Its first part comes first, and then its second.
    Enters(Awaits, u32, u32),
    /// It is final, or traps.
    Ends(Outcome),
    /// It makes a fresh channel.
    Fresh,
}

/// What comes of a node that gives no value.
#[derive(Clone, Copy)]
pub(crate) enum Turn {
    /// Another node takes its place.
    Goes(u32),
    /// Its first part comes first, and then its second.
    Enters(Awaits, u32, u32),
    /// It receives on the channel.
    Waits(u32),
    /// It is a choice.
    Chooses,
    /// It is `never`.
    Dead,
    /// It is for `look` to tell.
    Other,
}

/// The stop at a node that rests.
pub(crate) fn stop_of_turn(turn: Turn) -> Option<Stop>
    ensures { result ≡ stop_of_turn turn }
{
    match turn {
        Turn::Waits(channel) => Some(Stop::Recv(channel)),
        Turn::Chooses => Some(Stop::Choice),
        Turn::Dead => Some(Stop::Dead),
        Turn::Goes(_) | Turn::Enters(_, _, _) | Turn::Other => None,
    }
}

// What stands to be sent.
#[derive(Clone, Copy)]
struct Message {
    channel: u32,
    value: Value,
}

// Registers, and the inner values of a link.
#[derive(Clone, Copy)]
struct Linked<'a> {
    regs: &'a [Value; 8],
    values: &'a ValueCells,
    top: u32,
}

impl Scope for Linked<'_> {
    ghost use Rattle.te_terms.specs.Terms.{scoped};

    ghost values = { λ s. scoped s.regs.now (inner_at s.values.now s.top) };

    fn find(&self, x: Var) -> Option<&Value> {
        match x {
            Var::Reg(r) => {
                let regs = self.regs;
                regs.get(r as usize)
            }
            Var::Inner(n) => {
                let values = self.values;
                values.find(self.top, n)
            }
        }
    }
}

/// What comes of the node at the head.
pub(crate) fn look(posted: &Posted, cells: &Cells, place: Place) -> Next
    requires { place.node < length posted.now.code.now }
    ensures forest { IsForest posted.now.code.now }
    ensures leads { Leads (origin_of posted.now) cells.now place result }
{
    let scope = Linked {
        regs: posted.regs,
        values: &cells.values,
        top: place.values,
    };
    match node(posted.code, place.node) {
        NodeView::Always(e) => match e.eval_in(&scope) {
            Ok(value) => if place.frames == 0 {
                Next::Stays(Stop::Done(value))
            } else {
                Next::Ends(Outcome::Gives(value))
            },
            Err(trap) => raised(trap),
        },
        NodeView::Throw(e) => match e.eval_in(&scope) {
            Ok(value) => if place.frames == 0 {
                Next::Stays(Stop::Raised(value))
            } else {
                Next::Ends(Outcome::Raises(value))
            },
            Err(trap) => raised(trap),
        },
        NodeView::Send(p, e) => match to_send(&p, &e, &scope) {
            Ok(message) => Next::Stays(Stop::Send(message.channel, message.value)),
            Err(trap) => raised(trap),
        },
        NodeView::Recv(p) => match p.channel_in(&scope) {
            Ok(channel) => Next::Stays(Stop::Recv(channel)),
            Err(_) => raised(Trap::Kind),
        },
        NodeView::If(cond, a, b) => match cond.holds_in(&scope) {
            Ok(true) => Next::Goes(a),
            Ok(false) => Next::Goes(b),
            Err(trap) => raised(trap),
        },
        NodeView::Then(a, b) => Next::Enters(Awaits::Given, a, b),
        NodeView::Catch(a, b) => Next::Enters(Awaits::Raised, a, b),
        NodeView::Choose(_, _) => Next::Stays(Stop::Choice),
        NodeView::Never => Next::Stays(Stop::Dead),
        NodeView::Fresh => Next::Fresh,
    }
}

/// What comes of the node at the head where it gives no value and doesn't trap. It holds no large value.
pub(crate) fn turn_of(posted: &Posted, cells: &Cells, place: Place) -> Turn
    requires { place.node < length posted.now.code.now }
    ensures forest { IsForest posted.now.code.now }
    ensures turns { Turns (origin_of posted.now) cells.now place result }
{
    match node(posted.code, place.node) {
        NodeView::If(cond, a, b) => {
            let scope = Linked {
                regs: posted.regs,
                values: &cells.values,
                top: place.values,
            };
            match cond.holds_in(&scope) {
                Ok(true) => Turn::Goes(a),
                Ok(false) => Turn::Goes(b),
                Err(_) => Turn::Other,
            }
        }
        NodeView::Then(a, b) => Turn::Enters(Awaits::Given, a, b),
        NodeView::Catch(a, b) => Turn::Enters(Awaits::Raised, a, b),
        NodeView::Recv(p) => {
            let scope = Linked {
                regs: posted.regs,
                values: &cells.values,
                top: place.values,
            };
            match p.channel_in(&scope) {
                Ok(channel) => Turn::Waits(channel),
                Err(_) => Turn::Other,
            }
        }
        NodeView::Choose(_, _) => Turn::Chooses,
        NodeView::Never => Turn::Dead,
        NodeView::Always(_) | NodeView::Throw(_) | NodeView::Send(_, _) | NodeView::Fresh =>
            Turn::Other,
    }
}

/// The node of a number, where the code keeps it.
#[inline(always)]
pub(crate) fn node(code: &EventCode, i: u32) -> NodeView<'_>
    requires { i < length code.now }
    ensures is { slice_get code.now i ≡ Some (node_seen result) }
    ensures short { IsShortNode result }
    ensures forest { IsForest code.now }
{
    match code.look(i) {
        Some(node) => node,
        None => unreachable!(),
    }
}

// What a send sends: its channel traps first.
fn to_send(p: &Prim, e: &ExprView, scope: &Linked) -> Result<Message, Trap>
    requires { IsShort e.now }
    ensures { Sends (channel_over scope.now.regs.now (inner_at scope.now.values.now scope.now.top) p.now)
        (value_over scope.now.regs.now (inner_at scope.now.values.now scope.now.top) (expression_seen e.now)) result }
{
    let Ok(channel) = p.channel_in(scope) else {
        return Err(Trap::Kind);
    };
    let value = e.eval_in(scope)?;
    Ok(Message { channel, value })
}

// What comes of a trap.
fn raised(trap: Trap) -> Next
    ensures { result ≡ Ends (Raises (trap_value trap)) }
{
    Next::Ends(Outcome::Raises(trap.value()))
}
