// The forms as events. What they do together is told by the meetings of a commit, in `handing`.

ghost use Rattle.std.specs.Prelude.{◌≡◌, ◌<◌, ◌≤◌, length, IfOk};
ghost use Rattle.te_forms.specs.Forms.{guarded_term, swap_term, barrier_term};
ghost use Rattle.te_forms.specs.Guards.{GuardHolds};

use crate::building::event_of;
use crate::ring::Ring;
use std::alloc::Global;
use te_terms::{Cond, Event, Expr, NoMemory, Node, Prim, Test, Value, Var};

/// A guarded receive: it receives on the channel, and gives what it received where the test of `bound`, on the left, and
/// the atom at `place` of it, from 0, on the right holds; else it can't happen. Condition: the place is 0 to 3. In each
/// commit it gives a value for which the test holds, or raises (-2) where the test traps: where the value has no such
/// place, or `Less` meets a channel. The one refusal is want of memory. Guarded receives are those of Donnelly and
/// Fluet, Transactional Events, JFP 18(5-6), 2008.
pub fn guarded(
    alloc: Global,
    channel: u32,
    place: u8,
    test: Test,
    bound: i64,
) -> Result<Event, NoMemory>
    requires { place ≤ 3 }
    ensures term { IfOk result (λ event. event ≡ guarded_term channel place test bound) }
    ensures held { IfOk result (λ event. GuardHolds place test bound event) }
{
    let holds = Cond {
        test,
        left: Prim::Int(bound),
        right: Prim::Part(Var::Inner(0), place),
    };
    let nodes = [
        Node::Recv(Prim::Chan(channel)),
        Node::Always(Expr::Whole(Var::Inner(0))),
        Node::Never,
        Node::If(holds, 1, 2),
        Node::Then(0, 3),
    ];
    event_of(alloc, &nodes, Value::unit())
}

/// A role's part in a swap: it sends the offer on the channel of its role, and gives what it receives on that of the role
/// before. Role 0 sends first, and each other role receives first, so that a swap of all roles happens as one, and no
/// fewer of them have one. Condition: the role is below the length of the ring. The one refusal is want of memory. This
/// project's own.
pub fn swap(alloc: Global, ring: &Ring, role: u32, offer: Value) -> Result<Event, NoMemory>
    requires { role < length ring.now }
    ensures { IfOk result (λ event. event ≡ swap_term ring.now role offer) }
{
    let sends = Node::Send(Prim::Chan(ring.channel(role)), Expr::Whole(Var::Reg(0)));
    let receives = Node::Recv(Prim::Chan(ring.channel_before(role)));
    if role == 0 {
        return event_of(alloc, &[sends, receives, Node::Then(0, 1)], offer);
    }
    let gives = Node::Always(Expr::Whole(Var::Inner(0)));
    event_of(
        alloc,
        &[receives, sends, gives, Node::Then(1, 2), Node::Then(0, 3)],
        offer,
    )
}

/// A role's part in a barrier, which gives () to each role once all are there: the swap of (), followed by `always ()`.
/// Condition: the role is below the length of the ring. The one refusal is want of memory. This project's own.
pub fn barrier(alloc: Global, ring: &Ring, role: u32) -> Result<Event, NoMemory>
    requires { role < length ring.now }
    ensures { IfOk result (λ event. event ≡ barrier_term ring.now role) }
{
    let sends = Node::Send(Prim::Chan(ring.channel(role)), Expr::Whole(Var::Reg(0)));
    let receives = Node::Recv(Prim::Chan(ring.channel_before(role)));
    let gives = Node::Always(Expr::Whole(Var::Reg(0)));
    let both = Node::Then(1, 2);
    let all = Node::Then(0, 3);
    if role == 0 {
        return event_of(alloc, &[sends, receives, gives, both, all], Value::unit());
    }
    event_of(alloc, &[receives, sends, gives, both, all], Value::unit())
}
