// How a code keeps its nodes: small, since codes and walks read many, with their calculations in one list.

ghost use Rattle.std.specs.Prelude.{◌≡◌, ◌+◌, ◌<◌, ◌≤◌, [], ◌∷◌, ◌++◌, length, drop, vec_len, vec_capacity};
ghost use Rattle.te_terms.specs.Limits.{most_atoms, most_nodes};
ghost use Rattle.te_terms.specs.Slots.{outline_of, form_of, listed_in, calculations_of, primitive_in, expression_in, node_in, node_of, nodes_of, count_in, needed, IsFew, IsWithin, IsStored};
ghost use Rattle.te_terms.specs.Views.{expression_seen, node_seen, IsShort, IsShortNode};

use crate::code::Node;
use crate::expr::{Calc, Cond, Expr, Operand, Test, Var};
use crate::lent::{ExprView, NodeView};

/// An expression but for its calculations.
#[derive(Clone, Copy)]
pub(crate) enum Outline {
    Whole(Var),
    /// The number of its calculations.
    Tuple(u32),
}

impl Outline {
    fn of(expr: &Expr) -> Outline
        ensures value { result ≡ outline_of expr.now }
        ensures few { count_in result ≤ most_atoms }
    {
        match expr {
            Expr::Whole(x) => Outline::Whole(*x),
            Expr::Tuple(calcs) => Outline::Tuple(calcs.as_slice().len() as u32),
        }
    }

    fn count(self) -> usize
        ensures { result ≡ count_in self }
    {
        match self {
            Outline::Whole(_) => 0,
            Outline::Tuple(n) => n as usize,
        }
    }

    // The expression whose calculations stand first in the list.
    #[inline(always)]
    fn lend<'a>(self, list: &'a [Calc]) -> ExprView<'a>
        requires within { count_in self ≤ length list.now }
        requires few { count_in self ≤ most_atoms }
        ensures value { expression_seen result ≡ expression_in self list.now }
        ensures short { IsShort result }
    {
        match self {
            Outline::Whole(x) => ExprView::Whole(x),
            Outline::Tuple(n) => ExprView::Tuple(&list[..n as usize]),
        }
    }
}

/// A node but for its calculations: its own primitives, and then those of its expression.
#[derive(Clone, Copy)]
pub(crate) enum Form {
    Always(Outline),
    Never,
    Throw(Outline),
    Send(Outline),
    Recv,
    Then(u32, u32),
    Choose(u32, u32),
    Catch(u32, u32),
    If(Test, u32, u32),
    Fresh,
}

impl Form {
    pub(crate) fn of(node: &Node) -> Form
        ensures value { result ≡ form_of node.now }
        ensures few { IsFew result }
    {
        match node {
            Node::Always(e) => Form::Always(Outline::of(e)),
            Node::Never => Form::Never,
            Node::Throw(e) => Form::Throw(Outline::of(e)),
            Node::Send(_, e) => Form::Send(Outline::of(e)),
            Node::Recv(_) => Form::Recv,
            Node::Then(a, b) => Form::Then(*a, *b),
            Node::Choose(a, b) => Form::Choose(*a, *b),
            Node::Catch(a, b) => Form::Catch(*a, *b),
            Node::If(c, a, b) => Form::If(c.test, *a, *b),
            Node::Fresh => Form::Fresh,
        }
    }

    // The number of its calculations.
    pub(crate) fn needed(self) -> usize
        requires { IsFew self }
        ensures { result ≡ needed self }
    {
        match self {
            Form::Always(e) | Form::Throw(e) => e.count(),
            Form::Send(e) => 1 + e.count(),
            Form::Recv => 1,
            Form::If(_, _, _) => 2,
            _ => 0,
        }
    }

    // The node whose calculations stand first in the list.
    #[inline(always)]
    fn lend<'a>(self, list: &'a [Calc]) -> NodeView<'a>
        requires within { needed self ≤ length list.now }
        requires few { IsFew self }
        ensures value { node_seen result ≡ node_in self list.now }
        ensures short { IsShortNode result }
    {
        match self {
            Form::Always(e) => NodeView::Always(e.lend(list)),
            Form::Never => NodeView::Never,
            Form::Throw(e) => NodeView::Throw(e.lend(list)),
            Form::Send(e) => match list {
                [channel, rest @ ..] => NodeView::Send(primitive(channel), e.lend(rest)),
                [] => unreachable!(),
            },
            Form::Recv => match list {
                [channel, ..] => NodeView::Recv(primitive(channel)),
                [] => unreachable!(),
            },
            Form::Then(a, b) => NodeView::Then(a, b),
            Form::Choose(a, b) => NodeView::Choose(a, b),
            Form::Catch(a, b) => NodeView::Catch(a, b),
            Form::If(test, a, b) => match list {
                [left, right, ..] => NodeView::If(
                    Cond {
                        test,
                        left: primitive(left),
                        right: primitive(right),
                    },
                    a,
                    b,
                ),
                _ => unreachable!(),
            },
            Form::Fresh => NodeView::Fresh,
        }
    }
}

/// A node by its form and the place where its calculations begin.
#[derive(Clone, Copy, Drop)]
pub(crate) struct Slot {
    pub(crate) form: Form,
    pub(crate) from: u32,
}

impl Slot {
    #[inline(always)]
    pub(crate) fn lend<'a>(&self, list: &'a [Calc]) -> NodeView<'a>
        requires { IsWithin list.now self.now }
        ensures value { node_seen result ≡ node_of list.now self.now }
        ensures short { IsShortNode result }
    {
        self.form.lend(behind(list, self.from as usize))
    }
}

// The list from a place on.
fn behind(list: &[Calc], from: usize) -> &[Calc]
    requires { from ≤ length list.now }
    ensures { result.now ≡ drop from list.now }
{
    &list[from..]
}

// The primitive of a calculation that is one.
fn primitive(calc: &Calc) -> Operand
    ensures { result ≡ primitive_in calc.now }
{
    match calc {
        Calc::One(p) => *p,
        Calc::Op(_, p, _) => *p,
    }
}

/// Puts a node behind the others, for which there is room.
pub(crate) fn store(slots: &mut Vec<Slot>, list: &mut Vec<Calc>, node: &Node, form: Form)
    requires form { form ≡ form_of node.now }
    requires few_calculations { IsFew form }
    requires stored { IsStored slots.old.items list.old.items }
    requires few { length slots.old.items < most_nodes }
    requires room { vec_len slots.old < vec_capacity slots.old }
    requires list_room { vec_len list.old + needed form ≤ vec_capacity list.old }
    ensures nodes { nodes_of slots.new.items list.new.items ≡ nodes_of slots.old.items list.old.items ++ node.now ∷ [] }
    ensures stored { IsStored slots.new.items list.new.items }
{
    let from = list.len() as u32;
    put(list, node);
    slots.push_reserved(Slot { form, from });
}

// Puts the calculations of a node behind the others, for which there is room.
fn put(list: &mut Vec<Calc>, node: &Node)
    requires { vec_len list.old + length (calculations_of node.now) ≤ vec_capacity list.old }
    ensures { list.new.items ≡ list.old.items ++ calculations_of node.now }
{
    match node {
        Node::Always(e) | Node::Throw(e) => put_all(list, listed(e)),
        Node::Send(p, e) => {
            list.push_reserved(Calc::One(*p));
            put_all(list, listed(e));
        }
        Node::Recv(p) => list.push_reserved(Calc::One(*p)),
        Node::If(c, _, _) => {
            list.push_reserved(Calc::One(c.left));
            list.push_reserved(Calc::One(c.right));
        }
        _ => {}
    }
}

fn put_all(list: &mut Vec<Calc>, more: &[Calc])
    requires { vec_len list.old + length more.now ≤ vec_capacity list.old }
    ensures { list.new.items ≡ list.old.items ++ more.now }
{
    for calc in more {
        list.push_reserved(*calc);
    }
}

// The calculations of an expression.
fn listed(expr: &Expr) -> &[Calc]
    ensures { result.now ≡ listed_in expr.now }
{
    match expr {
        Expr::Whole(_) => &[],
        Expr::Tuple(calcs) => calcs.as_slice(),
    }
}
