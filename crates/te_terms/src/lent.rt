// Nodes as a code lends them: their calculations lie in the code's own list, so that none is copied.

ghost use Rattle.std.specs.Prelude.{◌≡◌, ◌≤◌, length};
ghost use Rattle.te_terms.specs.Expressions.{in_expression, value_of};
ghost use Rattle.te_terms.specs.Codes.{expression_of};
ghost use Rattle.te_terms.specs.Shape.{children};
ghost use Rattle.te_terms.specs.Kept.{listed};
ghost use Rattle.te_terms.specs.Views.{expression_seen, node_seen, IsShort, IsShortNode};

use crate::code::Node;
use crate::expr::{Calc, Calcs, Cond, Expr, Operand, Scope, Var};
use crate::value::{Trap, Value};

/// An expression as a code lends it. It is public for the crates above alone.
#[doc(hidden)]
#[derive(Clone, Copy)]
pub enum ExprView<'a> {
    /// The whole value of a variable.
    Whole(Var),
    /// A tuple of calculations, at most four.
    Tuple(&'a [Calc]),
}

impl ExprView<'_> {
    /// The value of the expression in the scope, or the traps of `Expr::eval`.
    pub fn eval_in<S: Scope>(&self, scope: &S) -> Result<Value, Trap>
        requires { IsShort self.now }
        ensures { result ≡ value_of (in_expression (S.values scope.now) (expression_of (expression_seen self.now))) }
    {
        match self {
            ExprView::Whole(x) => match scope.find(*x) {
                Some(value) => Ok(*value),
                None => Err(Trap::Kind),
            },
            ExprView::Tuple(calcs) => {
                let mut value = Value::unit();
                for calc in *calcs {
                    value.push(calc.atom(scope)?);
                }
                Ok(value)
            }
        }
    }

    fn expr(&self) -> Expr
        requires { IsShort self.now }
        ensures { result ≡ expression_seen self.now }
    {
        match self {
            ExprView::Whole(x) => Expr::Whole(*x),
            ExprView::Tuple(calcs) => match Calcs::of(calcs) {
                Some(calcs) => Expr::Tuple(calcs),
                None => unreachable!(),
            },
        }
    }
}

// Its forms stand in another order than those of `Form`: a match on a view is then made one with the match that
// makes it, and a look at a node has one branch.
/// A node as a code lends it. It is public for the crates above alone.
#[doc(hidden)]
#[derive(Clone, Copy)]
pub enum NodeView<'a> {
    /// Has no step.
    Never,
    /// Gives a new channel.
    Fresh,
    /// Gives the expression's value.
    Always(ExprView<'a>),
    /// Raises the expression's value.
    Throw(ExprView<'a>),
    /// Sends the expression's value on the channel.
    Send(Operand, ExprView<'a>),
    /// Receives on the channel.
    Recv(Operand),
    /// The first part, and then the second.
    Then(u32, u32),
    /// The first part; where it raises, then the second.
    Catch(u32, u32),
    /// One of two parts.
    Choose(u32, u32),
    /// The first part where the condition holds, else the second.
    If(Cond, u32, u32),
}

impl NodeView<'_> {
    /// The node itself.
    pub(crate) fn node(&self) -> Node
        requires { IsShortNode self.now }
        ensures { result ≡ node_seen self.now }
    {
        match self {
            NodeView::Always(e) => Node::Always(e.expr()),
            NodeView::Never => Node::Never,
            NodeView::Throw(e) => Node::Throw(e.expr()),
            NodeView::Send(p, e) => Node::Send(*p, e.expr()),
            NodeView::Recv(p) => Node::Recv(*p),
            NodeView::Then(a, b) => Node::Then(*a, *b),
            NodeView::Choose(a, b) => Node::Choose(*a, *b),
            NodeView::Catch(a, b) => Node::Catch(*a, *b),
            NodeView::If(c, a, b) => Node::If(*c, *a, *b),
            NodeView::Fresh => Node::Fresh,
        }
    }

    pub(crate) fn children(&self) -> Option<(u32, u32)>
        ensures { listed result ≡ children (node_seen self.now) }
    {
        match self {
            NodeView::Then(a, b)
            | NodeView::Choose(a, b)
            | NodeView::Catch(a, b)
            | NodeView::If(_, a, b) => Some((*a, *b)),
            NodeView::Always(_)
            | NodeView::Never
            | NodeView::Throw(_)
            | NodeView::Send(_, _)
            | NodeView::Recv(_)
            | NodeView::Fresh => None,
        }
    }
}
