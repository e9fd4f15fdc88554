// Whether two nodes are the same over their registers, whatever their children.

ghost use Rattle.std.specs.Prelude.{◌≡◌, ◌↔◌, ◌<◌, ◌≤◌, ℕ, length, map, slice_get, IsTrue, MatchOption};
ghost use Rattle.std.specs.Option.{option_copied};
ghost use Rattle.te_terms.specs.Expressions.{known, in_primitive, in_calculation, in_expression};
ghost use Rattle.te_terms.specs.Terms.{never, replaced, registers_to};
ghost use Rattle.te_terms.specs.Codes.{variable_of, primitive_of, calculation_of, expression_of, term_at};
ghost use Rattle.te_terms.specs.Kept.{formed, Compares};
ghost use Rattle.te_terms.specs.Views.{expression_seen, node_seen};

use crate::code::EventCode;
use crate::expr::{Calc, Cond, Operand, Var};
use crate::lent::{ExprView, NodeView};
use crate::value::Value;

fn same_var(x: Var, regs: &[Value; 8], y: Var, others: &[Value; 8]) -> bool
    ensures { IsTrue result ↔ (registers_to regs.now (variable_of x) ≡ registers_to others.now (variable_of y)) }
{
    match register(x, regs) {
        Some(v) => match register(y, others) {
            Some(w) => *v == *w,
            None => false,
        },
        None => match register(y, others) {
            Some(_) => false,
            None => x == y,
        },
    }
}

// The value of a register; an inner name has none here.
fn register<'a>(x: Var, regs: &'a [Value; 8]) -> Option<&'a Value>
    ensures { MatchOption (option_copied result) (registers_to regs.now (variable_of x) ≡ variable_of x) (λ v. registers_to regs.now (variable_of x) ≡ known v) }
{
    match x {
        Var::Reg(r) => regs.get(r as usize),
        Var::Inner(_) => None,
    }
}

fn same_operand(p: Operand, regs: &[Value; 8], q: Operand, others: &[Value; 8]) -> bool
    ensures { IsTrue result ↔ (in_primitive (registers_to regs.now) (primitive_of p) ≡ in_primitive (registers_to others.now) (primitive_of q)) }
{
    match (p, q) {
        (Operand::Int(x), Operand::Int(y)) => x == y,
        (Operand::Chan(c), Operand::Chan(d)) => c == d,
        (Operand::Part(x, d), Operand::Part(y, e)) => d == e && same_var(x, regs, y, others),
        _ => false,
    }
}

fn same_calc(c: &Calc, regs: &[Value; 8], d: &Calc, others: &[Value; 8]) -> bool
    ensures { IsTrue result ↔ (in_calculation (registers_to regs.now) (calculation_of c.now) ≡ in_calculation (registers_to others.now) (calculation_of d.now)) }
{
    match (c, d) {
        (Calc::One(p), Calc::One(q)) => same_operand(*p, regs, *q, others),
        (Calc::Op(op, p, q), Calc::Op(other, r, s)) => {
            *op == *other
                && same_operand(*p, regs, *r, others)
                && same_operand(*q, regs, *s, others)
        }
        _ => false,
    }
}

fn same_calcs(list: &[Calc], regs: &[Value; 8], other: &[Calc], others: &[Value; 8]) -> bool
    ensures { IsTrue result ↔ (map (in_calculation (registers_to regs.now)) (map calculation_of list.now) ≡ map (in_calculation (registers_to others.now)) (map calculation_of other.now)) }
{
    match list {
        [] => other.is_empty(),
        [c, rest @ ..] => match other {
            [] => false,
            [d, others_rest @ ..] => same_calc(c, regs, d, others)
                && same_calcs(rest, regs, others_rest, others),
        },
    }
}

fn same_expr(e: &ExprView, regs: &[Value; 8], f: &ExprView, others: &[Value; 8]) -> bool
    ensures { IsTrue result ↔ (in_expression (registers_to regs.now) (expression_of (expression_seen e.now)) ≡ in_expression (registers_to others.now) (expression_of (expression_seen f.now))) }
{
    match e {
        ExprView::Whole(x) => match f {
            ExprView::Whole(y) => same_var(*x, regs, *y, others),
            ExprView::Tuple(_) => false,
        },
        ExprView::Tuple(cs) => match f {
            ExprView::Whole(_) => false,
            ExprView::Tuple(ds) => same_calcs(cs, regs, ds, others),
        },
    }
}

fn same_cond(c: &Cond, regs: &[Value; 8], d: &Cond, others: &[Value; 8]) -> bool
    ensures { IsTrue result ↔ ((c.now.test ≡ d.now.test)
        × (in_primitive (registers_to regs.now) (primitive_of c.now.left) ≡ in_primitive (registers_to others.now)
        (primitive_of d.now.left))
        × (in_primitive (registers_to regs.now) (primitive_of c.now.right) ≡ in_primitive (registers_to others.now)
        (primitive_of d.now.right))) }
{
    c.test == d.test
        && same_operand(c.left, regs, d.left, others)
        && same_operand(c.right, regs, d.right, others)
}

// Whether two nodes are the same but for their children.
fn same_node(m: &NodeView, regs: &[Value; 8], n: &NodeView, others: &[Value; 8]) -> bool
    ensures { (level : ℕ)
        → IsTrue result ↔ (replaced (registers_to regs.now) (formed (node_seen m.now) level never never) ≡ replaced
        (registers_to others.now) (formed (node_seen n.now) level never never)) }
{
    match (m, n) {
        (NodeView::Always(e), NodeView::Always(f)) | (NodeView::Throw(e), NodeView::Throw(f)) =>
            same_expr(e, regs, f, others),
        (NodeView::Send(p, e), NodeView::Send(q, f)) => same_operand(*p, regs, *q, others)
            && same_expr(e, regs, f, others),
        (NodeView::Recv(p), NodeView::Recv(q)) => same_operand(*p, regs, *q, others),
        (NodeView::If(c, _, _), NodeView::If(d, _, _)) => same_cond(c, regs, d, others),
        (NodeView::Never, NodeView::Never)
        | (NodeView::Fresh, NodeView::Fresh)
        | (NodeView::Then(_, _), NodeView::Then(_, _))
        | (NodeView::Choose(_, _), NodeView::Choose(_, _))
        | (NodeView::Catch(_, _), NodeView::Catch(_, _)) => true,
        _ => false,
    }
}

// Whether the terms under two nodes are the same. No path is longer than the height, which is at most 32.
pub(crate) fn same_under(
    code: &EventCode,
    i: u32,
    regs: &[Value; 8],
    other: &EventCode,
    j: u32,
    others: &[Value; 8],
) -> bool
    requires first { i < length code.now }
    requires second { j < length other.now }
    ensures { Compares result code.now i regs.now other.now j others.now }
{
    let (Some(m), Some(n)) = (code.look(i), other.look(j)) else {
        return false;
    };
    if !same_node(&m, regs, &n, others) {
        return false;
    }
    let Some((a, b)) = m.children() else {
        return true;
    };
    let Some((c, d)) = n.children() else {
        return true;
    };
    if !same_under(code, a, regs, other, c, others) {
        return false;
    }
    same_under(code, b, regs, other, d, others)
}
