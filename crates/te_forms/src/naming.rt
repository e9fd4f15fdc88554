// Whether a term names a channel of a ring, read from its nodes.

ghost use Rattle.std.specs.Prelude.{◌≡◌, ◌↔◌, ◌<◌, ℕ, List, length, map, IsTrue};
ghost use Rattle.std.specs.List.{AllByRecursion};
ghost use Rattle.te_terms.specs.declared.value.Atom.{Atom};
ghost use Rattle.te_terms.specs.Expressions.{in_primitive, in_calculation, in_expression};
ghost use Rattle.te_terms.specs.Terms.{never, registers_to, replaced};
ghost use Rattle.te_terms.specs.Codes.{variable_of, primitive_of, calculation_of, expression_of};
ghost use Rattle.te_terms.specs.Kept.{formed, listed};
ghost use Rattle.te_terms.specs.Shape.{children};
ghost use Rattle.te_terms.specs.Views.{expression_seen, node_seen};
ghost use Rattle.te_forms.specs.Rings.{IsOnRing};
ghost use Rattle.te_forms.specs.Privacy.{AtomAvoids, ValueAvoids, VariableAvoids, PrimitiveAvoids, CalculationAvoids, ExpressionAvoids, TermAvoids};
ghost use Rattle.te_forms.specs.Reading.{replaced_under};

use crate::ring::Ring;
use te_terms::{Atom, Calc, EventCode, ExprView, NodeView, Prim, Value, Var};

fn channel_avoids(channel: u32, ring: &Ring) -> bool
    ensures { IsTrue result ↔ ¬ IsOnRing ring.now channel }
{
    match ring.role_on(channel) {
        Some(_) => false,
        None => true,
    }
}

fn atom_avoids(atom: Atom, ring: &Ring) -> bool
    ensures { IsTrue result ↔ AtomAvoids ring.now atom }
{
    match atom {
        Atom::Int(_) => true,
        Atom::Chan(c) => channel_avoids(c, ring),
    }
}

/// Whether no channel of the ring stands in the value.
pub(crate) fn value_avoids(value: &Value, ring: &Ring) -> bool
    ensures { IsTrue result ↔ ValueAvoids ring.now value.now }
{
    for d in 0..value.len() {
        let Some(atom) = value.get(d) else {
            return true;
        };
        if !atom_avoids(atom, ring) {
            return false;
        }
    }
    true
}

fn var_avoids(x: Var, regs: &[Value; 8], ring: &Ring) -> bool
    ensures { IsTrue result ↔ VariableAvoids ring.now (registers_to regs.now (variable_of x)) }
{
    match x {
        Var::Inner(_) => true,
        Var::Reg(r) => match regs.get(r as usize) {
            Some(value) => value_avoids(value, ring),
            None => true,
        },
    }
}

fn operand_avoids(p: Prim, regs: &[Value; 8], ring: &Ring) -> bool
    ensures { IsTrue result ↔ PrimitiveAvoids ring.now (in_primitive (registers_to regs.now) (primitive_of p)) }
{
    match p {
        Prim::Int(_) => true,
        Prim::Chan(c) => channel_avoids(c, ring),
        Prim::Part(x, _) => var_avoids(x, regs, ring),
    }
}

fn calc_avoids(calc: &Calc, regs: &[Value; 8], ring: &Ring) -> bool
    ensures { IsTrue result ↔ CalculationAvoids ring.now (in_calculation (registers_to regs.now) (calculation_of calc.now)) }
{
    match calc {
        Calc::One(p) => operand_avoids(*p, regs, ring),
        Calc::Op(_, p, q) => operand_avoids(*p, regs, ring) && operand_avoids(*q, regs, ring),
    }
}

fn calcs_avoid(calcs: &[Calc], regs: &[Value; 8], ring: &Ring) -> bool
    ensures { IsTrue result ↔ AllByRecursion (CalculationAvoids ring.now) (map (in_calculation (registers_to regs.now)) (map calculation_of calcs.now)) }
{
    match calcs {
        [] => true,
        [calc, rest @ ..] => calc_avoids(calc, regs, ring) && calcs_avoid(rest, regs, ring),
    }
}

fn expr_avoids(e: &ExprView, regs: &[Value; 8], ring: &Ring) -> bool
    ensures { IsTrue result ↔ ExpressionAvoids ring.now (in_expression (registers_to regs.now) (expression_of (expression_seen e.now))) }
{
    match e {
        ExprView::Whole(x) => var_avoids(*x, regs, ring),
        ExprView::Tuple(calcs) => calcs_avoid(calcs, regs, ring),
    }
}

// Whether the node itself names none, whatever its children.
fn node_avoids(node: &NodeView, regs: &[Value; 8], ring: &Ring) -> bool
    ensures { (level : ℕ) → IsTrue result ↔ TermAvoids ring.now (replaced (registers_to regs.now) (formed (node_seen node.now) level never never)) }
{
    match node {
        NodeView::Always(e) | NodeView::Throw(e) => expr_avoids(e, regs, ring),
        NodeView::Send(p, e) => operand_avoids(*p, regs, ring) && expr_avoids(e, regs, ring),
        NodeView::Recv(p) => operand_avoids(*p, regs, ring),
        NodeView::If(holds, _, _) => operand_avoids(holds.left, regs, ring)
            && operand_avoids(holds.right, regs, ring),
        NodeView::Never
        | NodeView::Fresh
        | NodeView::Then(_, _)
        | NodeView::Choose(_, _)
        | NodeView::Catch(_, _) => true,
    }
}

fn children_of(node: &NodeView) -> Option<(u32, u32)>
    ensures { listed result ≡ children (node_seen node.now) }
{
    match node {
        NodeView::Then(a, b)
        | NodeView::Choose(a, b)
        | NodeView::Catch(a, b)
        | NodeView::If(_, a, b) => Some((*a, *b)),
        NodeView::Always(_)
        | NodeView::Throw(_)
        | NodeView::Send(_, _)
        | NodeView::Recv(_)
        | NodeView::Never
        | NodeView::Fresh => None,
    }
}

/// Whether the term under a node names no channel of the ring. No path is longer than the height, which is at most 32. It
/// takes no memory.
pub(crate) fn avoids_under(code: &EventCode, i: u32, regs: &[Value; 8], ring: &Ring) -> bool
    requires { i < length code.now }
    ensures { (level : ℕ) → IsTrue result ↔ TermAvoids ring.now (replaced_under code.now regs.now level i) }
{
    let Some(node) = code.look(i) else {
        return true;
    };
    if !node_avoids(&node, regs, ring) {
        return false;
    }
    let Some((a, b)) = children_of(&node) else {
        return true;
    };
    if !avoids_under(code, a, regs, ring) {
        return false;
    }
    avoids_under(code, b, regs, ring)
}
