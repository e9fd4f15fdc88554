ghost use Rattle.std.specs.Prelude.{◌≡◌, ◌↔◌, ◌<◌, ◌≤◌, length, IfSome, IsNone, Ok, Err, if◌then◌else◌};
ghost use Rattle.std.specs.Option.{option_copied, ok_or};
ghost use Rattle.te_terms.specs.declared.value.Atom.TheVariants.{Int};
ghost use Rattle.te_terms.specs.declared.value.Trap.TheVariants.{Range, Kind};
ghost use Rattle.te_terms.specs.Values.{arith_result, fits_i64};
ghost use Rattle.te_terms.specs.Expressions.{Variable, in_primitive, in_calculation, in_expression, variable_value, primitive_atom, channel_value, calculation_atom, value_of, compared, test_value};
ghost use Rattle.te_terms.specs.Limits.{most_atoms};
ghost use Rattle.te_terms.specs.Terms.{scoped};
ghost use Rattle.te_terms.specs.Codes.{variable_of, primitive_of, calculation_of, expression_of};
ghost use Rattle.te_terms.specs.Views.{expression_seen, IsShort};

use crate::lent::ExprView;
use crate::limits::MOST_ATOMS;
use crate::value::{Atom, Trap, Value};
use std::marker::Model;

/// A variable: a register from 0 to 7, or an inner name by its level, which is the number of inner names
/// that were in scope where it was bound.
#[derive(Clone, Copy, Debug, PartialEq, Eq)]
pub enum Var {
    Reg(u8),
    Inner(u8),
}

/// Where the variables of an expression find their values. It is public for the crates above alone, whose
/// inner values need not stand in a row.
#[doc(hidden)]
pub trait Scope {
    ghost values: { Self → Variable → Variable };

    /// The value of the variable, where it is in scope.
    fn find(&self, x: Var) -> Option<&Value>
        ensures { ok_or (option_copied result) Kind ≡ variable_value (values self.now (variable_of x)) };
}

// Registers, and inner values in a row, that of level 0 first.
#[derive(Clone, Copy)]
struct InRow<'a> {
    regs: &'a [Value; 8],
    inner: &'a [Value],
}

impl Scope for InRow<'_> {
    ghost values = { λ s. scoped s.regs.now s.inner.now };

    fn find(&self, x: Var) -> Option<&Value> {
        match x {
            Var::Reg(r) => {
                let regs = self.regs;
                regs.get(r as usize)
            }
            Var::Inner(n) => {
                let inner = self.inner;
                inner.get(n as usize)
            }
        }
    }
}

/// A primitive: an integer, a channel, or a place of a variable.
#[derive(Clone, Copy, Debug, PartialEq, Eq)]
pub enum Operand {
    Int(i64),
    Chan(u32),
    Part(Var, u8),
}

impl Operand {
    fn atom<S: Scope>(self, scope: &S) -> Result<Atom, Trap>
        ensures { result ≡ primitive_atom (in_primitive (S.values scope.now) (primitive_of self)) }
    {
        match self {
            Operand::Int(z) => Ok(Atom::Int(z)),
            Operand::Chan(c) => Ok(Atom::Chan(c)),
            Operand::Part(x, d) => {
                let Some(value) = scope.find(x) else {
                    return Err(Trap::Kind);
                };
                value.get(d as usize).ok_or(Trap::Kind)
            }
        }
    }

    /// The channel that the primitive names, over these registers and inner values (level 0 first). It
    /// traps with `Kind` where a place is missing, a variable isn't in scope, or the atom is no channel.
    pub fn channel(&self, regs: &[Value; 8], inner: &[Value]) -> Result<u32, Trap>
        ensures { result ≡ channel_value (in_primitive (scoped regs.now inner.now) (primitive_of self.now)) }
    {
        self.channel_in(&InRow { regs, inner })
    }

    /// The channel that the primitive names in the scope, or the same traps. It is public for the crates above
    /// alone.
    #[doc(hidden)]
    pub fn channel_in<S: Scope>(&self, scope: &S) -> Result<u32, Trap>
        ensures { result ≡ channel_value (in_primitive (S.values scope.now) (primitive_of self.now)) }
    {
        self.atom(scope)?.channel()
    }
}

/// What is done with two integers.
#[derive(Clone, Copy, Debug, PartialEq, Eq)]
pub enum Arith {
    Add,
    Sub,
    Mul,
}

impl Arith {
    fn of(self, x: i64, y: i64) -> Result<Atom, Trap>
        ensures { result ≡ (if fits_i64 (arith_result self x y) then Ok (Int (arith_result self x y)) else Err Range) }
    {
        let sum = match self {
            Arith::Add => x.checked_add(y),
            Arith::Sub => x.checked_sub(y),
            Arith::Mul => x.checked_mul(y),
        };
        match sum {
            Some(z) => Ok(Atom::Int(z)),
            None => Err(Trap::Range),
        }
    }
}

/// A calculation: one primitive, or a sum, difference or product of two.
#[derive(Clone, Copy, Debug, PartialEq, Eq)]
pub enum Calc {
    One(Operand),
    Op(Arith, Operand, Operand),
}

impl Calc {
    // Both operands are found before their kinds are tested.
    pub(crate) fn atom<S: Scope>(&self, scope: &S) -> Result<Atom, Trap>
        ensures { result ≡ calculation_atom (in_calculation (S.values scope.now) (calculation_of self.now)) }
    {
        match self {
            Calc::One(p) => p.atom(scope),
            Calc::Op(op, p, q) => {
                let a = p.atom(scope)?;
                let b = q.atom(scope)?;
                let x = a.integer()?;
                let y = b.integer()?;
                op.of(x, y)
            }
        }
    }
}

/// A list of 0 to 4 calculations, seen as the list of them.
#[derive(Clone, Copy, Debug, PartialEq, Eq)]
pub struct Calcs {
    len: u32,
    list: [Calc; MOST_ATOMS],
}

impl Model for Calcs {
    ghost use Rattle.std.specs.Prelude.{List, length, take, pos};
    ghost use Rattle.te_terms.specs.declared.expr.Calc.{Calc};
    ghost use Rattle.te_terms.specs.declared.expr.Calc.TheVariants.{One};
    ghost use Rattle.te_terms.specs.declared.expr.Operand.TheVariants.{Int};
    ghost use Rattle.te_terms.specs.Limits.{most_atoms};
    ghost use Rattle.te_terms.specs.Padding.{padded, IsPadded, length_back};

    ghost Value = { List Calc };

    ghost view = { λ v. take v.len v.list };

    ghost invariant = { λ v. IsPadded most_atoms (One (Int (pos 0))) v.len v.list };

    ghost inverse = { λ xs. record { len = length xs; list = padded most_atoms (One (Int (pos 0))) xs } };

    ghost inverse_ok = { λ a p. λ i. record { len = length_back p i; list = p.padded_so i } };
}

impl Calcs {
    /// The list of these calculations; `None` exactly where there are more than 4.
    pub fn of(list: &[Calc]) -> Option<Calcs>
        ensures some { IfSome result (λ calcs. calcs ≡ list.now) }
        ensures none { IsNone result ↔ (most_atoms < length list.now) }
    {
        if list.len() > MOST_ATOMS {
            return None;
        }
        let mut room = [Calc::One(Operand::Int(0)); MOST_ATOMS];
        room[..list.len()].copy_from_slice(list);
        Some(Calcs {
            len: list.len() as u32,
            list: room,
        })
    }

    /// The calculations, in order.
    pub fn as_slice(&self) -> &[Calc]
        ensures value { result.now ≡ self.now }
        ensures range { length self.now ≤ most_atoms }
    {
        &self.list[..self.len as usize]
    }
}

/// An expression: a whole variable, or a tuple of 0 to 4 calculations.
#[derive(Clone, Copy, Debug, PartialEq, Eq)]
pub enum Expr {
    Whole(Var),
    Tuple(Calcs),
}

impl Expr {
    /// The value of the expression over these registers and inner values (level 0 first), found from left
    /// to right. The first trap decides: `Kind` where a place is missing, a variable isn't in scope, or an
    /// operand is no integer; `Range` where a sum, difference or product lies outside 64 bits.
    pub fn eval(&self, regs: &[Value; 8], inner: &[Value]) -> Result<Value, Trap>
        ensures { result ≡ value_of (in_expression (scoped regs.now inner.now) (expression_of self.now)) }
    {
        self.lend().eval_in(&InRow { regs, inner })
    }

    fn lend(&self) -> ExprView<'_>
        ensures value { expression_seen result ≡ self.now }
        ensures short { IsShort result }
    {
        match self {
            Expr::Whole(x) => ExprView::Whole(*x),
            Expr::Tuple(calcs) => ExprView::Tuple(calcs.as_slice()),
        }
    }
}

/// What a condition asks: `=` of two atoms, or `<` of two integers.
#[derive(Clone, Copy, Debug, PartialEq, Eq)]
pub enum Test {
    Equal,
    Less,
}

impl Test {
    fn compares(self, a: Atom, b: Atom) -> Result<bool, Trap>
        ensures { result ≡ compared self a b }
    {
        match self {
            Test::Equal => Ok(a == b),
            Test::Less => {
                let x = a.integer()?;
                let y = b.integer()?;
                Ok(x < y)
            }
        }
    }
}

/// A condition on two primitives.
#[derive(Clone, Copy, Debug, PartialEq, Eq)]
pub struct Cond {
    pub test: Test,
    pub left: Operand,
    pub right: Operand,
}

impl Cond {
    /// Whether the condition holds over these registers and inner values (level 0 first). The left
    /// primitive is found first. It traps with `Kind` where a place is missing, a variable isn't in scope,
    /// or `<` meets a channel; `=` compares any two atoms, and those of different kinds are unequal.
    pub fn holds(&self, regs: &[Value; 8], inner: &[Value]) -> Result<bool, Trap>
        ensures { result ≡ test_value self.now.test (in_primitive (scoped regs.now inner.now) (primitive_of self.now.left)) (in_primitive (scoped regs.now inner.now) (primitive_of self.now.right)) }
    {
        self.holds_in(&InRow { regs, inner })
    }

    /// Whether the condition holds in the scope, or the same traps. It is public for the crates above alone.
    #[doc(hidden)]
    pub fn holds_in<S: Scope>(&self, scope: &S) -> Result<bool, Trap>
        ensures { result ≡ test_value self.now.test (in_primitive (S.values scope.now) (primitive_of self.now.left)) (in_primitive (S.values scope.now) (primitive_of self.now.right)) }
    {
        let a = self.left.atom(scope)?;
        let b = self.right.atom(scope)?;
        self.test.compares(a, b)
    }
}
