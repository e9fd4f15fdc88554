ghost use Rattle.std.specs.Prelude.{◌≡◌, ◌≤◌, length, map};
ghost use Rattle.te_terms.specs.Codes.{primitive_of, calculation_of, expression_of};
ghost use Rattle.te_reader.specs.Integers.{integer_value};
ghost use Rattle.te_reader.specs.ExpressionReads.{read_place, read_inner_part, read_named, read_primitive, arith_first, read_calculation, read_calculations, read_tuple, read_expression};
ghost use Rattle.te_reader.specs.Answering.{AnswersRead, TakesSome};
ghost use Rattle.te_terms.specs.Limits.{most_atoms};

use crate::cursor::Cursor;
use crate::integer::integer;
use crate::refusal::Refusal;
use crate::scope::Names;
use crate::token::Sign;
use te_terms::{Arith, Calc, Calcs, Expr, MOST_ATOMS, Prim, Var};

// A place of a value: 0, 1, 2 or 3.
#[tactic(auto, unfolding(crate::specs::ExpressionReads::read_place, crate::specs::NameReads::integer_read))]
fn read_place(cursor: &mut Cursor<'_>) -> Result<u8, Refusal>
    ensures { AnswersRead result (λ d. d) cursor.old cursor.new (read_place cursor.old.tokens) }
{
    let Some(digits) = cursor.take_integer() else {
        return Err(Refusal::Refused);
    };
    match integer(digits) {
        Some(0) => Ok(0),
        Some(1) => Ok(1),
        Some(2) => Ok(2),
        Some(3) => Ok(3),
        _ => Err(Refusal::Refused),
    }
}

// A place of an inner name whose spelling begins with `_`.
#[tactic(auto, unfolding(crate::specs::ExpressionReads::read_inner_part))]
fn read_inner_part(cursor: &mut Cursor<'_>, names: &Names<'_, '_>) -> Result<Prim, Refusal>
    ensures { AnswersRead result primitive_of cursor.old cursor.new (read_inner_part names.now cursor.old.tokens) }
{
    let Some(name) = cursor.take_inner() else {
        return Err(Refusal::Refused);
    };
    let Some(level) = names.inner(name) else {
        return Err(Refusal::Refused);
    };
    if !cursor.take_sign(Sign::Dot) {
        return Err(Refusal::Refused);
    }
    let place = read_place(cursor)?;
    Ok(Prim::Part(Var::Inner(level), place))
}

// Behind a name: a place of its variable, or else the name is a channel's.
#[tactic(auto, unfolding(crate::specs::ExpressionReads::read_named))]
fn read_named(cursor: &mut Cursor<'_>, names: &Names<'_, '_>, name: &[u8]) -> Result<Prim, Refusal>
    ensures { AnswersRead result primitive_of cursor.old cursor.new (read_named names.now name.now cursor.old.tokens) }
{
    if !cursor.take_sign(Sign::Dot) {
        return match names.channel(name) {
            Some(channel) => Ok(Prim::Chan(channel)),
            None => Err(Refusal::Refused),
        };
    }
    let Some(variable) = names.variable(name) else {
        return Err(Refusal::Refused);
    };
    let place = read_place(cursor)?;
    Ok(Prim::Part(variable, place))
}

/// Reads an integer, a channel, or a place of a variable.
#[tactic(auto, unfolding(crate::specs::ExpressionReads::read_primitive))]
pub fn read_primitive(cursor: &mut Cursor<'_>, names: &Names<'_, '_>) -> Result<Prim, Refusal>
    ensures { AnswersRead result primitive_of cursor.old cursor.new (read_primitive names.now cursor.old.tokens) }
{
    if let Some(digits) = cursor.take_integer() {
        return match integer(digits) {
            Some(value) => Ok(Prim::Int(value)),
            None => Err(Refusal::Refused),
        };
    }
    match cursor.take_name() {
        Some(name) => read_named(cursor, names, name),
        None => read_inner_part(cursor, names),
    }
}

// Takes the sign of a sum, a difference or a product, where one stands here.
#[tactic(auto, unfolding(crate::specs::ExpressionReads::arith_first))]
fn take_arith(cursor: &mut Cursor<'_>) -> Option<Arith>
    ensures { TakesSome result cursor.old cursor.new (arith_first cursor.old.tokens) }
{
    if cursor.take_sign(Sign::Plus) {
        Some(Arith::Add)
    } else if cursor.take_sign(Sign::Minus) {
        Some(Arith::Sub)
    } else if cursor.take_sign(Sign::Star) {
        Some(Arith::Mul)
    } else {
        None
    }
}

// One primitive, or a sum, difference or product of two.
#[tactic(auto, unfolding(crate::specs::ExpressionReads::read_calculation))]
fn read_calculation(cursor: &mut Cursor<'_>, names: &Names<'_, '_>) -> Result<Calc, Refusal>
    ensures { AnswersRead result calculation_of cursor.old cursor.new (read_calculation names.now cursor.old.tokens) }
{
    let left = read_primitive(cursor, names)?;
    let Some(arith) = take_arith(cursor) else {
        return Ok(Calc::One(left));
    };
    let right = read_primitive(cursor, names)?;
    Ok(Calc::Op(arith, left, right))
}

// The calculations of a tuple, up to its end; there is at least one.
fn read_calculations(cursor: &mut Cursor<'_>, names: &Names<'_, '_>) -> Result<Calcs, Refusal>
    ensures { AnswersRead result (λ cs. map calculation_of cs) cursor.old cursor.new (read_calculations most_atoms names.now cursor.old.tokens) }
{
    let mut list = [Calc::One(Prim::Int(0)); MOST_ATOMS];
    for i in 0..MOST_ATOMS {
        let calculation = read_calculation(cursor, names)?;
        list[i] = calculation;
        if cursor.take_sign(Sign::Close) {
            return match Calcs::of(&list[..i + 1]) {
                Some(calcs) => Ok(calcs),
                None => Err(Refusal::Refused),
            };
        }
        if !cursor.take_sign(Sign::Comma) {
            return Err(Refusal::Refused);
        }
    }
    Err(Refusal::Refused)
}

// The inside of a tuple, up to its end.
#[tactic(auto, unfolding(crate::specs::ExpressionReads::read_tuple))]
fn read_tuple(cursor: &mut Cursor<'_>, names: &Names<'_, '_>) -> Result<Calcs, Refusal>
    ensures { AnswersRead result (λ cs. map calculation_of cs) cursor.old cursor.new (read_tuple names.now cursor.old.tokens) }
{
    if !cursor.take_sign(Sign::Close) {
        return read_calculations(cursor, names);
    }
    match Calcs::of(&[]) {
        Some(calcs) => Ok(calcs),
        None => Err(Refusal::Refused),
    }
}

/// Reads a whole variable or a tuple.
#[tactic(auto, unfolding(crate::specs::ExpressionReads::read_expression))]
pub fn read_expression(cursor: &mut Cursor<'_>, names: &Names<'_, '_>) -> Result<Expr, Refusal>
    ensures { AnswersRead result expression_of cursor.old cursor.new (read_expression names.now cursor.old.tokens) }
{
    if let Some(name) = cursor.take_name() {
        return match names.variable(name) {
            Some(variable) => Ok(Expr::Whole(variable)),
            None => Err(Refusal::Refused),
        };
    }
    if let Some(name) = cursor.take_inner() {
        return match names.inner(name) {
            Some(level) => Ok(Expr::Whole(Var::Inner(level))),
            None => Err(Refusal::Refused),
        };
    }
    if !cursor.take_sign(Sign::Open) {
        return Err(Refusal::Refused);
    }
    let calcs = read_tuple(cursor, names)?;
    Ok(Expr::Tuple(calcs))
}
