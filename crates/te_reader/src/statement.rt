ghost use Rattle.std.specs.Prelude.{◌≤◌, length};
ghost use Rattle.te_terms.specs.Codes.{expression_of};
ghost use Rattle.te_reader.specs.Reads.{read_emit, read_times};
ghost use Rattle.te_reader.specs.Answering.{AnswersRead};
ghost use Rattle.te_terms.specs.Limits.{most_registers};

use crate::channels::Channels;
use crate::cursor::Cursor;
use crate::expression::read_expression;
use crate::integer::count;
use crate::refusal::Refusal;
use crate::scope::Names;
use crate::token::Sign;
use std::alloc::Global;
use te_terms::{Expr, Name, Rows};

/// Reads how often a repeat is done, and its brace.
#[tactic(auto, unfolding(crate::specs::Reads::read_times))]
pub fn read_times(cursor: &mut Cursor<'_>) -> Result<u32, Refusal>
    ensures { AnswersRead result (λ n. n) cursor.old cursor.new (read_times cursor.old.tokens) }
{
    let Some(digits) = cursor.take_integer() else {
        return Err(Refusal::Refused);
    };
    let Some(times) = count(digits) else {
        return Err(Refusal::Refused);
    };
    if !cursor.take_sign(Sign::OpenBrace) {
        return Err(Refusal::Refused);
    }
    Ok(times)
}

/// Reads what stands behind `emit`, up to its `;`.
#[tactic(auto, unfolding(crate::specs::Reads::read_emit))]
pub fn read_emit(
    alloc: Global,
    cursor: &mut Cursor<'_>,
    channels: &Channels<'_>,
    registers: &Rows<Name>,
) -> Result<Expr, Refusal>
    requires { length registers.now ≤ most_registers }
    ensures { AnswersRead result expression_of cursor.old cursor.new (read_emit channels.now registers.now cursor.old.tokens) }
{
    let value = read_expression(cursor, &Names::new(alloc, channels, registers))?;
    if !cursor.take_sign(Sign::Semicolon) {
        return Err(Refusal::Refused);
    }
    Ok(value)
}
