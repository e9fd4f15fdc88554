ghost use Rattle.std.specs.Prelude.{length};
ghost use Rattle.te_terms.specs.Codes.{primitive_of};
ghost use Rattle.te_terms.specs.Shape.{HasFreeChildren};
ghost use Rattle.te_reader.specs.Tallies.{tally};
ghost use Rattle.te_reader.specs.EventReads.{read_one, test_first, read_condition};
ghost use Rattle.te_reader.specs.Answering.{AnswersRead, AnswersEvent, CodeExtends, TakesSome, Puts};

use crate::cursor::Cursor;
use crate::expression::{read_expression, read_primitive};
use crate::refusal::Refusal;
use crate::scope::Names;
use crate::token::{Sign, Word};
use te_terms::{CodeFault, Cond, EventCode, Node, Test};

// Takes the sign of a test, where one stands here.
#[tactic(auto, unfolding(crate::specs::EventReads::test_first))]
fn take_test(cursor: &mut Cursor<'_>) -> Option<Test>
    ensures { TakesSome result cursor.old cursor.new (test_first cursor.old.tokens) }
{
    if cursor.take_sign(Sign::Equal) {
        Some(Test::Equal)
    } else if cursor.take_sign(Sign::Less) {
        Some(Test::Less)
    } else {
        None
    }
}

/// Reads what an `if` asks.
#[tactic(auto, unfolding(crate::specs::EventReads::read_condition))]
pub fn read_condition(cursor: &mut Cursor<'_>, names: &Names<'_, '_>) -> Result<Cond, Refusal>
    ensures { AnswersRead result (λ c. (c.test, primitive_of c.left, primitive_of c.right)) cursor.old cursor.new
        (read_condition names.now cursor.old.tokens) }
{
    let left = read_primitive(cursor, names)?;
    let Some(test) = take_test(cursor) else {
        return Err(Refusal::Refused);
    };
    let right = read_primitive(cursor, names)?;
    Ok(Cond { test, left, right })
}

/// Reads an event that has no parts.
#[tactic(auto, unfolding(crate::specs::EventReads::read_one, crate::specs::EventReads::read_leaf))]
pub fn read_one(
    cursor: &mut Cursor<'_>,
    names: &Names<'_, '_>,
    code: &mut EventCode,
) -> Result<u32, Refusal>
    ensures event { AnswersEvent result (length names.now.inners) code.old code.new cursor.old cursor.new
        (read_one names.now (tally code.old) cursor.old.tokens) }
    ensures extends { CodeExtends code.old code.new }
{
    if cursor.take_word(Word::Always) {
        let value = read_expression(cursor, names)?;
        return put(code, Node::Always(value));
    }
    if cursor.take_word(Word::Send) {
        let channel = read_primitive(cursor, names)?;
        let value = read_expression(cursor, names)?;
        return put(code, Node::Send(channel, value));
    }
    if cursor.take_word(Word::Never) {
        return put(code, Node::Never);
    }
    if cursor.take_word(Word::Throw) {
        let value = read_expression(cursor, names)?;
        return put(code, Node::Throw(value));
    }
    if cursor.take_word(Word::Fresh) {
        return put(code, Node::Fresh);
    }
    if !cursor.take_word(Word::Recv) {
        return Err(Refusal::Refused);
    }
    let channel = read_primitive(cursor, names)?;
    put(code, Node::Recv(channel))
}

/// Puts a node behind the others, where the limits of an event allow it.
pub fn put(code: &mut EventCode, node: Node) -> Result<u32, Refusal>
    requires { HasFreeChildren code.old node }
    ensures puts { Puts result code.old code.new node }
    ensures extends { CodeExtends code.old code.new }
{
    let _ = code.len();
    let root = match code.push(node) {
        Ok(root) => root,
        Err(CodeFault::Memory) => return Err(Refusal::Memory),
        Err(CodeFault::Full) => return Err(Refusal::Refused),
        Err(CodeFault::Depth) => return Err(Refusal::Refused),
        Err(CodeFault::Child) => unreachable!(),
        Err(CodeFault::Fresh) => return Err(Refusal::Refused),
    };
    let _ = code.len();
    Ok(root)
}
