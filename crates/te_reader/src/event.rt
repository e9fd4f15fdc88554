ghost use Rattle.std.specs.Prelude.{◌≡◌, ◌+◌, ◌<◌, ◌≤◌, length, OnOk};
ghost use Rattle.te_reader.specs.Grammar.{alone, in_do, in_choose};
ghost use Rattle.te_reader.specs.Tallies.{tally};
ghost use Rattle.te_reader.specs.EventReads.{read_event, read_braced, read_part, read_do, read_choose, read_try, read_if};
ghost use Rattle.te_reader.specs.Answering.{AnswersEvent, CodeExtends};
ghost use Rattle.te_terms.specs.Limits.{greatest_height};

use crate::cursor::Cursor;
use crate::node::{put, read_condition, read_one};
use crate::refusal::Refusal;
use crate::scope::Names;
use crate::token::{Sign, Word};
use te_terms::{EventCode, Node};

/// Reads an event in at most so many layers, and answers the number of its root.
#[cycle(event)]
#[tactic(auto, unfolding(crate::specs::EventReads::read_event, crate::specs::EventReads::read_alone))]
pub fn read_event(
    cursor: &mut Cursor<'_>,
    names: &mut Names<'_, '_>,
    code: &mut EventCode,
    layers: u32,
) -> Result<u32, Refusal>
    requires { length names.old.inners + layers ≤ greatest_height }
    ensures event { AnswersEvent result (length names.old.inners) code.old code.new cursor.old cursor.new
        (read_event layers alone names.old (tally code.old) cursor.old.tokens) }
    ensures names { OnOk result (names.new ≡ names.old) }
    ensures extends { CodeExtends code.old code.new }
{
    if layers == 0 {
        return Err(Refusal::Refused);
    }
    if cursor.take_word(Word::Do) {
        return read_do(cursor, names, code, layers - 1);
    }
    if cursor.take_word(Word::Choose) {
        return read_choose(cursor, names, code, layers - 1);
    }
    if cursor.take_word(Word::Try) {
        return read_try(cursor, names, code, layers - 1);
    }
    if cursor.take_word(Word::If) {
        return read_if(cursor, names, code, layers - 1);
    }
    read_one(cursor, names, code)
}

// An event in braces.
#[cycle(event)]
#[tactic(auto, unfolding(crate::specs::EventReads::read_braced))]
fn read_braced(
    cursor: &mut Cursor<'_>,
    names: &mut Names<'_, '_>,
    code: &mut EventCode,
    layers: u32,
) -> Result<u32, Refusal>
    requires { length names.old.inners + layers ≤ greatest_height }
    ensures event { AnswersEvent result (length names.old.inners) code.old code.new cursor.old cursor.new
        (read_braced (read_event layers) names.old (tally code.old) cursor.old.tokens) }
    ensures names { OnOk result (names.new ≡ names.old) }
    ensures extends { CodeExtends code.old code.new }
{
    if !cursor.take_sign(Sign::OpenBrace) {
        return Err(Refusal::Refused);
    }
    let root = read_event(cursor, names, code, layers)?;
    if !cursor.take_sign(Sign::CloseBrace) {
        return Err(Refusal::Refused);
    }
    Ok(root)
}

// The parts of a `do`, behind its word.
#[cycle(event)]
#[tactic(auto, unfolding(crate::specs::EventReads::read_do))]
fn read_do(
    cursor: &mut Cursor<'_>,
    names: &mut Names<'_, '_>,
    code: &mut EventCode,
    layers: u32,
) -> Result<u32, Refusal>
    requires { length names.old.inners + layers < greatest_height }
    ensures event { AnswersEvent result (length names.old.inners) code.old code.new cursor.old cursor.new
        (read_do (read_event layers) names.old (tally code.old) cursor.old.tokens) }
    ensures names { OnOk result (names.new ≡ names.old) }
    ensures extends { CodeExtends code.old code.new }
{
    if !cursor.take_sign(Sign::OpenBrace) {
        return Err(Refusal::Refused);
    }
    let Some(name) = cursor.take_bound() else {
        return Err(Refusal::Refused);
    };
    read_part(cursor, names, code, layers, name)
}

// A part of a `do`, behind its name, and what goes on behind it. The name is in scope there, and not in
// the part itself.
#[cycle(event)]
#[tactic(auto, unfolding(crate::specs::EventReads::read_part))]
fn read_part(
    cursor: &mut Cursor<'_>,
    names: &mut Names<'_, '_>,
    code: &mut EventCode,
    layers: u32,
    name: &[u8],
) -> Result<u32, Refusal>
    requires room { length names.old.inners + layers < greatest_height }
    requires named { 0 < length name.now }
    ensures event { AnswersEvent result (length names.old.inners) code.old code.new cursor.old cursor.new
        (read_part (read_event layers) names.old (tally code.old) name.now cursor.old.tokens) }
    ensures names { OnOk result (names.new ≡ names.old) }
    ensures extends { CodeExtends code.old code.new }
{
    if !cursor.take_sign(Sign::Arrow) {
        return Err(Refusal::Refused);
    }
    let first = read_event(cursor, names, code, layers)?;
    if !cursor.take_sign(Sign::Semicolon) {
        return Err(Refusal::Refused);
    }
    names.bind(name)?;
    let second = read_rest(cursor, names, code, layers)?;
    names.unbind();
    put(code, Node::Then(first, second))
}

// What stands behind a part of a `do`: one part more, or the last event, up to the closing brace.
#[cycle(event)]
#[tactic(auto, unfolding(crate::specs::EventReads::read_event, crate::specs::EventReads::read_in_do))]
fn read_rest(
    cursor: &mut Cursor<'_>,
    names: &mut Names<'_, '_>,
    code: &mut EventCode,
    layers: u32,
) -> Result<u32, Refusal>
    requires { length names.old.inners + layers ≤ greatest_height }
    ensures event { AnswersEvent result (length names.old.inners) code.old code.new cursor.old cursor.new
        (read_event layers in_do names.old (tally code.old) cursor.old.tokens) }
    ensures names { OnOk result (names.new ≡ names.old) }
    ensures extends { CodeExtends code.old code.new }
{
    if layers == 0 {
        return Err(Refusal::Refused);
    }
    if let Some(name) = cursor.take_bound() {
        return read_part(cursor, names, code, layers - 1, name);
    }
    let root = read_event(cursor, names, code, layers)?;
    if !cursor.take_sign(Sign::CloseBrace) {
        return Err(Refusal::Refused);
    }
    Ok(root)
}

// The events of a `choose`, behind its word. There are at least two.
#[cycle(event)]
#[tactic(auto, unfolding(crate::specs::EventReads::read_choose, crate::specs::EventReads::read_second))]
fn read_choose(
    cursor: &mut Cursor<'_>,
    names: &mut Names<'_, '_>,
    code: &mut EventCode,
    layers: u32,
) -> Result<u32, Refusal>
    requires { length names.old.inners + layers ≤ greatest_height }
    ensures event { AnswersEvent result (length names.old.inners) code.old code.new cursor.old cursor.new
        (read_choose (read_event layers) names.old (tally code.old) cursor.old.tokens) }
    ensures names { OnOk result (names.new ≡ names.old) }
    ensures extends { CodeExtends code.old code.new }
{
    if !cursor.take_sign(Sign::OpenBrace) {
        return Err(Refusal::Refused);
    }
    let first = read_event(cursor, names, code, layers)?;
    if !cursor.take_sign(Sign::Bar) {
        return Err(Refusal::Refused);
    }
    let second = read_more(cursor, names, code, layers)?;
    put(code, Node::Choose(first, second))
}

// What stands behind a bar of a `choose`: an event, and then a bar and more, or the closing brace.
#[cycle(event)]
#[tactic(auto, unfolding(crate::specs::EventReads::read_event, crate::specs::EventReads::read_in_choose, crate::specs::EventReads::read_second))]
fn read_more(
    cursor: &mut Cursor<'_>,
    names: &mut Names<'_, '_>,
    code: &mut EventCode,
    layers: u32,
) -> Result<u32, Refusal>
    requires { length names.old.inners + layers ≤ greatest_height }
    ensures event { AnswersEvent result (length names.old.inners) code.old code.new cursor.old cursor.new
        (read_event layers in_choose names.old (tally code.old) cursor.old.tokens) }
    ensures names { OnOk result (names.new ≡ names.old) }
    ensures extends { CodeExtends code.old code.new }
{
    if layers == 0 {
        return Err(Refusal::Refused);
    }
    let first = read_event(cursor, names, code, layers)?;
    if cursor.take_sign(Sign::Bar) {
        let second = read_more(cursor, names, code, layers - 1)?;
        return put(code, Node::Choose(first, second));
    }
    if !cursor.take_sign(Sign::CloseBrace) {
        return Err(Refusal::Refused);
    }
    Ok(first)
}

// The two events of a `try`, behind its word. The name of the `catch` is in scope in its event.
#[cycle(event)]
#[tactic(auto, unfolding(crate::specs::EventReads::read_try))]
fn read_try(
    cursor: &mut Cursor<'_>,
    names: &mut Names<'_, '_>,
    code: &mut EventCode,
    layers: u32,
) -> Result<u32, Refusal>
    requires { length names.old.inners + layers < greatest_height }
    ensures event { AnswersEvent result (length names.old.inners) code.old code.new cursor.old cursor.new
        (read_try (read_event layers) names.old (tally code.old) cursor.old.tokens) }
    ensures names { OnOk result (names.new ≡ names.old) }
    ensures extends { CodeExtends code.old code.new }
{
    let first = read_braced(cursor, names, code, layers)?;
    if !cursor.take_word(Word::Catch) {
        return Err(Refusal::Refused);
    }
    let Some(name) = cursor.take_bound() else {
        return Err(Refusal::Refused);
    };
    names.bind(name)?;
    let second = read_braced(cursor, names, code, layers)?;
    names.unbind();
    put(code, Node::Catch(first, second))
}

// The condition and the two events of an `if`, behind its word.
#[cycle(event)]
#[tactic(auto, unfolding(crate::specs::EventReads::read_if))]
fn read_if(
    cursor: &mut Cursor<'_>,
    names: &mut Names<'_, '_>,
    code: &mut EventCode,
    layers: u32,
) -> Result<u32, Refusal>
    requires { length names.old.inners + layers ≤ greatest_height }
    ensures event { AnswersEvent result (length names.old.inners) code.old code.new cursor.old cursor.new
        (read_if (read_event layers) names.old (tally code.old) cursor.old.tokens) }
    ensures names { OnOk result (names.new ≡ names.old) }
    ensures extends { CodeExtends code.old code.new }
{
    let condition = read_condition(cursor, names)?;
    let first = read_braced(cursor, names, code, layers)?;
    if !cursor.take_word(Word::Else) {
        return Err(Refusal::Refused);
    }
    let second = read_braced(cursor, names, code, layers)?;
    put(code, Node::If(condition, first, second))
}
