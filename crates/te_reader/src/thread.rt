ghost use Rattle.std.specs.Prelude.{◌≡◌, ◌<◌, ◌≤◌, true, false, [], ◌∷◌, length, map, IfOk, OnOk};
ghost use Rattle.std.specs.List.{AllByRecursion};
ghost use Rattle.te_script.specs.Texts.{RootIsNode};
ghost use Rattle.te_reader.specs.Bodies.{OnRead, AreRead, AreAppended, repeat_behind, more_behind};
ghost use Rattle.te_reader.specs.Reads.{named_body, read_body, read_thread, read_new_thread, read_threads};
ghost use Rattle.te_reader.specs.Answering.{AnswersRead};
ghost use Rattle.te_reader.specs.Tokens.{AreTokens};
ghost use Rattle.te_script.specs.Names.{IsName};
ghost use Rattle.te_terms.specs.Limits.{most_threads, most_registers};
ghost use Rattle.te_script.specs.Limits.{most_channels, most_statements};

use crate::channels::Channels;
use crate::cursor::Cursor;
use crate::names::place_of;
use crate::refusal::Refusal;
use crate::statement::{read_emit, read_times};
use crate::sync::read_syncs;
use crate::token::{Sign, Word};
use std::alloc::Global;
use std::sync::Arc;
use te_script::{MOST_STATEMENTS, Stmt, ThreadText};
use te_terms::{MOST_THREADS, Name, Rows};

// A thread behind its first word.
#[tactic(auto, unfolding(crate::specs::Reads::read_thread))]
fn read_thread(
    alloc: Global,
    cursor: &mut Cursor<'_>,
    channels: &Channels<'_>,
) -> Result<ThreadText, Refusal>
    requires { length channels.now ≤ most_channels }
    ensures { AnswersRead result (λ t. t) cursor.old cursor.new (read_thread channels.now cursor.old.tokens) }
{
    let Some(name) = cursor.take_name() else {
        return Err(Refusal::Refused);
    };
    let Some(name) = Name::of(name) else {
        return Err(Refusal::Refused);
    };
    if !cursor.take_sign(Sign::OpenBrace) {
        return Err(Refusal::Refused);
    }
    read_body(alloc, cursor, channels, name)
}

// The syncs of a repeat, up to its closing brace; there is at least one.
fn read_inside(
    alloc: Global,
    cursor: &mut Cursor<'_>,
    channels: &Channels<'_>,
    registers: &mut Rows<Name>,
    room: usize,
) -> Result<Vec<Stmt>, Refusal>
    requires { length registers.old ≤ most_registers }
    ensures read { OnRead result (λ syncs. AreRead room channels.now syncs.items registers.new cursor.new.tokens
        (read_body room channels.now true registers.old cursor.old.tokens))
        (read_body room channels.now true registers.old cursor.old.tokens) }
    ensures whole { OnOk result (cursor.new.whole ≡ cursor.old.whole) }
    ensures few { length registers.new ≤ most_registers }
    ensures roots { IfOk result (λ syncs. AllByRecursion RootIsNode syncs.items) }
{
    let mut syncs: Vec<Stmt> = Vec::new(alloc);
    'syncs: while syncs.len() < room {
        read_syncs(alloc, cursor, channels, registers, &mut syncs, room)?;
        if cursor.take_sign(Sign::CloseBrace) {
            return Ok(syncs);
        }
    }
    Err(Refusal::Refused)
}

// A repeat behind its word, with its syncs.
fn read_repeat(
    alloc: Global,
    cursor: &mut Cursor<'_>,
    channels: &Channels<'_>,
    registers: &mut Rows<Name>,
    stmts: &mut Vec<Stmt>,
) -> Result<(), Refusal>
    requires few { length registers.old ≤ most_registers }
    requires room { length stmts.old.items < most_statements }
    ensures read { OnRead result (λ u. AreAppended channels.now stmts.old.items stmts.new.items registers.new cursor.new.tokens
        (repeat_behind (length stmts.old.items) channels.now registers.old cursor.old.tokens))
        (repeat_behind (length stmts.old.items) channels.now registers.old cursor.old.tokens) }
    ensures whole { OnOk result (cursor.new.whole ≡ cursor.old.whole) }
    ensures few { length registers.new ≤ most_registers }
    ensures roots { AllByRecursion RootIsNode stmts.old.items → OnOk result (AllByRecursion RootIsNode stmts.new.items) }
{
    let times = read_times(cursor)?;
    let room = MOST_STATEMENTS - 1 - stmts.len();
    let mut syncs = read_inside(alloc, cursor, channels, registers, room)?;
    let count = syncs.len() as u32;
    stmts.push(Stmt::Repeat { times, count })?;
    stmts.append(&mut syncs)?;
    Ok(())
}

// A repeat with its syncs, an emit, or some syncs.
#[tactic(auto, unfolding(crate::specs::Reads::more_body))]
fn read_more(
    alloc: Global,
    cursor: &mut Cursor<'_>,
    channels: &Channels<'_>,
    registers: &mut Rows<Name>,
    stmts: &mut Vec<Stmt>,
) -> Result<(), Refusal>
    requires few { length registers.old ≤ most_registers }
    requires room { length stmts.old.items < most_statements }
    ensures read { OnRead result (λ u. AreAppended channels.now stmts.old.items stmts.new.items registers.new cursor.new.tokens
        (more_behind (length stmts.old.items) channels.now registers.old cursor.old.tokens))
        (more_behind (length stmts.old.items) channels.now registers.old cursor.old.tokens) }
    ensures whole { OnOk result (cursor.new.whole ≡ cursor.old.whole) }
    ensures few { length registers.new ≤ most_registers }
    ensures roots { AllByRecursion RootIsNode stmts.old.items → OnOk result (AllByRecursion RootIsNode stmts.new.items) }
{
    if cursor.take_word(Word::Repeat) {
        return read_repeat(alloc, cursor, channels, registers, stmts);
    }
    if cursor.take_word(Word::Emit) {
        let value = read_emit(alloc, cursor, channels, registers)?;
        stmts.push(Stmt::Emit(value))?;
        return Ok(());
    }
    read_syncs(alloc, cursor, channels, registers, stmts, MOST_STATEMENTS)
}

// The statements of a thread, up to its closing brace.
fn read_body(
    alloc: Global,
    cursor: &mut Cursor<'_>,
    channels: &Channels<'_>,
    name: Name,
) -> Result<ThreadText, Refusal>
    requires few { length channels.now ≤ most_channels }
    requires name { IsName name }
    requires tokens { AreTokens cursor.old.tokens }
    ensures { AnswersRead result (λ t. t) cursor.old cursor.new (named_body name (read_body most_statements channels.now false [] cursor.old.tokens)) }
{
    let mut regs = Rows::new(alloc);
    let mut stmts: Vec<Stmt> = Vec::new(alloc);
    'stmts: while !cursor.take_sign(Sign::CloseBrace) {
        if stmts.len() >= MOST_STATEMENTS {
            return Err(Refusal::Refused);
        }
        read_more(alloc, cursor, channels, &mut regs, &mut stmts)?;
    }
    let stmts = Rows::from(stmts);
    Ok(ThreadText { name, regs, stmts })
}

// A thread behind its first word, whose name is new. Its name is appended.
#[tactic(auto, unfolding(crate::specs::Reads::read_new_thread))]
fn read_new_thread(
    alloc: Global,
    cursor: &mut Cursor<'_>,
    channels: &Channels<'_>,
    names: &mut Rows<Name>,
) -> Result<Arc<ThreadText>, Refusal>
    requires { length channels.now ≤ most_channels }
    ensures { AnswersRead result (λ a. (a.value, names.new)) cursor.old cursor.new (read_new_thread channels.now names.old cursor.old.tokens) }
{
    let thread = read_thread(alloc, cursor, channels)?;
    let name = thread.name;
    if place_of(names.as_slice(), name.bytes()).is_some() {
        return Err(Refusal::Refused);
    }
    names.push(name)?;
    let thread = Arc::new(alloc, thread)?;
    Ok(thread)
}

/// Reads threads, up to where no word `thread` stands.
pub fn read_threads(
    alloc: Global,
    cursor: &mut Cursor<'_>,
    channels: &Channels<'_>,
) -> Result<Rows<Arc<ThreadText>>, Refusal>
    requires { length channels.now ≤ most_channels }
    ensures { AnswersRead result (λ ts. map (λ a. a.value) ts) cursor.old cursor.new (read_threads most_threads channels.now [] cursor.old.tokens) }
{
    let mut names: Rows<Name> = Rows::new(alloc);
    let mut threads = Rows::new(alloc);
    'threads: while cursor.take_word(Word::Thread) {
        if threads.len() >= MOST_THREADS {
            return Err(Refusal::Refused);
        }
        let thread = read_new_thread(alloc, cursor, channels, &mut names)?;
        threads.push(thread)?;
    }
    Ok(threads)
}
