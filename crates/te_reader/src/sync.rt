// Syncs that stand one behind another. Their events share a code as long as it has room for the next one.

ghost use Rattle.std.specs.Prelude.{◌≡◌, ◌<◌, ◌≤◌, [], ◌++◌, length, map, IfOk, OnOk, IsErrOf};
ghost use Rattle.std.specs.List.{AllByRecursion};
ghost use Rattle.te_script.specs.Texts.{statement_of, RootIsNode};
ghost use Rattle.te_reader.specs.declared.refusal.Refusal.TheVariants.{Refused};
ghost use Rattle.te_reader.specs.Reads.{read_sync, read_written, register_of};
ghost use Rattle.te_reader.specs.Answering.{AnswersSync, DeclaresRegister, CodeExtends};
ghost use Rattle.te_reader.specs.Bodies.{OnRead};
ghost use Rattle.te_reader.specs.Written.{draft_of, IsDraft, AnswersDraft, AreDrafts, AreSyncsRead};
ghost use Rattle.te_terms.specs.Limits.{most_registers};

use crate::channels::Channels;
use crate::cursor::Cursor;
use crate::event::read_event;
use crate::names::{declare, place_of};
use crate::refusal::Refusal;
use crate::scope::Names;
use crate::token::{Sign, Word};
use std::alloc::Global;
use std::sync::Arc;
use te_script::Stmt;
use te_terms::{EventCode, GREATEST_HEIGHT, MOST_REGISTERS, Name, Rows};

/// A sync whose event is a node of a code that may still grow.
#[derive(Clone, Copy, Drop)]
pub struct Draft {
    pub reg: u8,
    pub root: u32,
}

// What stands behind the register of a sync, up to its `;`. The event's nodes are put behind those of the code.
#[tactic(auto, unfolding(crate::specs::Reads::read_sync))]
fn read_sync(
    alloc: Global,
    cursor: &mut Cursor<'_>,
    channels: &Channels<'_>,
    registers: &Rows<Name>,
    code: &mut EventCode,
) -> Result<u32, Refusal>
    requires { length registers.now ≤ most_registers }
    ensures event { AnswersSync result code.old code.new cursor.old cursor.new
        (read_sync channels.now registers.now cursor.old.tokens) }
    ensures extends { CodeExtends code.old code.new }
{
    if !cursor.take_sign(Sign::Arrow) || !cursor.take_word(Word::Sync) {
        return Err(Refusal::Refused);
    }
    let mut names = Names::new(alloc, channels, registers);
    let root = read_event(cursor, &mut names, code, GREATEST_HEIGHT)?;
    if !cursor.take_sign(Sign::Semicolon) {
        return Err(Refusal::Refused);
    }
    Ok(root)
}

// The number of a register, which is appended where it is a new one.
#[tactic(auto, unfolding(crate::specs::Reads::register_of))]
fn register_of(
    channels: &Channels<'_>,
    registers: &mut Rows<Name>,
    name: &[u8],
) -> Result<u8, Refusal>
    requires few { length registers.old ≤ most_registers }
    requires named { 0 < length name.now }
    ensures register { DeclaresRegister result registers.new (register_of channels.now registers.old name.now) }
    ensures few { length registers.new ≤ most_registers }
    ensures same { IsErrOf result Refused → registers.new ≡ registers.old }
{
    if channels.number_of(name).is_some() {
        return Err(Refusal::Refused);
    }
    if let Some(reg) = place_of(registers.as_slice(), name) {
        return Ok(reg as u8);
    }
    let reg = registers.len() as u8;
    declare(MOST_REGISTERS, registers, name)?;
    Ok(reg)
}

// A sync whose event's nodes are put behind those of the code. Its register is appended where it is a new one.
#[tactic(auto, unfolding(crate::specs::Reads::read_written))]
fn read_draft(
    alloc: Global,
    cursor: &mut Cursor<'_>,
    channels: &Channels<'_>,
    registers: &mut Rows<Name>,
    code: &mut EventCode,
) -> Result<Draft, Refusal>
    requires { length registers.old ≤ most_registers }
    ensures draft { AnswersDraft result channels.now registers.old registers.new code.old code.new cursor.old cursor.new }
    ensures extends { CodeExtends code.old code.new }
    ensures few { length registers.new ≤ most_registers }
{
    let Some(name) = cursor.take_name() else {
        return Err(Refusal::Refused);
    };
    let root = read_sync(alloc, cursor, channels, registers, code)?;
    let reg = register_of(channels, registers, name)?;
    Ok(Draft { reg, root })
}

// A sync, and those behind it whose events have room in the same code, in all at most so many.
fn read_drafts(
    alloc: Global,
    cursor: &mut Cursor<'_>,
    channels: &Channels<'_>,
    registers: &mut Rows<Name>,
    code: &mut EventCode,
    room: usize,
) -> Result<Vec<Draft>, Refusal>
    requires few { length registers.old ≤ most_registers }
    requires room { 0 < room }
    requires new { code.old ≡ [] }
    ensures read { OnRead result (λ ds. AreDrafts room channels.now registers.old cursor.old.tokens code.new ds.items registers.new cursor.new.tokens)
        (read_written channels.now registers.old cursor.old.tokens) }
    ensures whole { OnOk result (cursor.new.whole ≡ cursor.old.whole) }
    ensures few { length registers.new ≤ most_registers }
    ensures roots { IfOk result (λ ds. AllByRecursion (IsDraft code.new) ds.items) }
{
    let mut drafts: Vec<Draft> = Vec::new(alloc);
    let first = read_draft(alloc, cursor, channels, registers, code)?;
    drafts.push(first)?;
    'drafts: while drafts.len() < room {
        let mut ahead = cursor.copy();
        let _ = code.len();
        match read_draft(alloc, &mut ahead, channels, registers, code) {
            Ok(draft) => {
                *cursor = ahead;
                drafts.push(draft)?;
            }
            // It isn't a sync, or the code has no room for it.
            Err(Refusal::Refused) => return Ok(drafts),
            Err(Refusal::Memory) => return Err(Refusal::Memory),
        }
    }
    Ok(drafts)
}

// Appends the syncs of a code.
fn share(
    alloc: Global,
    code: EventCode,
    drafts: &[Draft],
    stmts: &mut Vec<Stmt>,
) -> Result<(), Refusal>
    requires { AllByRecursion (IsDraft code) drafts.now }
    ensures appended { OnOk result (map statement_of stmts.new.items ≡ map statement_of stmts.old.items ++ map (draft_of code) drafts.now) }
    ensures roots { AllByRecursion RootIsNode stmts.old.items → OnOk result (AllByRecursion RootIsNode stmts.new.items) }
    ensures never { IsErrOf result Refused → ⊥ }
{
    let shared = Arc::new(alloc, code)?;
    stmts.reserve(drafts.len())?;
    for draft in drafts {
        let code = Arc::try_clone(&shared)?;
        stmts.push(Stmt::Sync {
            reg: draft.reg,
            code,
            root: draft.root,
        })?;
    }
    Ok(())
}

/// Reads a sync, and those behind it whose events have room in the same code, and appends them to the statements, which
/// are then at most so many. The names of new registers are appended too.
pub fn read_syncs(
    alloc: Global,
    cursor: &mut Cursor<'_>,
    channels: &Channels<'_>,
    registers: &mut Rows<Name>,
    stmts: &mut Vec<Stmt>,
    most: usize,
) -> Result<(), Refusal>
    requires few { length registers.old ≤ most_registers }
    requires room { length stmts.old.items < most }
    ensures read { OnRead result (λ u. AreSyncsRead most channels.now registers.old cursor.old.tokens stmts.old.items stmts.new.items registers.new cursor.new.tokens)
        (read_written channels.now registers.old cursor.old.tokens) }
    ensures whole { OnOk result (cursor.new.whole ≡ cursor.old.whole) }
    ensures few { length registers.new ≤ most_registers }
    ensures roots { AllByRecursion RootIsNode stmts.old.items → OnOk result (AllByRecursion RootIsNode stmts.new.items) }
{
    let mut code = EventCode::new(alloc);
    let room = most - stmts.len();
    let drafts = read_drafts(alloc, cursor, channels, registers, &mut code, room)?;
    share(alloc, code, &drafts, stmts)
}
