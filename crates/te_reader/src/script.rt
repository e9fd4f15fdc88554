ghost use Rattle.std.specs.Prelude.{◌≡◌, ◌≤◌, [], ◌∷◌, ◌⊎◌, length, IfOk, IfErr, Ok, Err};
ghost use Rattle.te_script.specs.Scripts.{Program};
ghost use Rattle.te_reader.specs.declared.fault.ScriptFault.{ScriptFault};
ghost use Rattle.te_reader.specs.declared.fault.ScriptFault.TheVariants.{Memory};
ghost use Rattle.te_reader.specs.Places.{HasFault};
ghost use Rattle.te_reader.specs.Text.{Text};
ghost use Rattle.te_reader.specs.Tokens.{AreTokens};
ghost use Rattle.te_reader.specs.Reads.{read_names, read_channels, read_program, read_text};
ghost use Rattle.te_reader.specs.Answering.{AnswersRead, AnswersText};
ghost use Rattle.te_script.specs.Limits.{most_channels};

use crate::channels::Channels;
use crate::cursor::Cursor;
use crate::fault::ScriptFault;
use crate::limits::MOST_BYTES;
use crate::refusal::Refusal;
use crate::telling::told;
use crate::thread::read_threads;
use crate::token::{Sign, Word};
use std::alloc::Global;
use te_script::Script;

// Names of channels, up to the `;`.
fn read_names<'a>(alloc: Global, cursor: &mut Cursor<'a>) -> Result<Channels<'a>, Refusal>
    ensures { AnswersRead result (λ c. c) cursor.old cursor.new (read_names most_channels [] cursor.old.tokens) }
{
    let mut channels = Channels::new(alloc);
    'names: while let Some(name) = cursor.take_name() {
        channels = channels.declare(name)?;
    }
    if !cursor.take_sign(Sign::Semicolon) {
        return Err(Refusal::Refused);
    }
    Ok(channels)
}

// The channels at the front of a script, where it has some.
#[tactic(auto, unfolding(crate::specs::Reads::read_channels))]
fn read_channels<'a>(alloc: Global, cursor: &mut Cursor<'a>) -> Result<Channels<'a>, Refusal>
    ensures channels { AnswersRead result (λ c. c) cursor.old cursor.new (read_channels cursor.old.tokens) }
    ensures few { IfOk result (λ c. length c ≤ most_channels) }
{
    if !cursor.take_word(Word::Channels) {
        return Ok(Channels::new(alloc));
    }
    let channels = read_names(alloc, cursor)?;
    if channels.is_empty() {
        return Err(Refusal::Refused);
    }
    Ok(channels)
}

#[tactic(auto, unfolding(crate::specs::Reads::read_program))]
fn read_program(alloc: Global, cursor: &mut Cursor<'_>) -> Result<Script, Refusal>
    requires { AreTokens cursor.old.tokens }
    ensures { AnswersRead result (λ s. s) cursor.old cursor.new (read_program cursor.old.tokens) }
{
    let channels = read_channels(alloc, cursor)?;
    let threads = read_threads(alloc, cursor, &channels)?;
    if threads.len() == 0 {
        return Err(Refusal::Refused);
    }
    Ok(Script {
        channels: channels.into_names(),
        threads,
    })
}

/// Reads the text of a script. The language is this project's own.
///
/// `Memory` comes where there was no memory, and tells nothing. Any other fault comes exactly where the text has
/// it: more than 1,048,576 bytes before all else, and then the first place in the text that has a fault, with the
/// lowest number there. The limits are 32 bytes a name, 256 channels, 64 threads, and in a thread 1,024 statements
/// and 8 registers; 4 calculations a tuple; in an event 4,096 nodes, height 32 and 16 fresh channels; and 10,000 times
/// a repeat. There is at most one script.
pub fn read_script(alloc: Global, bytes: &[u8]) -> Result<Script, ScriptFault>
    ensures ok { IfOk result (λ script. Text bytes.now script) }
    ensures one { IfOk result (λ script. (other : Program) → Text bytes.now other → other ≡ script) }
    ensures fault { IfErr result (λ e. (e ≡ Memory) ⊎ HasFault bytes.now e) }
    ensures faulty { (e : ScriptFault) → HasFault bytes.now e → (result ≡ Err e) ⊎ (result ≡ Err Memory) }
    ensures text { (script : Program) → Text bytes.now script → (result ≡ Ok script) ⊎ (result ≡ Err Memory) }
{
    match read_text(alloc, bytes) {
        Ok(script) => Ok(script),
        Err(Refusal::Memory) => Err(ScriptFault::Memory),
        Err(Refusal::Refused) => Err(told(alloc, bytes)),
    }
}

#[tactic(auto, unfolding(crate::specs::Reads::read_text))]
fn read_text(alloc: Global, bytes: &[u8]) -> Result<Script, Refusal>
    ensures { AnswersText result (read_text bytes.now) }
{
    if bytes.len() > MOST_BYTES {
        return Err(Refusal::Refused);
    }
    let mut cursor = Cursor::new(bytes);
    let script = read_program(alloc, &mut cursor)?;
    if !cursor.is_at_end() {
        return Err(Refusal::Refused);
    }
    Ok(script)
}
