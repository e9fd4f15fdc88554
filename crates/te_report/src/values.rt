ghost use Rattle.std.specs.Prelude.{◌≡◌, ◌++◌, OnOk, drop};
ghost use Rattle.std.specs.Fmt.{decimal, signed_decimal};
ghost use Rattle.te_report.specs.Report.{name_of, channel_name, channel_text, atom_text, other_atoms, value_text, outcome_text};

use itoa::Buffer;
use te_script::Script;
use te_terms::{Atom, NoMemory, Outcome, Value};

/// The number of the first fresh channel; those of a script are below it.
const FIRST_FRESH: u32 = 1 << 30;

/// The name of a thread; empty where the script has no such thread.
pub(crate) fn thread_name(script: &Script, t: u32) -> &[u8]
    ensures { result.now ≡ name_of script.now t }
{
    match script.threads.get(t as usize) {
        Some(thread) => thread.name.bytes(),
        None => b"",
    }
}

/// The name of a channel; empty where the script has no such channel.
fn name_of_channel(script: &Script, c: u32) -> &[u8]
    ensures { result.now ≡ channel_name script.now c }
{
    match script.channels.get(c as usize) {
        Some(name) => name.bytes(),
        None => b"",
    }
}

pub(crate) fn put_number(out: &mut Vec<u8>, n: u64) -> Result<(), NoMemory>
    ensures { OnOk result (out.new.items ≡ out.old.items ++ decimal n) }
{
    out.extend_from_slice(Buffer::new().format(n).as_bytes())?;
    Ok(())
}

fn put_integer(out: &mut Vec<u8>, z: i64) -> Result<(), NoMemory>
    ensures { OnOk result (out.new.items ≡ out.old.items ++ signed_decimal z) }
{
    out.extend_from_slice(Buffer::new().format(z).as_bytes())?;
    Ok(())
}

// A fresh channel is spelled by the thread that made it, the ticket and the count.
fn put_channel(out: &mut Vec<u8>, script: &Script, c: u32) -> Result<(), NoMemory>
    ensures { OnOk result (out.new.items ≡ out.old.items ++ channel_text script.now c) }
{
    if c < FIRST_FRESH {
        out.extend_from_slice(name_of_channel(script, c))?;
        return Ok(());
    }
    let number = c - FIRST_FRESH;
    out.extend_from_slice(thread_name(script, number / 4_194_304))?;
    out.extend_from_slice(b".")?;
    put_number(out, (number / 16 % 262_144) as u64)?;
    out.extend_from_slice(b".")?;
    put_number(out, (number % 16) as u64)
}

fn put_atom(out: &mut Vec<u8>, script: &Script, atom: Atom) -> Result<(), NoMemory>
    ensures { OnOk result (out.new.items ≡ out.old.items ++ atom_text script.now atom) }
{
    match atom {
        Atom::Int(z) => put_integer(out, z),
        Atom::Chan(c) => {
            out.extend_from_slice(b"@")?;
            put_channel(out, script, c)
        }
    }
}

/// Appends the atoms behind the first, each after a comma.
#[tactic(auto, using(crate::proofs::ListRests::rests))]
fn put_other_atoms(out: &mut Vec<u8>, script: &Script, value: &Value) -> Result<(), NoMemory>
    ensures { OnOk result (out.new.items ≡ out.old.items ++ other_atoms script.now (drop 1 value.now)) }
{
    for d in 1..value.len() {
        let Some(atom) = value.get(d) else {
            return Ok(());
        };
        out.extend_from_slice(b",")?;
        put_atom(out, script, atom)?;
    }
    Ok(())
}

pub(crate) fn put_value(out: &mut Vec<u8>, script: &Script, value: &Value) -> Result<(), NoMemory>
    ensures { OnOk result (out.new.items ≡ out.old.items ++ value_text script.now value.now) }
{
    out.extend_from_slice(b"(")?;
    if let Some(first) = value.get(0) {
        put_atom(out, script, first)?;
        put_other_atoms(out, script, value)?;
    }
    out.extend_from_slice(b")")?;
    Ok(())
}

pub(crate) fn put_outcome(
    out: &mut Vec<u8>,
    script: &Script,
    outcome: &Outcome,
) -> Result<(), NoMemory>
    ensures { OnOk result (out.new.items ≡ out.old.items ++ outcome_text script.now outcome.now) }
{
    match outcome {
        Outcome::Gives(value) => {
            out.extend_from_slice(b"=")?;
            put_value(out, script, value)
        }
        Outcome::Raises(value) => {
            out.extend_from_slice(b"!")?;
            put_value(out, script, value)
        }
    }
}
