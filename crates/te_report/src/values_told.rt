// Values and outcomes as a line tells them.

ghost use Rattle.std.specs.Prelude.{◌≡◌, ◌≤◌, ◌++◌, length, map, IfOk, OnOk};
ghost use Rattle.te_report.specs.Sayings.{said_channel, said_atom, said_value, said_outcome, said_values, cut_behind, words, few_atoms};

use crate::cutting::{behind, cut, up_to};
use crate::names::{Called, thread};
use crate::numbers::{integer, number, ticket};
use std::alloc::Global;
use te_terms::{Atom, NoMemory, Outcome, Rows, Value};

/// The number of the first fresh channel; those of a script are below it.
const FIRST_FRESH: u32 = 1 << 30;

// A channel by its name, of which this stands behind the first dot: that of a fresh one is by thread, ticket and count.
fn read_channel(called: &Called, name: &[u8], tail: &[u8]) -> Option<u32>
    requires threads { length called.now.threads ≤ 64 }
    requires channels { length called.now.channels ≤ 256 }
    ensures { result ≡ said_channel called.now name.now tail.now }
{
    if tail.is_empty() {
        return match called.channels.place(name) {
            Some(i) => Some(i as u32),
            None => None,
        };
    }
    let (under, count) = cut(tail, b'.');
    let made = thread(called, up_to(name, b'.')) % 64 * 262_144 + ticket(under) % 262_144;
    Some(FIRST_FRESH + made * 16 + (number(count) % 16) as u32)
}

fn read_atom(called: &Called, word: &[u8]) -> Atom
    requires threads { length called.now.threads ≤ 64 }
    requires channels { length called.now.channels ≤ 256 }
    ensures { result ≡ said_atom called.now word.now }
{
    match word {
        [b'@', name @ ..] => match read_channel(called, name, behind(name, b'.')) {
            Some(c) => Atom::Chan(c),
            None => Atom::Int(0),
        },
        [_, ..] => Atom::Int(integer(word)),
        [] => Atom::Int(0),
    }
}

// The value of these atoms.
fn value_of(atoms: &[Atom]) -> Value
    requires { length atoms.now ≤ 4 }
    ensures { result ≡ atoms.now }
{
    match Value::of(atoms) {
        Some(value) => value,
        None => unreachable!(),
    }
}

// The atoms that commas separate; none where they are too many for a value.
fn read_atoms(called: &Called, text: &[u8]) -> Value
    requires threads { length called.now.threads ≤ 64 }
    requires channels { length called.now.channels ≤ 256 }
    ensures { result ≡ few_atoms (map (said_atom called.now) (words 44 text.now)) }
{
    let mut atoms = [Atom::Int(0); 4];
    let mut len = 0;
    let mut rest = text;
    'words: while !rest.is_empty() {
        if len == 4 {
            return Value::unit();
        }
        let (word, next) = cut(rest, b',');
        atoms[len] = read_atom(called, word);
        len += 1;
        rest = next;
    }
    value_of(&atoms[..len])
}

#[tactic(auto, unfolding(crate::specs::Sayings::said_value))]
pub(crate) fn read_value(called: &Called, text: &[u8]) -> Value
    requires threads { length called.now.threads ≤ 64 }
    requires channels { length called.now.channels ≤ 256 }
    ensures { result ≡ said_value called.now text.now }
{
    read_atoms(called, up_to(behind(text, b'('), b')'))
}

pub(crate) fn read_outcome(called: &Called, text: &[u8]) -> Outcome
    requires threads { length called.now.threads ≤ 64 }
    requires channels { length called.now.channels ≤ 256 }
    ensures { result ≡ said_outcome called.now text.now }
{
    match text {
        [b'!', value @ ..] => Outcome::Raises(read_value(called, value)),
        [_, value @ ..] => Outcome::Gives(read_value(called, value)),
        [] => Outcome::Gives(Value::unit()),
    }
}

/// The values that spaces separate.
pub(crate) fn read_values(
    alloc: Global,
    called: &Called,
    text: &[u8],
) -> Result<Rows<Value>, NoMemory>
    requires threads { length called.now.threads ≤ 64 }
    requires channels { length called.now.channels ≤ 256 }
    ensures { IfOk result (λ values. values ≡ said_values called.now text.now) }
{
    let mut values = Rows::new(alloc);
    let mut rest = text;
    'words: while !rest.is_empty() {
        let (word, next) = cut(rest, b' ');
        values.push(read_value(called, word))?;
        rest = next;
    }
    Ok(values)
}
