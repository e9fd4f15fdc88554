ghost use Rattle.std.specs.Prelude.{◌≡◌, ◌≤◌, length, map, IfOk};
ghost use Rattle.te_script.specs.Scripts.{thread_names, IsScript};
ghost use Rattle.te_report.specs.Sayings.{said_thread};

use crate::indexed::IndexedNames;
use std::alloc::Global;
use te_script::Script;
use te_terms::{Name, NoMemory, Rows};

/// The names of a script's threads and channels, by number.
#[derive(Drop)]
pub(crate) struct Called {
    pub(crate) threads: IndexedNames,
    pub(crate) channels: IndexedNames,
}

fn thread_names(alloc: Global, script: &Script) -> Result<Rows<Name>, NoMemory>
    ensures { IfOk result (λ names. names ≡ thread_names script.now.threads) }
{
    let mut names = Rows::new(alloc);
    for text in script.threads.as_slice() {
        names.push(text.name)?;
    }
    Ok(names)
}

fn copied(alloc: Global, names: &[Name]) -> Result<Rows<Name>, NoMemory>
    ensures { IfOk result (λ copy. copy ≡ names.now) }
{
    let mut copy = Vec::new(alloc);
    copy.extend_from_slice(names)?;
    Ok(Rows::from(copy))
}

// The script is one that can be spelled.
fn keeps(script: &Script)
    ensures { IsScript script.now }
{
    let _ = script.threads.len();
}

/// The names of a script's threads and channels.
pub(crate) fn names_of(alloc: Global, script: &Script) -> Result<Called, NoMemory>
    ensures threads { IfOk result (λ names. names.threads ≡ thread_names script.now.threads) }
    ensures channels { IfOk result (λ names. names.channels ≡ script.now.channels) }
    ensures script { IsScript script.now }
{
    keeps(script);
    let threads = thread_names(alloc, script)?;
    let channels = copied(alloc, script.channels.as_slice())?;
    Ok(Called {
        threads: IndexedNames::of(threads),
        channels: IndexedNames::of(channels),
    })
}

/// The thread of a name; the first where there is none.
pub(crate) fn thread(called: &Called, name: &[u8]) -> u32
    requires { length called.now.threads ≤ 64 }
    ensures { result ≡ said_thread called.now.threads name.now }
{
    match called.threads.place(name) {
        Some(i) => i as u32,
        None => 0,
    }
}
