ghost use Rattle.std.specs.Prelude.{◌≡◌, [], IfOk};
ghost use Rattle.te_report.specs.Following.{cores_from, shown_site, HasCore, followed};

use std::alloc::Global;
use std::sync::Arc;
use te_history::Entry;
use te_script::{Core, Script, Site};
use te_terms::NoMemory;

/// The cores of the script's threads, at their first wishes.
pub(crate) fn first_cores(alloc: Global, script: &Script) -> Result<Vec<Core>, NoMemory>
    ensures { IfOk result (λ cores. cores.items ≡ cores_from [] 0 script.now.threads) }
{
    let mut cores = Vec::new(alloc);
    for text in script.threads.as_slice() {
        cores.push(Core::new(alloc, Arc::try_clone(text)?)?)?;
    }
    Ok(cores)
}

/// Where the wish stands that a post posts, as the core of its thread tells.
pub(crate) fn site_of(cores: &[Core], entry: &Entry) -> Option<Site>
    requires { HasCore cores.now entry.now }
    ensures { result ≡ shown_site cores.now entry.now }
{
    match entry {
        Entry::Post { by, .. } => Some(cores[*by as usize].site()),
        _ => None,
    }
}

/// Moves the core of a thread on that takes an outcome.
pub(crate) fn follow(cores: &mut Vec<Core>, entry: &Entry)
    requires { HasCore cores.old.items entry.now }
    ensures { cores.new.items ≡ followed cores.old.items entry.now }
{
    match entry {
        Entry::Take { by, outcome, .. } => {
            let core = &mut cores[*by as usize];
            core.give(*outcome);
        }
        _ => {}
    }
}
