// The numbers of kept paths, by direction and channel.

ghost use Rattle.std.specs.Prelude.{◌≡◌, ℕ, ◌<◌, [], ◌∷◌, ◌++◌, OnOk, OnErr, cond, nat_eq, Bool};
ghost use Rattle.te_pair.specs.Places.{numbers_in, numbers, without_last, Adds, Stays, Drops};

use crate::end::End;
use std::alloc::Global;
use std::collections::HashMap;
use te_terms::NoMemory;

// Channels from here on are fresh ones. Once it is left, a fresh channel may never be seen again.
const FIRST_FRESH: u32 = 1_073_741_824;

/// For each direction and channel, the numbers of the paths that stand there, in the order of adding.
#[derive(Drop)]
pub(crate) struct Places {
    alloc: Global,
    sends: HashMap<u32, Vec<u32>>,
    receives: HashMap<u32, Vec<u32>>,
}

impl Places {
    pub(crate) fn new(alloc: Global) -> Places
        ensures { (channel : ℕ) (sends : Bool) → numbers result channel sends ≡ [] }
    {
        Places {
            alloc,
            sends: HashMap::new(alloc),
            receives: HashMap::new(alloc),
        }
    }

    /// The paths of a direction and channel.
    pub(crate) fn at(&self, channel: u32, sends: bool) -> &[u32]
        ensures { result.now ≡ numbers self.now channel sends }
    {
        if sends {
            numbers_at(&self.sends, channel)
        } else {
            numbers_at(&self.receives, channel)
        }
    }

    /// Puts a path behind the others of its place.
    pub(crate) fn add(&mut self, end: End) -> Result<(), NoMemory>
        ensures ok { OnOk result (Adds self.old self.new end) }
        ensures err { OnErr result (Stays self.old self.new) }
    {
        if end.sends {
            add_to(&mut self.sends, self.alloc, end.channel, end.path)
        } else {
            add_to(&mut self.receives, self.alloc, end.channel, end.path)
        }
    }

    /// Takes away the last path of its place.
    pub(crate) fn drop_last(&mut self, end: End)
        ensures { Drops self.old self.new end }
    {
        if end.sends {
            drop_from(&mut self.sends, end.channel);
        } else {
            drop_from(&mut self.receives, end.channel);
        }
    }
}

fn numbers_at(paths: &HashMap<u32, Vec<u32>>, channel: u32) -> &[u32]
    ensures { result.now ≡ numbers_in paths.now channel }
{
    match paths.get(&channel) {
        Some(there) => there.as_slice(),
        None => &[],
    }
}

fn add_to(
    paths: &mut HashMap<u32, Vec<u32>>,
    alloc: Global,
    channel: u32,
    path: u32,
) -> Result<(), NoMemory>
    ensures ok { OnOk result ((c : ℕ) → numbers_in paths.new c ≡ cond (nat_eq channel c) (numbers_in paths.old c ++ path ∷ []) (numbers_in paths.old c)) }
    ensures err { OnErr result ((c : ℕ) → numbers_in paths.new c ≡ numbers_in paths.old c) }
{
    if let Some(there) = paths.get_mut(&channel) {
        there.push(path)?;
        return Ok(());
    }
    let mut there = Vec::new(alloc);
    there.push(path)?;
    paths.insert(channel, there)?;
    Ok(())
}

fn drop_from(paths: &mut HashMap<u32, Vec<u32>>, channel: u32)
    ensures { (c : ℕ) → numbers_in paths.new c ≡ cond (nat_eq channel c) (without_last (numbers_in paths.old c)) (numbers_in paths.old c) }
{
    if let Some(there) = paths.get_mut(&channel) {
        there.pop();
        if channel >= FIRST_FRESH && there.is_empty() {
            paths.remove(&channel);
        }
    }
}
