// From a final path to a group.

ghost use Rattle.std.specs.Prelude.{◌≡◌, ◌≤◌, ◌<◌, ◌+◌, ◌-◌, length, ◌∷◌, [], slice_get, true, Some, Err, IfOk};
ghost use Rattle.te_search.specs.Assemblies.{AssemblyStand, TellsFinal, AreNumbers, IsOpenAt, TellsLined, TakesIn, Assembles, TriesOnly, NamesPaths, joint, AreNone, LacksOne, later_number};
ghost use Rattle.te_search.specs.Finals.{numbers_of, TellThreads};
ghost use Rattle.te_search.specs.Works.{AreLow};
ghost use Rattle.te_trail.specs.Paths.{Path};
ghost use Rattle.te_search.specs.Searching.{AreUp};
ghost use Rattle.te_search.specs.declared.assembly.Refused.TheVariants as refusals;

use crate::finals::Finals;
use std::alloc::Global;
use te_path::Stop;
use te_terms::NoMemory;
use te_trail::TrailStore;

/// Why a step of a search was refused.
#[derive(Clone, Copy, Debug, PartialEq, Eq)]
pub(crate) enum Refused {
    /// The next step would pass the budget.
    Spent,
    /// There was no memory.
    Memory,
}

/// Whether a path is at its end.
pub(crate) fn is_final(store: &TrailStore, p: u32) -> bool
    requires { p < length store.now.paths }
    ensures { TellsFinal store.now.events store.now.paths p result }
{
    match store.stop(p) {
        Stop::Done(_) => true,
        Stop::Raised(_) => true,
        Stop::Send(_, _) => false,
        Stop::Recv(_) => false,
        Stop::Choice => false,
        Stop::Dead => false,
    }
}

// The first place whose path isn't final.
fn open_place(store: &TrailStore, joined: &[Option<u32>]) -> Option<usize>
    requires { AreNumbers store.now.paths joined.now }
    ensures { IsOpenAt store.now.events store.now.paths joined.now result }
{
    'places: for i in 0..joined.len() {
        let Some(p) = joined[i] else {
            continue;
        };
        if !is_final(store, p) {
            return Some(i);
        }
    }
    None
}

// Whether the clock of a path is on one line with the joined past, thread by thread.
fn is_lined(store: &TrailStore, threads: &[u32], p: u32, joined: &[Option<u32>]) -> bool
    requires path { p < length store.now.paths }
    requires wide { length joined.now ≡ length threads.now }
    requires numbers { AreNumbers store.now.paths joined.now }
    ensures { TellsLined store.now.paths threads.now p joined.now result }
{
    'places: for i in 0..threads.len() {
        let Some(there) = joined[i] else {
            continue;
        };
        let Some(own) = store.clock(p, threads[i]) else {
            continue;
        };
        if !store.on_line(own, there) {
            return false;
        }
    }
    true
}

// The deeper of two paths on one line, by their numbers.
fn later(own: Option<u32>, there: Option<u32>) -> Option<u32>
    ensures { result ≡ later_number own there }
{
    let Some(a) = own else {
        return there;
    };
    let Some(b) = there else {
        return own;
    };
    if a < b { there } else { own }
}

// The joined past with that of one more path, thread by thread.
fn take_in(
    alloc: Global,
    store: &TrailStore,
    threads: &[u32],
    p: u32,
    joined: &[Option<u32>],
) -> Result<Vec<Option<u32>>, NoMemory>
    requires path { p < length store.now.paths }
    requires ups { AreUp store.now.paths }
    requires wide { length joined.now ≡ length threads.now }
    requires numbers { AreNumbers store.now.paths joined.now }
    ensures wide { IfOk result (λ v. length v.items ≡ length threads.now) }
    ensures numbers { IfOk result (λ v. AreNumbers store.now.paths v.items) }
    ensures taken { IfOk result (λ v. TakesIn store.now.paths threads.now p joined.now v.items) }
{
    let _paths = store.len();
    let mut more = Vec::with_capacity(alloc, threads.len())?;
    'places: for i in 0..threads.len() {
        let own = store.clock(p, threads[i]);
        more.push(later(own, joined[i]))?;
    }
    Ok(more)
}

// A joined past that has no path of so many threads.
fn nothing_joined(alloc: Global, threads: usize) -> Result<Vec<Option<u32>>, NoMemory>
    ensures wide { IfOk result (λ v. length v.items ≡ threads) }
    ensures none { IfOk result (λ v. AreNone v.items) }
{
    let mut joined = Vec::with_capacity(alloc, threads)?;
    'threads: for _ in 0..threads {
        joined.push(None)?;
    }
    Ok(joined)
}

/// The past of one path, thread by thread.
pub(crate) fn past_of(
    alloc: Global,
    store: &TrailStore,
    threads: &[u32],
    p: u32,
) -> Result<Vec<Option<u32>>, NoMemory>
    requires path { p < length store.now.paths }
    requires ups { AreUp store.now.paths }
    ensures wide { IfOk result (λ v. length v.items ≡ length threads.now) }
    ensures numbers { IfOk result (λ v. AreNumbers store.now.paths v.items) }
    ensures names { IfOk result (λ v. (x : Path) → slice_get store.now.paths p ≡ Some x → NamesPaths store.now.paths threads.now (joint (x ∷ [])) v.items) }
{
    let none = nothing_joined(alloc, threads.len())?;
    take_in(alloc, store, threads, p, &none)
}

/// Whether a final path can't go on to a group: the first thread of its past whose path isn't final has no final path.
pub(crate) fn lacks_one(store: &TrailStore, threads: &[u32], finals: &Finals, p: u32) -> bool
    requires path { p < length store.now.paths }
    requires low { AreLow store.now.paths (numbers_of finals.now) }
    requires told { TellThreads store.now.paths finals.now }
    ensures { result ≡ true → LacksOne store.now.events store.now.paths (numbers_of finals.now) p }
{
    'places: for i in 0..threads.len() {
        let thread = threads[i];
        let Some(q) = store.clock(p, thread) else {
            continue;
        };
        if !is_final(store, q) {
            return finals.lacks(thread);
        }
    }
    false
}

/// The joined past of a group, where the joined past of some final paths can be completed to one: an open thread is
/// one whose path isn't final, and each final path of it is tried that agrees with the others. Each that is taken in
/// takes one from `left`. Where none is left there is one more to be taken in.
pub(crate) fn assemble(
    alloc: Global,
    store: &TrailStore,
    threads: &[u32],
    finals: &Finals,
    joined: &[Option<u32>],
    left: &mut u64,
) -> Result<Option<Vec<Option<u32>>>, Refused>
    requires stand { AssemblyStand store.now.events store.now.paths threads.now (numbers_of finals.now) }
    requires told { TellThreads store.now.paths finals.now }
    requires wide { length joined.now ≡ length threads.now }
    requires numbers { AreNumbers store.now.paths joined.now }
    ensures falls { left.new ≤ left.old }
    ensures ok { IfOk result (Assembles store.now.events store.now.paths threads.now (numbers_of finals.now) joined.now (left.old - left.new)) }
    ensures spent { result ≡ Err refusals.Spent → left.new ≡ 0 }
    ensures tried { result ≡ Err refusals.Spent → TriesOnly store.now.events store.now.paths threads.now joined.now (left.old - left.new + 1) }
{
    let Some(place) = open_place(store, joined) else {
        return match Vec::from_slice(alloc, joined) {
            Ok(group) => Ok(Some(group)),
            Err(_) => Err(Refused::Memory),
        };
    };
    let thread = threads[place];
    let there = finals.bucket(thread);
    'tries: for f in there {
        let p = *f;
        if store.thread(p) != thread {
            continue;
        }
        if !is_lined(store, threads, p, joined) {
            continue;
        }
        if *left == 0 {
            return Err(Refused::Spent);
        }
        *left -= 1;
        let Ok(more) = take_in(alloc, store, threads, p, joined) else {
            return Err(Refused::Memory);
        };
        match assemble(alloc, store, threads, finals, &more, left) {
            Err(refused) => return Err(refused),
            Ok(Some(group)) => return Ok(Some(group)),
            Ok(None) => {}
        }
    }
    Ok(None)
}
